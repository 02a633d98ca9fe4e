ghost use Rattle.std.specs.Prelude.{◌≡◌, ◌<◌, ◌≤◌, ◌+◌, ◌++◌, length, IsOk, OnOk, OnErr, vec_capacity};
ghost use Rattle.tf_values.specs.Growth.{KeepsPrefix};
ghost use Rattle.tf_report.specs.Lines.{detail_line};

use crate::appending::{append, append_named, append_number};
use crate::state_words::flow_word;
use tf_states::FlowState;
use tf_values::{Memory, Name};

/// Appends the line of a flow of a book: its number, counted from 0, the name of its root, and how it stands. Want of
/// memory leaves the output as it was, and doesn't come where there is room for 128 bytes more.
pub fn detail(number: u16, name: &Name, state: FlowState, out: &mut Vec<u8>) -> Result<(), Memory>
    ensures ok { OnOk result (out.new.items ≡ out.old.items ++ detail_line number name.now state) }
    ensures err { OnErr result (out.new.items ≡ out.old.items) }
    ensures room { length out.old.items + 128 ≤ vec_capacity out.old → IsOk result }
    ensures capacity { vec_capacity out.old ≤ vec_capacity out.new }
{
    let before = out.len();
    match append_detail(number, name, state, out) {
        Ok(()) => Ok(()),
        Err(fault) => {
            out.truncate(before);
            Err(fault)
        }
    }
}

#[tactic(auto, using(tf_values::proofs::GrowthLemmas::keeps_shorter), unfolding(crate::specs::Lines::detail_line))]
fn append_detail(
    number: u16,
    name: &Name,
    state: FlowState,
    out: &mut Vec<u8>,
) -> Result<(), Memory>
    ensures ok { OnOk result (out.new.items ≡ out.old.items ++ detail_line number name.now state) }
    ensures err { OnErr result (KeepsPrefix out.old.items out.new.items) }
    ensures full { OnErr result (vec_capacity out.old < length out.old.items + 128) }
    ensures capacity { vec_capacity out.old ≤ vec_capacity out.new }
{
    append_number(number, out)?;
    append_named(b" ", name.bytes(), flow_word(state), out)?;
    append(b"\n", out)
}
