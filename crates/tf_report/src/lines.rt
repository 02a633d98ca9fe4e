ghost use Rattle.std.specs.Prelude.{◌≡◌, ◌<◌, ◌≤◌, ◌+◌, ◌++◌, length, IsOk, OnOk, OnErr, vec_capacity};
ghost use Rattle.tf_values.specs.Growth.{KeepsPrefix};
ghost use Rattle.tf_model.specs.Plan.{outline_of};
ghost use Rattle.tf_report.specs.Lines.{what_text, line as line_of};

use crate::appending::{append, append_named, append_number, append_pair};
use crate::failures::append_payload;
use crate::names::{atom_name, part_word, short_flow_name};
use crate::state_words::{atom_word, flow_word, kind_word};
use tf_flow::Plan;
use tf_states::{Entry, What};
use tf_values::Memory;

/// Appends the line of the entry of that number, counted from 1 in its history. An atom or a flow that
/// the plan doesn't have is shown without a name. Want of memory leaves the output as it was, and doesn't
/// come where there is room for 1,048,576 bytes more.
pub fn line(plan: &Plan, number: u64, entry: &Entry, out: &mut Vec<u8>) -> Result<(), Memory>
    ensures ok { OnOk result (out.new.items ≡ out.old.items ++ line_of (outline_of plan.now) number entry.now) }
    ensures err { OnErr result (out.new.items ≡ out.old.items) }
    ensures room { length out.old.items + 1048576 ≤ vec_capacity out.old → IsOk result }
    ensures capacity { vec_capacity out.old ≤ vec_capacity out.new }
{
    let before = out.len();
    match append_line(plan, number, entry, out) {
        Ok(()) => Ok(()),
        Err(fault) => {
            out.truncate(before);
            Err(fault)
        }
    }
}

#[tactic(auto, using(tf_values::proofs::GrowthLemmas::keeps_shorter), unfolding(crate::specs::Lines::line))]
fn append_line(plan: &Plan, number: u64, entry: &Entry, out: &mut Vec<u8>) -> Result<(), Memory>
    ensures ok { OnOk result (out.new.items ≡ out.old.items ++ line_of (outline_of plan.now) number entry.now) }
    ensures err { OnErr result (KeepsPrefix out.old.items out.new.items) }
    ensures full { OnErr result (vec_capacity out.old < length out.old.items + 1048576) }
    ensures capacity { vec_capacity out.old ≤ vec_capacity out.new }
    ensures grown { OnOk result (length out.new.items ≤ length out.old.items + 1048576) }
{
    append_number(number, out)?;
    append(b" ", out)?;
    append_number(entry.hand, out)?;
    append(b" ", out)?;
    append_what(plan, &entry.what, out)?;
    append(b"\n", out)
}

#[tactic(auto, using(tf_values::proofs::GrowthLemmas::keeps_shorter))]
fn append_what(plan: &Plan, what: &What, out: &mut Vec<u8>) -> Result<(), Memory>
    ensures ok { OnOk result (out.new.items ≡ out.old.items ++ what_text (outline_of plan.now) what.now) }
    ensures err { OnErr result (KeepsPrefix out.old.items out.new.items) }
    ensures full { OnErr result (vec_capacity out.old < length out.old.items + 900000) }
    ensures capacity { vec_capacity out.old ≤ vec_capacity out.new }
    ensures grown { OnOk result (length out.new.items ≤ length out.old.items + 900000) }
{
    match what {
        What::Atom {
            atom,
            state,
            payload,
        } => {
            append(part_word(plan, *atom).as_bytes(), out)?;
            append(atom_name(plan, *atom), out)?;
            append(b" ", out)?;
            append(atom_word(*state).as_bytes(), out)?;
            append_payload(payload, out)
        }
        What::Flow(state) => append_named(
            b"flow ",
            short_flow_name(plan, 0),
            flow_word(*state),
            out,
        ),
        What::Resolve { flow, kind } => {
            append_named(
                b"resolve ",
                short_flow_name(plan, *flow),
                kind_word(*kind),
                out,
            )
        }
        What::Restart(atom) => append_pair(b"restart ", atom_name(plan, *atom), out),
    }
}
