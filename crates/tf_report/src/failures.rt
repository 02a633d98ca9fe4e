ghost use Rattle.std.specs.Prelude.{◌≡◌, ◌<◌, ◌≤◌, ◌+◌, ◌++◌, length, OnOk, OnErr, vec_capacity};
ghost use Rattle.tf_values.specs.Growth.{KeepsPrefix};
ghost use Rattle.tf_report.specs.Lines.{failure_text, payload_text};

use crate::appending::{append, append_counted, append_pair};
use tf_states::{Failure, Payload};
use tf_values::Memory;

/// Appends what follows a state: a value, a failure or nothing.
#[tactic(auto, using(tf_values::proofs::GrowthLemmas::keeps_shorter))]
pub fn append_payload(payload: &Payload, out: &mut Vec<u8>) -> Result<(), Memory>
    ensures ok { OnOk result (out.new.items ≡ out.old.items ++ payload_text payload.now) }
    ensures err { OnErr result (KeepsPrefix out.old.items out.new.items) }
    ensures full { OnErr result (vec_capacity out.old < length out.old.items + 800000) }
    ensures capacity { vec_capacity out.old ≤ vec_capacity out.new }
    ensures grown { OnOk result (length out.new.items ≤ length out.old.items + 800000) }
{
    match payload {
        Payload::Empty => Ok(()),
        Payload::Value(value) => {
            append(b" ", out)?;
            value.print(out)
        }
        Payload::Fault(failure) => {
            append(b" ", out)?;
            append_failure(failure, out)
        }
    }
}

#[tactic(auto, using(tf_values::proofs::GrowthLemmas::keeps_shorter))]
fn append_failure(failure: &Failure, out: &mut Vec<u8>) -> Result<(), Memory>
    ensures ok { OnOk result (out.new.items ≡ out.old.items ++ failure_text failure.now) }
    ensures err { OnErr result (KeepsPrefix out.old.items out.new.items) }
    ensures full { OnErr result (vec_capacity out.old < length out.old.items + 400000) }
    ensures capacity { vec_capacity out.old ≤ vec_capacity out.new }
    ensures grown { OnOk result (length out.new.items ≤ length out.old.items + 400000) }
{
    match failure {
        Failure::Raised(text) => {
            append(b"raised ", out)?;
            text.print(out)
        }
        Failure::WrongKind(name) => append_pair(b"type ", name.bytes(), out),
        Failure::Overflow => append(b"overflow", out),
        Failure::Range => append(b"range", out),
        Failure::TooLong => append(b"too-long", out),
        Failure::Lookup(name) => append_pair(b"lookup ", name.bytes(), out),
        Failure::Exit(status) => append_counted(b"exit ", *status, out),
        Failure::Spawn => append(b"spawn", out),
        Failure::NotText => append(b"not-text", out),
        Failure::Lost => append(b"lost", out),
        Failure::BadReply(at) => append_counted(b"bad-reply ", *at, out),
        Failure::Exhausted => append(b"exhausted", out),
    }
}
