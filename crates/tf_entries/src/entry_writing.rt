ghost use Rattle.std.specs.Int.{to_be_bytes, w16};
ghost use Rattle.std.specs.Prelude.{◌≡◌, ◌<◌, ◌≤◌, ◌+◌, ◌++◌, ◌∷◌, ℕ, length, true, IsOk, OnOk, OnErr, vec_capacity};
ghost use Rattle.tf_states.specs.declared.record.Failure.{Failure};
ghost use Rattle.tf_values.specs.Growth.{KeepsPrefix};
ghost use Rattle.tf_entries.specs.Entries as form;

use crate::appending::{append, append_tagged_name, append_tagged_text, append_value};
use tf_states::{AtomState, Entry, Failure, FlowState, Kind, Payload, What};
use tf_values::Memory;

/// Appends the form of an entry, which has the payload that its state names. It takes no memory where
/// the output has room of 131,200 bytes. Want of memory leaves the output as it was.
#[tactic(auto, using(crate::proofs::SizeLemmas::entry_long))]
pub fn encode_entry(entry: &Entry, out: &mut Vec<u8>) -> Result<(), Memory>
    requires hand { entry.now.hand < 64 }
    requires payload { form.has_its_payload entry.now.what ≡ true }
    ensures ok { OnOk result (out.new.items ≡ out.old.items ++ form.entry_bytes entry.now) }
    ensures is_entry { OnOk result ((atoms flows : ℕ) → form.IsAmong atoms flows entry.now.what
        → form.IsEntry atoms flows entry.now) }
    ensures within { OnOk result (form.HasItsPayload entry.now.what) }
    ensures long { OnOk result ((1 ≤ length (form.entry_bytes entry.now))
        × (length (form.entry_bytes entry.now) ≤ 131200)) }
    ensures err { OnErr result (out.new.items ≡ out.old.items) }
    ensures room { length out.old.items + 131200 ≤ vec_capacity out.old → IsOk result }
    ensures capacity { vec_capacity out.old ≤ vec_capacity out.new }
{
    let before = out.len();
    match append_entry(entry, out) {
        Ok(()) => Ok(()),
        Err(fault) => {
            out.truncate(before);
            Err(fault)
        }
    }
}

#[tactic(auto, using(tf_values::proofs::GrowthLemmas::keeps_shorter))]
fn append_entry(entry: &Entry, out: &mut Vec<u8>) -> Result<(), Memory>
    requires { form.has_its_payload entry.now.what ≡ true }
    ensures ok { OnOk result (out.new.items ≡ out.old.items ++ form.entry_bytes entry.now) }
    ensures within { OnOk result (form.HasItsPayload entry.now.what) }
    ensures err { OnErr result (KeepsPrefix out.old.items out.new.items) }
    ensures full { OnErr result (vec_capacity out.old < length out.old.items + 131200) }
    ensures room { vec_capacity out.old ≤ vec_capacity out.new }
{
    append(&[entry.hand], out)?;
    append_what(&entry.what, out)
}

#[tactic(auto, using(tf_values::proofs::GrowthLemmas::keeps_shorter))]
fn append_what(what: &What, out: &mut Vec<u8>) -> Result<(), Memory>
    requires { form.has_its_payload what.now ≡ true }
    ensures ok { OnOk result (out.new.items ≡ out.old.items ++ form.what_bytes what.now) }
    ensures within { OnOk result (form.HasItsPayload what.now) }
    ensures err { OnErr result (KeepsPrefix out.old.items out.new.items) }
    ensures full { OnErr result (vec_capacity out.old < length out.old.items + 131076) }
    ensures room { vec_capacity out.old ≤ vec_capacity out.new }
{
    match what {
        What::Atom {
            atom,
            state,
            payload,
        } => {
            append_tagged_number(1, *atom, out)?;
            append(&[atom_state_byte(*state)], out)?;
            append_payload(payload, out)
        }
        What::Flow(state) => append(&[2, flow_state_byte(*state)], out),
        What::Resolve { flow, kind } => {
            append_tagged_number(3, *flow, out)?;
            append(&[kind_byte(*kind)], out)
        }
        What::Restart(atom) => append_tagged_number(4, *atom, out),
    }
}

/// Appends a tag and a number of two bytes.
#[tactic(auto, using(tf_values::proofs::GrowthLemmas::keeps_shorter))]
fn append_tagged_number(tag: u8, number: u16, out: &mut Vec<u8>) -> Result<(), Memory>
    ensures ok { OnOk result (out.new.items ≡ out.old.items ++ tag ∷ to_be_bytes w16 number) }
    ensures err { OnErr result (KeepsPrefix out.old.items out.new.items) }
    ensures full { OnErr result (vec_capacity out.old < length out.old.items + 3) }
    ensures room { vec_capacity out.old ≤ vec_capacity out.new }
{
    append(&[tag], out)?;
    append(&number.to_be_bytes(), out)
}

fn append_payload(payload: &Payload, out: &mut Vec<u8>) -> Result<(), Memory>
    ensures ok { OnOk result (out.new.items ≡ out.old.items ++ form.payload_bytes payload.now) }
    ensures within { form.IsPayload payload.now }
    ensures err { OnErr result (KeepsPrefix out.old.items out.new.items) }
    ensures full { OnErr result (vec_capacity out.old < length out.old.items + 131072) }
    ensures room { vec_capacity out.old ≤ vec_capacity out.new }
{
    match payload {
        Payload::Empty => Ok(()),
        Payload::Value(value) => append_value(value, out),
        Payload::Fault(failure) => append_failure(failure, out),
    }
}

fn append_failure(failure: &Failure, out: &mut Vec<u8>) -> Result<(), Memory>
    ensures ok { OnOk result (out.new.items ≡ out.old.items ++ form.failure_bytes failure.now) }
    ensures within { form.IsFailure failure.now }
    ensures err { OnErr result (KeepsPrefix out.old.items out.new.items) }
    ensures full { OnErr result (vec_capacity out.old < length out.old.items + 131072) }
    ensures room { vec_capacity out.old ≤ vec_capacity out.new }
{
    match failure {
        Failure::Raised(text) => append_tagged_text(0, text.bytes(), out),
        Failure::WrongKind(name) => append_tagged_name(1, name, out),
        Failure::Overflow => append(&[2], out),
        Failure::Range => append(&[3], out),
        Failure::TooLong => append(&[4], out),
        Failure::Lookup(name) => append_tagged_name(5, name, out),
        Failure::Exit(status) => append_exit(*status, out),
        Failure::Spawn => append(&[7], out),
        Failure::NotText => append(&[8], out),
        Failure::Lost => append(&[9], out),
        Failure::BadReply(place) => append_bad_reply(*place, out),
        Failure::Exhausted => append(&[11], out),
    }
}

/// Appends the failure of a program that ended with this status.
#[tactic(auto, using(tf_values::proofs::GrowthLemmas::keeps_shorter))]
fn append_exit(status: i32, out: &mut Vec<u8>) -> Result<(), Memory>
    ensures ok { OnOk result (out.new.items ≡ out.old.items ++ form.failure_bytes (Failure.Exit status)) }
    ensures err { OnErr result (KeepsPrefix out.old.items out.new.items) }
    ensures full { OnErr result (vec_capacity out.old < length out.old.items + 5) }
    ensures room { vec_capacity out.old ≤ vec_capacity out.new }
{
    append(&[6], out)?;
    append(&status.to_be_bytes(), out)
}

/// Appends the failure of a reply after so many bytes.
#[tactic(auto, using(tf_values::proofs::GrowthLemmas::keeps_shorter))]
fn append_bad_reply(place: u32, out: &mut Vec<u8>) -> Result<(), Memory>
    ensures ok { OnOk result (out.new.items ≡ out.old.items ++ form.failure_bytes (Failure.BadReply place)) }
    ensures err { OnErr result (KeepsPrefix out.old.items out.new.items) }
    ensures full { OnErr result (vec_capacity out.old < length out.old.items + 5) }
    ensures room { vec_capacity out.old ≤ vec_capacity out.new }
{
    append(&[10], out)?;
    append(&place.to_be_bytes(), out)
}

fn atom_state_byte(state: AtomState) -> u8
    ensures { result ≡ form.atom_state_byte state }
{
    match state {
        AtomState::Pending => 0,
        AtomState::Running => 1,
        AtomState::Success => 2,
        AtomState::Failure => 3,
        AtomState::Reverting => 4,
        AtomState::Reverted => 5,
        AtomState::RevertFailure => 6,
        AtomState::Ignore => 7,
        AtomState::Retrying => 8,
    }
}

fn flow_state_byte(state: FlowState) -> u8
    ensures { result ≡ form.flow_state_byte state }
{
    match state {
        FlowState::Pending => 0,
        FlowState::Running => 1,
        FlowState::Success => 2,
        FlowState::Failure => 3,
        FlowState::Reverted => 4,
        FlowState::Suspending => 5,
        FlowState::Suspended => 6,
        FlowState::Resuming => 7,
    }
}

fn kind_byte(kind: Kind) -> u8
    ensures { result ≡ form.kind_byte kind }
{
    match kind {
        Kind::Retry => 0,
        Kind::Revert => 1,
        Kind::RevertAll => 2,
    }
}
