ghost use Rattle.std.specs.Prelude.{◌≡◌, ◌↔◌, IsTrue};
ghost use Rattle.tf_model.specs.Plan.{outline_of};
ghost use Rattle.tf_entries.specs.Entries.{IsEntry, IsAmong, HasItsPayload, IsPayload, IsFailure, is_payload_of};
ghost use Rattle.tf_audit.specs.Verdicts.{IsPlanEntry};

use tf_flow::Plan;
use tf_states::{AtomState, Entry, Failure, Payload, What};

/// Whether the entry is one of the plan: its hand is one, its atom or flow is the plan's, and it carries what its state
/// names.
pub fn is_of_plan(plan: &Plan, entry: &Entry) -> bool
    ensures { IsTrue result ↔ IsPlanEntry (outline_of plan.now) entry.now }
{
    is_entry(plan.atoms(), plan.flows(), entry)
}

/// The same of a plan with so many atoms and flows.
fn is_entry(atoms: u16, flows: u16, entry: &Entry) -> bool
    ensures { IsTrue result ↔ IsEntry atoms flows entry.now }
{
    entry.hand < 64 && is_among(atoms, flows, &entry.what)
}

/// Whether the atom or the flow is one of so many, and the payload the one that the state names.
fn is_among(atoms: u16, flows: u16, what: &What) -> bool
    ensures { IsTrue result ↔ (IsAmong atoms flows what.now × HasItsPayload what.now) }
{
    match what {
        What::Atom {
            atom,
            state,
            payload,
        } => {
            is_within(payload);
            *atom < atoms && has_payload(*state, payload)
        }
        What::Flow(_) => true,
        What::Resolve { flow, .. } => *flow < flows,
        What::Restart(atom) => *atom < atoms,
    }
}

/// Whether the payload is of the kind that the state names.
fn has_payload(state: AtomState, payload: &Payload) -> bool
    ensures { result ≡ is_payload_of state payload.now }
{
    match state {
        AtomState::Success => matches!(payload, Payload::Value(_)),
        AtomState::Failure | AtomState::RevertFailure => matches!(payload, Payload::Fault(_)),
        _ => matches!(payload, Payload::Empty),
    }
}

/// What the types hold is within the limits.
fn is_within(payload: &Payload)
    ensures { IsPayload payload.now }
{
    match payload {
        Payload::Empty => {}
        Payload::Value(value) => {
            value.encoded_len();
        }
        Payload::Fault(failure) => failure_is_within(failure),
    }
}

fn failure_is_within(failure: &Failure)
    ensures { IsFailure failure.now }
{
    match failure {
        Failure::Raised(text) => {
            text.bytes();
        }
        Failure::WrongKind(name) | Failure::Lookup(name) => {
            name.bytes();
        }
        Failure::Exit(status) => {
            let _status = *status;
        }
        Failure::BadReply(place) => {
            let _place = *place;
        }
        _ => {}
    }
}
