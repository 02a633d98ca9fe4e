ghost use Rattle.std.specs.Prelude.{◌≡◌, ◌↔◌, IsTrue};

use tf_states::{Payload, What};

/// Whether two events are equal.
pub fn same_event(event: &What, other: &What) -> bool
    ensures { IsTrue result ↔ (event.now ≡ other.now) }
{
    match (event, other) {
        (
            What::Atom {
                atom,
                state,
                payload,
            },
            What::Atom {
                atom: other_atom,
                state: other_state,
                payload: other_payload,
            },
        ) => {
            *atom == *other_atom && *state == *other_state && same_payload(payload, other_payload)
        }
        (What::Flow(state), What::Flow(other)) => *state == *other,
        (
            What::Resolve { flow, kind },
            What::Resolve {
                flow: other_flow,
                kind: other_kind,
            },
        ) => *flow == *other_flow && *kind == *other_kind,
        (What::Restart(atom), What::Restart(other)) => *atom == *other,
        _ => false,
    }
}

/// Whether two payloads are equal.
fn same_payload(payload: &Payload, other: &Payload) -> bool
    ensures { IsTrue result ↔ (payload.now ≡ other.now) }
{
    match payload {
        Payload::Empty => matches!(other, Payload::Empty),
        Payload::Value(value) => matches!(other, Payload::Value(other) if value.same(other)),
        Payload::Fault(fault) => matches!(other, Payload::Fault(other) if fault.same(other)),
    }
}
