ghost use Rattle.std.specs.Prelude.{◌≡◌, ◌++◌, ◌∷◌, [], true, Some, IfOk};
ghost use Rattle.tf_values.specs.declared.value.Val.{Val as Value};
ghost use Rattle.tf_values.specs.Value.{text_form, IsValue};
ghost use Rattle.tf_states.specs.declared.record.Failure.{Failure as Fault};
ghost use Rattle.tf_states.specs.declared.record.Payload.{Payload as Held};
ghost use Rattle.tf_states.specs.declared.record.Payload.TheVariants as held;
ghost use Rattle.tf_entries.specs.Entries.{is_payload_of, IsPayload, IsFailure};
ghost use Rattle.tf_report.specs.Lines.{failure_text};
ghost use Rattle.tf_audit.specs.Events.{payload_rest};

use crate::failures::failure_of;
use crate::values::value_of;
use std::alloc::Global;
use tf_states::{AtomState, Payload};
use tf_values::Memory;

/// The payload that the state names, of what stands behind the state's word.
pub fn payload_of(alloc: Global, state: AtomState, bytes: &[u8]) -> Result<Option<Payload>, Memory>
    ensures { IfOk result (λ read. (held : Held) → is_payload_of state held ≡ true → IsPayload held
        → bytes.now ≡ payload_rest held → read ≡ Some held) }
{
    match state {
        AtomState::Success => value_payload(alloc, bytes),
        AtomState::Failure | AtomState::RevertFailure => fault_payload(alloc, bytes),
        _ => Ok(Some(Payload::Empty)),
    }
}

/// The value that stands behind a state's word.
fn value_payload(alloc: Global, bytes: &[u8]) -> Result<Option<Payload>, Memory>
    ensures { IfOk result (λ read. (value : Value) → IsValue value → bytes.now ≡ text_form value ++ 10 ∷ []
        → read ≡ Some (held.Value value)) }
{
    match value_of(alloc, bytes)? {
        Some(value) => Ok(Some(Payload::Value(value))),
        None => Ok(None),
    }
}

/// The failure that stands behind a state's word.
fn fault_payload(alloc: Global, bytes: &[u8]) -> Result<Option<Payload>, Memory>
    ensures { IfOk result (λ read. (fault : Fault) → IsFailure fault → bytes.now ≡ failure_text fault ++ 10 ∷ []
        → read ≡ Some (held.Fault fault)) }
{
    match failure_of(alloc, bytes)? {
        Some(failure) => Ok(Some(Payload::Fault(failure))),
        None => Ok(None),
    }
}
