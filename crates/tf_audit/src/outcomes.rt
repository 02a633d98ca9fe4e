ghost use Rattle.std.specs.Prelude.{◌≡◌, ◌↔◌, IsTrue, IfOk};
ghost use Rattle.tf_states.specs.declared.record.Failure.{Failure as Fault};
ghost use Rattle.tf_actions.specs.declared.outcomes.Outcome.TheVariants as came;
ghost use Rattle.tf_actions.specs.Gives.{GivesFar, FailsFar, is_far_failure as is_far, GivesText, GivesNothing, IsWhole};
ghost use Rattle.tf_audit.specs.Outcomes.{outcome_in, EndsProgram};

use std::alloc::Global;
use tf_actions::{Action, Order, Outcome, is_program_failure};
use tf_states::{Failure, Payload};
use tf_tasks::{is_program, value_of};
use tf_values::{Memory, Val};

/// Whether a hand, here or on another machine, may end the task of the order with this payload.
pub fn allows(alloc: Global, order: &Order, payload: &Payload) -> Result<bool, Memory>
    requires { IsWhole order.now }
    ensures { IfOk result (λ allowed. IsTrue allowed ↔ GivesFar order.now (outcome_in payload.now)) }
{
    if fails_far(order, payload) {
        return Ok(true);
    }
    if is_program(order) {
        return Ok(ends_program(order.action, payload));
    }
    let outcome = value_of(alloc, order)?;
    Ok(is_outcome(&outcome, payload))
}

/// Whether the worker of the order was lost, or replied badly.
fn fails_far(order: &Order, payload: &Payload) -> bool
    ensures { IsTrue result ↔ FailsFar order.now (outcome_in payload.now) }
{
    order.is_sent() && is_far_failure(payload)
}

/// Whether the payload says so.
fn is_far_failure(payload: &Payload) -> bool
    ensures { result ≡ is_far (outcome_in payload.now) }
{
    matches!(
        payload,
        Payload::Fault(Failure::Lost | Failure::BadReply(_))
    )
}

/// Whether a program may end so: with a text where it is executed, with nothing where it undoes, or by a failure.
fn ends_program(action: Action, payload: &Payload) -> bool
    ensures { IsTrue result ↔ EndsProgram action (outcome_in payload.now) }
{
    match action {
        Action::Execute => gives_text(payload),
        Action::Revert => gives_nothing(payload),
    }
}

/// Whether the payload is a text or a program's failure.
fn gives_text(payload: &Payload) -> bool
    ensures { IsTrue result ↔ GivesText (outcome_in payload.now) }
{
    match payload {
        Payload::Value(Val::Text(text)) => {
            text.bytes();
            true
        }
        Payload::Fault(failure) => is_program_failure(failure),
        _ => false,
    }
}

/// Whether the payload is nothing or a program's failure.
fn gives_nothing(payload: &Payload) -> bool
    ensures { IsTrue result ↔ GivesNothing (outcome_in payload.now) }
{
    match payload {
        Payload::Empty | Payload::Value(Val::Nothing) => true,
        Payload::Fault(failure) => is_program_failure(failure),
        _ => false,
    }
}

/// Whether the payload is the outcome's.
fn is_outcome(outcome: &Outcome, payload: &Payload) -> bool
    ensures { IsTrue result ↔ (outcome.now ≡ outcome_in payload.now) }
{
    match outcome {
        Outcome::Gave(value) => gives(value, payload),
        Outcome::Failed(failure) => fails(failure, payload),
    }
}

/// Whether the payload is this value; none is nothing.
fn gives(value: &Val, payload: &Payload) -> bool
    ensures { IsTrue result ↔ (came.Gave value.now ≡ outcome_in payload.now) }
{
    match payload {
        Payload::Empty => matches!(value, Val::Nothing),
        Payload::Value(other) => value.same(other),
        Payload::Fault(_) => false,
    }
}

/// Whether the payload is this failure.
fn fails(failure: &Failure, payload: &Payload) -> bool
    ensures { IsTrue result ↔ (came.Failed failure.now ≡ outcome_in payload.now) }
{
    match payload {
        Payload::Fault(other) => failure.same(other),
        _ => false,
    }
}
