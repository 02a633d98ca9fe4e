ghost use Rattle.std.specs.Prelude.{◌≡◌, ◌↔◌, IsTrue, IfOk};
ghost use Rattle.tf_actions.specs.Gives.{Gives, GivesText, GivesNothing, IsWhole};
ghost use Rattle.tf_remote.specs.Allowed.{GivesProgram};

use std::alloc::Global;
use tf_actions::{Action, Order, Outcome, is_program_failure};
use tf_tasks::{is_program, value_of};
use tf_values::{Memory, Val};

/// Whether the order may have this outcome.
pub fn allows(alloc: Global, order: &Order, came: &Outcome) -> Result<bool, Memory>
    requires { IsWhole order.now }
    ensures { IfOk result (λ allowed. IsTrue allowed ↔ Gives order.now came.now) }
{
    if is_program(order) {
        return Ok(ends_program(order.action, came));
    }
    let outcome = value_of(alloc, order)?;
    Ok(same_outcome(&outcome, came))
}

/// Whether a program may end so: with a text where it is executed, with nothing where it undoes, or by a failure.
fn ends_program(action: Action, came: &Outcome) -> bool
    ensures { IsTrue result ↔ GivesProgram action came.now }
{
    match action {
        Action::Execute => gives_text(came),
        Action::Revert => gives_nothing(came),
    }
}

/// Whether the outcome is a text or a program's failure.
fn gives_text(came: &Outcome) -> bool
    ensures { IsTrue result ↔ GivesText came.now }
{
    match came {
        Outcome::Gave(Val::Text(text)) => {
            text.bytes();
            true
        }
        Outcome::Gave(_) => false,
        Outcome::Failed(failure) => is_program_failure(failure),
    }
}

/// Whether the outcome is nothing or a program's failure.
fn gives_nothing(came: &Outcome) -> bool
    ensures { IsTrue result ↔ GivesNothing came.now }
{
    match came {
        Outcome::Gave(value) => matches!(value, Val::Nothing),
        Outcome::Failed(failure) => is_program_failure(failure),
    }
}

/// Whether two outcomes are equal.
fn same_outcome(outcome: &Outcome, other: &Outcome) -> bool
    ensures { IsTrue result ↔ (outcome.now ≡ other.now) }
{
    match (outcome, other) {
        (Outcome::Gave(value), Outcome::Gave(other)) => value.same(other),
        (Outcome::Failed(failure), Outcome::Failed(other)) => failure.same(other),
        _ => false,
    }
}
