ghost use Rattle.std.specs.Prelude.{◌↔◌, IsTrue};
ghost use Rattle.tf_actions.specs.Gives.{IsProgramFailure};

use tf_states::Failure;
use tf_values::Val;

/// What is done with a task: it is executed, or its effect is undone.
#[derive(Clone, Copy, Debug, PartialEq, Eq)]
pub enum Action {
    Execute,
    Revert,
}

/// What came of an action: a value, or a failure. What a reversion gives is dropped.
#[derive(Debug, Drop)]
pub enum Outcome {
    Gave(Val),
    Failed(Failure),
}

/// Whether a program fails so: it couldn't be run, ended with a status that isn't 0, or wrote too much or no text.
pub fn is_program_failure(failure: &Failure) -> bool
    ensures { IsTrue result ↔ IsProgramFailure failure.now }
{
    match failure {
        Failure::Spawn | Failure::TooLong | Failure::NotText => true,
        Failure::Exit(status) => *status != 0,
        _ => false,
    }
}
