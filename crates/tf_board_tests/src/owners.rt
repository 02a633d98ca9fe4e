//! The owners for whom conductors work, a runner, and what calls were made.
ghost use Rattle.std.specs.Prelude.{◌≡◌, ◌≤◌, None, IfOk, length};
ghost use Rattle.tf_conductor.specs.Rounds.{AreDifferent};

use crate::boards::named;
use std::alloc::Global;
use std::test::Fail;
use tf_board::{JobAction, JobCall};
use tf_conductor::{Ran, Runner, owners_of};
use tf_shared_board::Made;
use tf_values::{Memory, Names, Text, Val};

/// A runner that is done with the jobs whose details are the text `ok.toml`, and has no memory for one without details.
#[derive(Drop)]
pub(crate) struct Reader;

impl Runner for Reader {
    ghost did = { λ _. None };

    ghost gives = { λ _ _ _. Unit {0} };

    fn run(&mut self, _alloc: Global, details: &Val) -> Result<Ran, Memory> {
        match details {
            Val::Nothing => Err(Memory),
            Val::Text(text) if text.bytes() == b"ok.toml".as_slice() => Ok(Ran::Done),
            _ => Ok(Ran::Left),
        }
    }
}

/// The owners of so many conductors.
pub(crate) fn owners(alloc: Global, count: u8) -> Result<Names, Fail>
    requires { count ≤ 64 }
    ensures { IfOk result (λ owners. (length owners ≡ count) × AreDifferent owners) }
{
    let word = named(b"ann")?;
    Ok(owners_of(alloc, &word, count)?)
}

/// Details that name a file.
pub(crate) fn file(alloc: Global, bytes: &[u8]) -> Result<Val, Fail> {
    Ok(Val::Text(Text::make(alloc, bytes)?))
}

/// A call by its kind: 1 a claim, 2 an abandon, 3 a consume, and 0 any other.
pub(crate) fn kind(made: &Made) -> u8 {
    match &made.call {
        JobCall::Apply { action, .. } => match action {
            JobAction::Claim => 1,
            JobAction::Abandon => 2,
            JobAction::Consume => 3,
            JobAction::Trash => 0,
        },
        JobCall::Post { .. } => 0,
    }
}
