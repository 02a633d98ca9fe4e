ghost use Rattle.std.specs.Prelude.{◌≡◌, List, Option, IfOk, OnErr};
ghost use Rattle.tf_values.specs.declared.value.Val.{Val as AValue};
ghost use Rattle.tf_conductor.specs.Rounds.{GiveSame, told_run};
ghost use Rattle.tf_conductor.specs.declared.runners.Ran.{Ran as ARan};

use std::alloc::Global;
use tf_values::{Memory, Val};

/// How a job's run ended: it is done, so that the job is consumed; or it is left to others, so that the job is
/// abandoned.
#[derive(Clone, Copy, Debug, PartialEq, Eq)]
pub enum Ran {
    Done,
    Left,
}

/// Who runs jobs by their details.
pub trait Runner: Drop {
    /// The details that were run so far with how each run ended, in order, where the runner keeps them.
    ghost did: { Self → Option (List (AValue × ARan)) };

    /// How a run of details may end.
    ghost gives: { Self → AValue → ARan → Type 0 };

    /// Runs a job by its details. `Memory` leaves the list of runs as it was. How runs may end stays.
    fn run(&mut self, alloc: Global, details: &Val) -> Result<Ran, Memory>
        ensures given { IfOk result (λ ran. gives self.old details.now ran) }
        ensures done { IfOk result (λ ran. did self.new ≡ told_run (did self.old) (details.now, ran)) }
        ensures not_done { OnErr result (did self.new ≡ did self.old) }
        ensures same { GiveSame (gives self.old) (gives self.new) };
}
