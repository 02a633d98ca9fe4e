ghost use Rattle.std.specs.Prelude.{◌≡◌};
ghost use Rattle.tf_target.specs.declared.faults.TargetFault.TheVariants.{Memory as OutOfMemory};

use tf_values::{Memory, Name};

/// Why a plan has no part up to a target, in the order in which it is looked at.
#[derive(Debug, Drop)]
pub enum TargetFault {
    /// The root flow is no graph flow.
    NotAGraph,
    /// No item of the root flow has this name.
    UnknownTarget(Name),
    /// The items that are kept hold no atom, and the root flow has no retry controller.
    Empty,
    /// Memory ran out. It says nothing of the plan.
    Memory,
}

impl From<Memory> for TargetFault {
    ghost from_gives = { λ _ fault. fault ≡ OutOfMemory };

    fn from(_fault: Memory) -> TargetFault {
        TargetFault::Memory
    }
}
