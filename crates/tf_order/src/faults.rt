ghost use Rattle.std.specs.Prelude.{◌≡◌};
ghost use Rattle.tf_order.specs.declared.faults.CompileFault.TheVariants.{Memory as OutOfMemory};

use tf_values::{Memory, Name, Names};

/// Why a plan doesn't compile. Flows are looked at with the innermost first, items in order.
#[derive(Debug, Drop)]
pub enum CompileFault {
    /// Two or more items of a graph flow provide the symbol where another item needs it. The first two
    /// are named, in item order.
    Ambiguous {
        symbol: Name,
        first: Name,
        second: Name,
    },
    /// The links of these items lead from each to the next, and from the last back to the first: the
    /// shortest cycle through the first item that lies on one.
    Cycle(Names),
    /// Memory ran out. It says nothing of the plan.
    Memory,
}

impl From<Memory> for CompileFault {
    ghost from_gives = { λ _ fault. fault ≡ OutOfMemory };

    fn from(_fault: Memory) -> CompileFault {
        CompileFault::Memory
    }
}
