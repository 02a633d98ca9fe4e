ghost use Rattle.std.specs.Prelude.{◌≡◌};
ghost use Rattle.tf_scopes.specs.declared.faults.ScopeFault.TheVariants.{Memory as OutOfMemory};

use tf_values::{Memory, Name};

/// Why no providers are told.
#[derive(Debug, Drop)]
pub enum ScopeFault {
    /// The symbol of an argument of this atom has no inject, no value in the store and no atom of the
    /// atom's scope that lists it. It is the first such argument of the first such atom in tree order.
    Missing { atom: Name, symbol: Name },
    /// Memory ran out. It says nothing of the plan.
    Memory,
}

impl From<Memory> for ScopeFault {
    ghost from_gives = { λ _ fault. fault ≡ OutOfMemory };

    fn from(_fault: Memory) -> ScopeFault {
        ScopeFault::Memory
    }
}
