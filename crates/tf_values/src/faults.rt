ghost use Rattle.std.specs.Prelude.{◌≡◌};
ghost use Rattle.tf_values.specs.declared.faults.MakeFault.TheVariants.{Memory as OutOfMemory};

use std::alloc::{AllocError, AllocFailed};

/// Want of memory. A call that answers it leaves everything as it was, unless it says otherwise.
#[derive(Clone, Copy, Debug, PartialEq, Eq)]
pub struct Memory;

impl From<AllocError> for Memory {
    fn from(_fault: AllocError) -> Memory {
        Memory
    }
}

impl<T: Drop> From<AllocFailed<T>> for Memory {
    fn from(_fault: AllocFailed<T>) -> Memory {
        Memory
    }
}

/// Why bytes made no value: they spell none (`No`), or memory ran out.
#[derive(Clone, Copy, Debug, PartialEq, Eq)]
pub enum MakeFault {
    No,
    Memory,
}

impl From<AllocError> for MakeFault {
    ghost from_gives = { λ _ fault. fault ≡ OutOfMemory };

    fn from(_fault: AllocError) -> MakeFault {
        MakeFault::Memory
    }
}

impl<T: Drop> From<AllocFailed<T>> for MakeFault {
    ghost from_gives = { λ _ fault. fault ≡ OutOfMemory };

    fn from(_fault: AllocFailed<T>) -> MakeFault {
        MakeFault::Memory
    }
}
