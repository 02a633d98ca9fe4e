ghost use Rattle.std.specs.Prelude.{◌≡◌};
ghost use Rattle.tf_wire.specs.declared.faults.WireFault.TheVariants.{Memory as OutOfMemory};

use std::alloc::{AllocError, AllocFailed};
use tf_values::Memory;

/// Why bytes are no frame or message.
#[derive(Clone, Copy, Debug, PartialEq, Eq)]
pub enum WireFault {
    /// The frame that begins at this place of the stream is refused; a place past the greatest number of 64
    /// bits counts as that number.
    Bad { at: u64 },
    /// Memory ran out. It says nothing of the bytes.
    Memory,
}

impl From<Memory> for WireFault {
    ghost from_gives = { λ _ fault. fault ≡ OutOfMemory };

    fn from(_fault: Memory) -> WireFault {
        WireFault::Memory
    }
}

impl From<AllocError> for WireFault {
    ghost from_gives = { λ _ fault. fault ≡ OutOfMemory };

    fn from(_fault: AllocError) -> WireFault {
        WireFault::Memory
    }
}

impl<T: Drop> From<AllocFailed<T>> for WireFault {
    ghost from_gives = { λ _ fault. fault ≡ OutOfMemory };

    fn from(_fault: AllocFailed<T>) -> WireFault {
        WireFault::Memory
    }
}
