ghost use Rattle.std.specs.Prelude.{◌≡◌};

use crate::document::paths::Path;
use std::alloc::{AllocError, AllocFailed};
use tf_flow::PlanFault;
use tf_values::Memory;

/// Why a flow file makes no plan. A path tells where in the document the reason stands.
#[derive(Debug, Drop)]
pub enum FileFault {
    /// The bytes are no TOML document.
    NotToml,
    /// The first key, in byte order, that such a table hasn't.
    UnknownKey(Path),
    /// A key that such a table must have isn't there.
    MissingKey(Path),
    /// The value is of another kind than the key's.
    WrongKind(Path),
    /// A string, or a key, that should be a name is none.
    BadName(Path),
    /// A string isn't one of the words that may stand there.
    BadChoice(Path),
    /// A number is outside its range.
    BadNumber(Path),
    /// What should be a value is none.
    BadValue(Path),
    /// The flow breaks a rule of plans; it is never want of memory.
    Plan(PlanFault),
    /// Memory ran out. It says nothing of the file.
    Memory,
}

impl FileFault {
    ghost use Rattle.tf_files.specs.document.Reading.{is_memory as is_want_of_memory};

    /// Whether memory ran out.
    pub fn is_memory(&self) -> bool
        ensures { result ≡ is_want_of_memory self.now }
    {
        matches!(self, FileFault::Memory)
    }
}

impl From<Memory> for FileFault {
    ghost use Rattle.std.specs.Prelude.{◌≡◌};
    ghost use Rattle.tf_files.specs.declared.document.faults.FileFault.TheVariants.{Memory as OutOfMemory};

    ghost from_gives = { λ _ fault. fault ≡ OutOfMemory };

    fn from(_fault: Memory) -> FileFault {
        FileFault::Memory
    }
}

impl From<AllocError> for FileFault {
    ghost use Rattle.std.specs.Prelude.{◌≡◌};
    ghost use Rattle.tf_files.specs.declared.document.faults.FileFault.TheVariants.{Memory as OutOfMemory};

    ghost from_gives = { λ _ fault. fault ≡ OutOfMemory };

    fn from(_fault: AllocError) -> FileFault {
        FileFault::Memory
    }
}

impl<T: Drop> From<AllocFailed<T>> for FileFault {
    ghost use Rattle.std.specs.Prelude.{◌≡◌};
    ghost use Rattle.tf_files.specs.declared.document.faults.FileFault.TheVariants.{Memory as OutOfMemory};

    ghost from_gives = { λ _ fault. fault ≡ OutOfMemory };

    fn from(_fault: AllocFailed<T>) -> FileFault {
        FileFault::Memory
    }
}
