ghost use Rattle.std.specs.Prelude.{◌≡◌};
ghost use Rattle.tf_machine.specs.Faults.{build_gives, scope_gives};
ghost use Rattle.tf_machine.specs.declared.faults.BuildFault.TheVariants.{Memory as OutOfMemory};

use tf_order::CompileFault;
use tf_scopes::ScopeFault;
use tf_states::Entry;
use tf_values::Memory;

/// Why no machine is made.
#[derive(Debug, Drop)]
pub enum BuildFault {
    /// The plan doesn't compile.
    Compile(CompileFault),
    /// It compiles, and a symbol is missing.
    Scope(ScopeFault),
    /// Memory ran out. It says nothing of the plan.
    Memory,
}

impl From<Memory> for BuildFault {
    ghost from_gives = { λ _ fault. fault ≡ OutOfMemory };

    fn from(_fault: Memory) -> BuildFault {
        BuildFault::Memory
    }
}

/// Why an entry isn't applied. It comes back, and the machine is as it was.
#[derive(Debug, Drop)]
pub enum ApplyFault {
    /// The entry may not follow the history.
    NotAStep(Entry),
    /// Memory ran out. It says nothing of the entry.
    Memory(Entry),
}

impl From<CompileFault> for BuildFault {
    ghost from_gives = { build_gives };

    fn from(fault: CompileFault) -> BuildFault {
        match fault {
            CompileFault::Memory => BuildFault::Memory,
            CompileFault::Ambiguous {
                symbol,
                first,
                second,
            } => BuildFault::Compile(CompileFault::Ambiguous {
                symbol,
                first,
                second,
            }),
            CompileFault::Cycle(names) => BuildFault::Compile(CompileFault::Cycle(names)),
        }
    }
}

impl From<ScopeFault> for BuildFault {
    ghost from_gives = { scope_gives };

    fn from(fault: ScopeFault) -> BuildFault {
        match fault {
            ScopeFault::Memory => BuildFault::Memory,
            ScopeFault::Missing { atom, symbol } => {
                BuildFault::Scope(ScopeFault::Missing { atom, symbol })
            }
        }
    }
}
