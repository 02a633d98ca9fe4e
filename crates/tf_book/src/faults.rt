use tf_states::FlowState;

/// Why a book was halted: the disk failed, the output failed, the journal is full, of that size where `need`
/// bytes more were asked for, or memory ran out.
#[derive(Clone, Copy, Debug, PartialEq, Eq)]
pub enum Halt {
    Disk,
    Out,
    Full { size: u64, need: u64 },
    Memory,
}

/// Why a call of a book failed: for one of the causes that halt it, or since it was halted before, for that
/// cause.
#[derive(Clone, Copy, Debug, PartialEq, Eq)]
pub enum BookFault {
    Disk,
    Out,
    Full { size: u64, need: u64 },
    Memory,
    Halted(Halt),
}

/// Why a flow wasn't put back: it isn't reverted, or an atom isn't settled, and the flow is in that state; or the
/// book failed.
#[derive(Clone, Copy, Debug, PartialEq, Eq)]
pub enum ResetFault {
    Forbidden(FlowState),
    Book(BookFault),
}

impl From<Halt> for BookFault {
    ghost use Rattle.std.specs.Prelude.{◌≡◌};
    ghost use Rattle.tf_book.specs.Faults.{book_fault_of};

    ghost from_gives = { λ halt fault. fault ≡ book_fault_of halt };

    fn from(halt: Halt) -> BookFault {
        match halt {
            Halt::Disk => BookFault::Disk,
            Halt::Out => BookFault::Out,
            Halt::Full { size, need } => BookFault::Full { size, need },
            Halt::Memory => BookFault::Memory,
        }
    }
}
