use tf_board::{BoardFault, JobCall};

/// A call that was accepted, with the number of who made it and that of its job.
#[derive(Debug, Drop)]
pub struct Made {
    pub number: u8,
    pub job: u64,
    pub call: JobCall,
}

/// Why a shared board doesn't go on: the disk failed; the board is full, of that size where `need` bytes more were
/// asked for; or memory ran out.
#[derive(Clone, Copy, Debug, PartialEq, Eq)]
pub enum BoardHalt {
    Disk,
    Full { size: u64, need: u64 },
    Memory,
}

/// Why a call did nothing: it is refused, by `NoJob`, `Gone`, `Claimed` or `NotOwner`; or the shared board is halted.
#[derive(Debug, Drop)]
pub enum CallFault {
    Rule(BoardFault),
    Halted(BoardHalt),
}
