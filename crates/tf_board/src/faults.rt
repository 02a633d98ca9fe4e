use tf_values::{Name, Text};

/// Why a call of a board did nothing: no job has the id, whose text it is; its job is gone; somebody has it; the owner
/// hasn't, but perhaps somebody else; the disk failed; the board is full, of that size where `need` bytes more were
/// asked for; an earlier call found a disk fault; or memory ran out.
#[derive(Debug, Drop)]
pub enum BoardFault {
    NoJob(Text),
    Gone(Text),
    Claimed(Name),
    NotOwner(Option<Name>),
    Disk,
    Full { size: u64, need: u64 },
    Halted,
    Memory,
}
