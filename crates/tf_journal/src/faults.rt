/// Why a journal wasn't made or read: the disk failed, the file is no journal, which the byte at that offset
/// shows or the file's end, the file is unborn, memory ran out, or the file has the title of a book of one flow
/// where a book of several was asked for. Each leaves the file as it was, but for a journal that wasn't made, whose
/// file is still unborn or a journal without a record.
#[derive(Clone, Copy, Debug, PartialEq, Eq)]
pub enum JournalFault {
    Disk,
    NotABook { offset: u64, byte: Option<u8> },
    Unborn,
    Memory,
    Old,
}

/// Why a file wasn't scanned: the disk failed, the file is no journal, which the byte at that offset shows or
/// the file's end, or it has the title of a book of one flow where a book of several was asked for.
#[derive(Clone, Copy, Debug, PartialEq, Eq)]
pub enum ScanFault {
    Disk,
    NotABook { offset: u64, byte: Option<u8> },
    Old,
}

/// Why a body wasn't appended: the disk failed, the journal is full, of that size where `need` bytes more
/// were asked for, or an earlier append found a disk fault.
#[derive(Clone, Copy, Debug, PartialEq, Eq)]
pub enum AppendFault {
    Disk,
    Full { size: u64, need: u64 },
    Halted,
}

/// Why a book or a board wasn't read, which is made where the file is unborn. `Old` comes only for a book of several
/// flows, where the file has the title of a book of one.
#[derive(Clone, Copy, Debug, PartialEq, Eq)]
pub enum LoadFault {
    Disk,
    NotABook { offset: u64, byte: Option<u8> },
    Memory,
    Old,
}
