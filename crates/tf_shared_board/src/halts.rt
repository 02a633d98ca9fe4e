// What a command says of a halt of the board, and the status that tells it.
ghost use Rattle.std.specs.Prelude.{◌≡◌, ◌++◌, OnOk};
ghost use Rattle.tf_shared_board.specs.Shared.{halt_status as status_of_halt, halt_text};

use crate::calls::BoardHalt;
use tf_report::{
    DISK_FAILED, DISK_FAULT, FULL, OUT_OF_MEMORY, SUCCEEDED, append, append_book_full,
};
use tf_values::Memory;

/// Appends why a board doesn't go on, if it doesn't; of want of memory it appends nothing.
pub fn append_halt(halt: Option<BoardHalt>, out: &mut Vec<u8>) -> Result<(), Memory>
    ensures { OnOk result (out.new.items ≡ out.old.items ++ halt_text halt) }
{
    match halt {
        None | Some(BoardHalt::Memory) => Ok(()),
        Some(BoardHalt::Disk) => append(DISK_FAULT, out),
        Some(BoardHalt::Full { size, need }) => append_book_full(size, need, out),
    }
}

/// The status that tells why a board doesn't go on, or that it does.
pub fn halt_status(halt: Option<BoardHalt>) -> u8
    ensures { result ≡ status_of_halt halt }
{
    match halt {
        None => SUCCEEDED,
        Some(BoardHalt::Disk) => DISK_FAILED,
        Some(BoardHalt::Full { .. }) => FULL,
        Some(BoardHalt::Memory) => OUT_OF_MEMORY,
    }
}
