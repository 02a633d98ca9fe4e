//! How a command on a board opens it.
ghost use Rattle.std.specs.Prelude.{IsTrue};
ghost use Rattle.tf_desk.specs.State.{told_as};
ghost use Rattle.tf_board.specs.Board.{Opens, desk_loaded};

use crate::board::Board;
use std::alloc::Global;
use tf_desk::{Desk, DeskFault};
use tf_journal::LoadFault;
use tf_values::Text;

/// Picks the file of that name, and reads it as a board, or makes one of it where it is unborn. What is told of
/// the file is told as far as the desk tells after the call, and it tells then only where it told before.
pub fn open<K: Desk>(alloc: Global, mut desk: K, name: &Text) -> Result<Board<K>, (K, LoadFault)>
    ensures opens { Opens K.state name.now (told_as (K.state (desk_loaded result)) (K.state desk)) result }
    ensures falls { IsTrue (K.state (desk_loaded result)).tells → IsTrue (K.state desk).tells }
{
    match desk.pick(alloc, name) {
        Ok(()) => Board::load(alloc, desk),
        Err(DeskFault::Disk) => Err((desk, LoadFault::Disk)),
        Err(DeskFault::Memory) => Err((desk, LoadFault::Memory)),
        Err(DeskFault::Out) => unreachable!(),
    }
}
