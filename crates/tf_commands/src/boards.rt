//! How a command on a board is done.
ghost use Rattle.std.specs.Prelude.{IsTrue};
ghost use Rattle.tf_desk.specs.State.{told_as};
ghost use Rattle.tf_board.specs.Does.{Does};
ghost use Rattle.tf_commands.specs.Asking.{HasEachCause, counts_of};

use crate::running::Over;
use std::alloc::Global;
use tf_board::{BoardRequest, board_command};
use tf_desk::Desk;
use tf_values::Text;

/// Does what is asked of a board.
pub fn on_board<K: Desk>(alloc: Global, board: &Text, request: BoardRequest, desk: K) -> Over<K>
    ensures does { Does request board.now (told_as (K.state result.desk) (K.state desk))
        (K.state result.desk) result.status }
    ensures falls { IsTrue (K.state result.desk).tells → IsTrue (K.state desk).tells }
    ensures causes { HasEachCause result.status (counts_of (K.state desk) 0 0)
        (counts_of (K.state result.desk) 0 0) }
{
    let (desk, status) = board_command(alloc, board, request, desk);
    Over { desk, status }
}
