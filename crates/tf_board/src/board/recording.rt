ghost use Rattle.std.specs.Prelude.{◌≡◌, None};
ghost use Rattle.tf_board.specs.Board.{IsCommand, refuses, IsChange};
ghost use Rattle.tf_board.specs.Does.{Records};

use super::Board;
use crate::commands::{Command, append_command};
use crate::faults::BoardFault;
use crate::kept::Change;
use tf_desk::Desk;
use tf_journal::AppendFault;

impl<K: Desk> Board<K> {
    /// Records a command that isn't refused: the room for it is made, it is appended, and then it is kept.
    pub(super) fn record(&mut self, command: Command, change: Change) -> Result<(), BoardFault>
        requires allowed { refuses self.old.past command ≡ None }
        requires change { IsChange self.old.past command change }
        ensures { Records K.state self.old self.new command result }
    {
        let mut body = Vec::new(self.alloc);
        let Ok(()) = append_command(&command, &mut body) else {
            return Err(BoardFault::Memory);
        };
        let Ok(()) = self.kept.reserve() else {
            return Err(BoardFault::Memory);
        };
        match self.journal.append(&body) {
            Ok(()) => {
                self.kept.keep(command, change);
                Ok(())
            }
            Err(AppendFault::Disk) => Err(BoardFault::Disk),
            Err(AppendFault::Full { size, need }) => Err(BoardFault::Full { size, need }),
            Err(AppendFault::Halted) => Err(BoardFault::Halted),
        }
    }
}
