//! How a board's commands are read back from its journal.
ghost use Rattle.std.specs.Prelude.{◌≡◌, ◌++◌, ◌∷◌, [], ℕ, List, false, OnOk, IfOk, IfErr, IsErrOf};
ghost use Rattle.tf_journal.specs.Reading.{OnlyReads};
ghost use Rattle.tf_journal.specs.declared.title.Title.TheVariants.{Jobs as jobs_title};
ghost use Rattle.tf_records.specs.Replaying.{FailsToReadBack};
ghost use Rattle.tf_board.specs.Board.{IsRefusedCommand};
ghost use Rattle.tf_board.specs.Reading.{HasReadCommands, HasReadBoard};

use crate::bodies::decode_command;
use crate::kept::Kept;
use std::alloc::Global;
use tf_desk::Desk;
use tf_journal::{Journal, LoadFault};
use tf_records::{Replay, read_back};
use tf_values::MakeFault;

impl Replay for Kept {
    ghost use Rattle.tf_board.specs.Board.{IsRefusedCommand};
    ghost use Rattle.tf_board.specs.Reading.{HasReadCommands};

    ghost replayed = { HasReadCommands };

    ghost refuses = { IsRefusedCommand };

    /// Reads a command of these bytes, which isn't refused after those that are kept, and keeps it. `No` comes where
    /// no such command has them.
    fn replay(&mut self, alloc: Global, body: &[u8]) -> Result<(), MakeFault> {
        let command = decode_command(alloc, body)?;
        match self.change_of(alloc, &command) {
            Ok(Some(change)) => {
                self.reserve()?;
                self.keep(command, change);
                Ok(())
            }
            Ok(None) => Err(MakeFault::No),
            Err(_) => Err(MakeFault::Memory),
        }
    }
}

/// Reads the commands of a journal.
pub fn read_commands<K: Desk>(alloc: Global, journal: &mut Journal<K>) -> Result<Kept, LoadFault>
    requires in_file { journal.old.volatile ≡ false }
    requires title { journal.old.title ≡ jobs_title }
    ensures read { IfOk result (λ kept. HasReadBoard K.state journal.old journal.new.desk kept) }
    ensures fails { IfErr result (λ fault. FailsToReadBack K.state IsRefusedCommand
        fault journal.old journal.new.desk) }
    ensures reads { OnlyReads K.state journal.old journal.new }
{
    let mut kept = Kept::none(alloc);
    match read_back(alloc, journal, &mut kept) {
        Ok(()) => Ok(kept),
        Err(fault) => {
            drop(kept);
            Err(fault)
        }
    }
}
