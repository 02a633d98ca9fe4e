ghost use Rattle.std.specs.Prelude.{◌≡◌};

use crate::kept::Kept;
use std::alloc::Global;
use std::marker::Model;
use tf_desk::Desk;
use tf_journal::Journal;
use tf_values::Name;

mod acting;
mod listing;
mod loading;
mod recording;
mod seeking;

pub(crate) use acting::fault_of;

/// Who has a job: no job has the id, it is gone, nobody has it, or an owner has it.
#[derive(Clone, Copy, Debug)]
pub enum Owner {
    NoJob,
    Gone,
    Free,
    Of(Name),
}

/// The jobs of a file, to which commands are recorded one by one. Contracts see its accepted commands, the newest
/// first, and its journal with the desk.
#[derive(Drop)]
pub struct Board<K: Desk> {
    alloc: Global,
    journal: Journal<K>,
    kept: Kept,
}

impl<K: Desk> Model for Board<K> {
    ghost use Rattle.tf_board.specs.Board.{BoardValue, IsSound, past_in};

    ghost Value = { BoardValue K };

    ghost view = { λ b. record { past = past_in b.kept; journal = b.journal } };

    ghost invariant = { λ b. IsSound K.state b.kept (record { past = past_in b.kept; journal = b.journal }) };
}

impl<K: Desk> Board<K> {
    /// The desk back.
    pub fn close(self) -> K
        ensures { result ≡ self.journal.desk }
    {
        let Board {
            alloc: _,
            journal,
            kept,
        } = self;
        drop(kept);
        journal.into_desk()
    }
}
