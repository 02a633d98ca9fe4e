//! The buffers of books that keep nothing, which serve one of them after another.
ghost use Rattle.std.specs.Prelude.{[]};
ghost use Rattle.tf_book.specs.Histories.{HasAllRoom, KeepsHistory};

use crate::history::History;
use std::alloc::{AllocError, Global};
use std::marker::Model;

/// The buffers that a book needs for every history that a journal can hold. Who runs many flows one after another takes
/// them once: to reserve them and to give them back costs more than a short run.
#[derive(Drop)]
pub struct Buffers {
    history: History,
}

impl Model for Buffers {
    ghost use Rattle.std.specs.Prelude.{[]};
    ghost use Rattle.tf_book.specs.Histories.{KeepsHistory};

    ghost Value = { Unit {0} };

    ghost view = { λ _. tt };

    ghost invariant = { λ r. KeepsHistory r.history [] };
}

impl Buffers {
    /// Takes the buffers. What is reserved isn't written: it costs addresses until it is used.
    pub fn make(alloc: Global) -> Result<Buffers, AllocError> {
        let history = History::with_room(alloc)?;
        Ok(Buffers { history })
    }

    /// The buffers of a history that is needed no more.
    pub(crate) fn of(history: History) -> Buffers
        requires room { HasAllRoom history }
    {
        let mut history = history;
        history.clear();
        Buffers { history }
    }

    /// The history, which has no entry yet.
    pub(crate) fn into_history(self) -> History
        ensures { KeepsHistory result [] }
    {
        let Buffers { history } = self;
        history
    }
}
