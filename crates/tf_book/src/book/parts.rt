ghost use Rattle.std.specs.Prelude.{◌≡◌, [], None, false, IsTrue, length};
ghost use Rattle.tf_desk.specs.State.{bytes_now, IsDurable};
ghost use Rattle.tf_journal.specs.Format.{LiesAs};
ghost use Rattle.tf_journal.specs.declared.title.Title.TheVariants.{Book2 as book_title};
ghost use Rattle.tf_machine.specs.Machine.{StandsFor};
ghost use Rattle.tf_book.specs.Book.{bodies_with, size_of};

use super::Book;
use crate::buffers::Buffers;
use crate::faults::Halt;
use tf_desk::Desk;
use tf_machine::Machine;

impl<K: Desk> Book<K> {
    /// How many entries the history has.
    #[tactic(auto, using(crate::proofs::HistoryLemmas::past_long))]
    pub fn count(&self) -> u64
        ensures { result ≡ length self.now.past }
    {
        self.history.entries.len() as u64
    }

    /// Why the book was halted first, if it was.
    pub fn halted(&self) -> Option<Halt>
        ensures { result ≡ self.now.halt }
    {
        self.halt
    }

    /// The machine, which stands for the history.
    pub fn machine(&self) -> &Machine
        ensures plan { result.now.plan ≡ self.now.plan }
        ensures stands { StandsFor result.now self.now.past }
    {
        &self.machine
    }

    /// The buffers of the book, whose run is over, for another one.
    pub fn into_buffers(self) -> Buffers {
        let Book {
            alloc: _,
            journal: _,
            machine: _,
            history,
            holding: _,
            draft: _,
            quiet: _,
            halt: _,
            failed: _,
            limit: _,
        } = self;
        Buffers::of(history)
    }

    /// The desk back. Where the book wasn't halted and the desk tells its content, the file has what the book says, and a
    /// crash now leaves nothing else.
    pub fn close(self) -> K
        ensures desk { result ≡ self.journal.desk }
        ensures file { self.halt ≡ None → IsTrue (K.state self.journal.desk).tells → self.journal.volatile ≡ false
            → LiesAs book_title (bodies_with self.contents []) (size_of self.contents)
            (bytes_now (K.state result)) }
        ensures durable { self.halt ≡ None → IsTrue (K.state self.journal.desk).tells → self.journal.volatile ≡ false
            → IsDurable (K.state result) }
    {
        let Book {
            alloc: _,
            journal,
            machine: _,
            history: _,
            holding: _,
            draft: _,
            quiet: _,
            halt: _,
            failed: _,
            limit: _,
        } = self;
        journal.into_desk()
    }
}
