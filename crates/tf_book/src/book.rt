ghost use Rattle.std.specs.Prelude.{◌≡◌, ◌<◌, ◌≤◌, ◌-◌, None, Some, OnOk, IsErrOf};
ghost use Rattle.tf_model.specs.Steps.{Step};
ghost use Rattle.tf_book.specs.Book.{outline, moment};
ghost use Rattle.tf_book.specs.SessionInvariant.{Proceeds};
ghost use Rattle.tf_book.specs.Recording.{halt_after, failed_after, past_after, contents_after};

mod closing;
mod entering;
mod parts;
mod reading;
mod resetting;
mod showing;
mod turning;

use crate::faults::Halt;
use crate::history::History;
use crate::holding::Holding;
use crate::writing::{Draft, write};
use std::alloc::Global;
use std::marker::Model;
use tf_desk::Desk;
use tf_journal::Journal;
use tf_machine::Machine;
use tf_states::Entry;

/// A run of a plan, recorded in a journal entry by entry, which is a detail of what the journal holds. Contracts see
/// its plan, its history, what its file holds, its journal with the desk, whether it says no lines, why it was halted,
/// if it was, the entry that couldn't be recorded then, and where its session is to be suspended, if it has a limit.
#[derive(Drop)]
pub struct Book<K: Desk> {
    pub(crate) alloc: Global,
    pub(crate) journal: Journal<K>,
    pub(crate) machine: Machine,
    pub(crate) history: History,
    pub(crate) holding: Holding,
    pub(crate) draft: Draft,
    pub(crate) quiet: bool,
    pub(crate) halt: Option<Halt>,
    pub(crate) failed: Option<Entry>,
    pub(crate) limit: Option<u64>,
}

impl<K: Desk> Model for Book<K> {
    ghost use Rattle.std.specs.Coded.{codes};
    ghost use Rattle.tf_flow.specs.contracts.nested.Flow as flow;
    ghost use Rattle.tf_book.specs.Histories.{past_shown, HasAllRoom, HasDraftRoom};
    ghost use Rattle.tf_book.specs.Book.{BookValue};
    ghost use Rattle.tf_book.specs.Holding.{contents_of, HasHoldingRoom};
    ghost use Rattle.tf_book.specs.Sound.{IsSoundBook};

    ghost Value = { BookValue K };

    ghost coded = { Prim.hlevel (codes, flow.the_row.coded) };

    ghost view = { λ b. record {
      plan = b.machine.plan;
      past = past_shown b.history.entries.items;
      contents = contents_of b.holding;
      journal = b.journal;
      quiet = b.quiet;
      halt = b.halt;
      failed = b.failed;
      limit = b.limit;
    } };

    ghost invariant = { λ b. HasAllRoom b.history × HasDraftRoom b.draft × HasHoldingRoom b.holding
        × IsSoundBook K.state b.machine b.history.bodies.items (record {
          plan = b.machine.plan;
          past = past_shown b.history.entries.items;
          contents = contents_of b.holding;
          journal = b.journal;
          quiet = b.quiet;
          halt = b.halt;
          failed = b.failed;
          limit = b.limit;
        }) };
}

impl<K: Desk> Book<K> {
    /// Logs an entry that may follow, and says its line, unless the book is quiet. Where that fails the book
    /// is halted.
    fn record(&mut self, entry: Entry) -> Result<(), Halt>
        requires sound { self.old.halt ≡ None }
        requires allowed { Step (outline self.old) (moment self.old) entry }
        ensures proceeds { Proceeds K.state self.old self.new }
        ensures same { self.new ≡ record self.old {
          past = past_after entry self.old.past result;
          contents = contents_after entry self.old.contents result;
          journal = self.new.journal;
          halt = halt_after result;
          failed = failed_after entry self.old.failed result;
        } }
        ensures no_memory { IsErrOf result Halt.Memory → ⊥ }
        ensures less { OnOk result (67108864 - self.new.journal.size < 67108864 - self.old.journal.size) }
        ensures no_more { 67108864 - self.new.journal.size ≤ 67108864 - self.old.journal.size }
    {
        match write(
            &mut self.journal,
            &mut self.machine,
            &mut self.history,
            &mut self.holding,
            &mut self.draft,
            &mut self.failed,
            self.quiet,
            entry,
        ) {
            Ok(()) => Ok(()),
            Err(halt) => {
                self.halt = Some(halt);
                Err(halt)
            }
        }
    }
}
