ghost use Rattle.std.specs.Prelude.{◌≡◌, IfOk, IfErr};
ghost use Rattle.tf_details.specs.Elements.{AreEntriesOf};
ghost use Rattle.tf_machine.specs.Machine.{StandsFor};
ghost use Rattle.tf_model.specs.Plan.{outline_of};
ghost use Rattle.tf_book.specs.Book.{outline};
ghost use Rattle.tf_book.specs.Histories.{past_shown, framed_bodies};
ghost use Rattle.tf_book.specs.SessionInvariant.{history_text};

use super::Book;
use crate::history::History;
use crate::showing::append_lines;
use std::alloc::Global;
use tf_bound::attempts_are_counted;
use tf_desk::Desk;
use tf_machine::Machine;
use tf_report::table;
use tf_values::Memory;

/// The lines of a history and the table of a machine that stands for it.
fn whole_text(alloc: Global, machine: &Machine, history: History) -> Result<Vec<u8>, Memory>
    requires bodies { history.bodies.items ≡ framed_bodies (past_shown history.entries.items) }
    requires entries { AreEntriesOf machine.now.plan (past_shown history.entries.items) }
    requires stands { StandsFor machine.now (past_shown history.entries.items) }
    ensures { IfOk result (λ text. text.items
        ≡ history_text (outline_of machine.now.plan) (past_shown history.entries.items)) }
{
    attempts_are_counted();
    let mut text = Vec::new(alloc);
    append_lines(alloc, machine.plan(), &history, &mut text)?;
    // The bodies aren't kept beside the table.
    drop(history);
    table(
        machine.plan(),
        machine.flow_state(),
        machine.views(),
        &mut text,
    )?;
    Ok(text)
}

impl<K: Desk> Book<K> {
    /// The lines of the whole history, numbered from 1, and the table of this moment, with which the book is over; and
    /// the desk back, also where memory runs out.
    pub fn into_history_text(self) -> Result<(Vec<u8>, K), (K, Memory)>
        ensures text { IfOk result (λ told. told.0.items ≡ history_text (outline self) self.past) }
        ensures desk { IfOk result (λ told. told.1 ≡ self.journal.desk) }
        ensures back { IfErr result (λ back. back.0 ≡ self.journal.desk) }
    {
        let Book {
            alloc,
            journal,
            machine,
            history,
            holding: _,
            draft: _,
            quiet: _,
            halt: _,
            failed: _,
            limit: _,
        } = self;
        match whole_text(alloc, &machine, history) {
            Ok(text) => Ok((text, journal.into_desk())),
            Err(fault) => Err((journal.into_desk(), fault)),
        }
    }
}
