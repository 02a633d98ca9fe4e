ghost use Rattle.std.specs.Prelude.{◌≡◌, ◌<◌, ◌+◌, ◌++◌, ◌∷◌, [], drop, vec_len, vec_capacity, List, true, false, length, IfOk};
ghost use Rattle.tf_journal.specs.Format.{length_bytes, IsBody, IsReady};
ghost use Rattle.tf_journal.specs.declared.title.Title.TheVariants.{Book2 as book_title};
ghost use Rattle.tf_states.specs.declared.record.Entry.{Entry as Record};
ghost use Rattle.tf_entries.specs.Entries.{entry_bytes, has_its_payload, HasItsPayload};
ghost use Rattle.tf_machine.specs.Machine.{outline, shown, StandsFor};
ghost use Rattle.tf_model.specs.Steps.{Step};
ghost use Rattle.tf_report.specs.Lines.{line as line_of};
ghost use Rattle.tf_model.specs.Plan.{outline_of};
ghost use Rattle.tf_details.specs.Elements.{IsForm, with_entries};
ghost use Rattle.tf_book.specs.Histories.{past_shown, HasEntryRoom, HasAllRoom, HasDraftRoom, HasWriteRoom};
ghost use Rattle.tf_book.specs.Book.{entry_body};
ghost use Rattle.tf_book.specs.Holding.{contents_of, HasHoldingRoom};
ghost use Rattle.tf_book.specs.SessionInvariant.{said_of, is_logged, Logged};
ghost use Rattle.tf_book.specs.Recording.{KeepsEntry, KeepsNothing, failed_after, contents_after};

use crate::faults::Halt;
use crate::history::History;
use crate::holding::Holding;
use crate::log::log;
use std::alloc::{AllocError, Global};
use tf_desk::Desk;
use tf_entries::{Head, encode_entry, put_head};
use tf_flow::Plan;
use tf_journal::Journal;
use tf_machine::Machine;
use tf_report::line;
use tf_states::Entry;

/// The greatest length of an entry's body.
const BODY_LIMIT: usize = 131_203;

/// The greatest length of an entry's line.
const LINE_LIMIT: usize = 1_048_576;

/// The body and the line of the entry that is recorded.
#[derive(Drop)]
pub struct Draft {
    pub body: Vec<u8>,
    pub line: Vec<u8>,
}

impl Draft {
    /// Nothing yet, with room for the body and the line of every entry.
    pub fn make(alloc: Global) -> Result<Draft, AllocError>
        ensures { IfOk result HasDraftRoom }
    {
        let body = Vec::with_capacity(alloc, BODY_LIMIT)?;
        let line = Vec::with_capacity(alloc, LINE_LIMIT)?;
        Ok(Draft { body, line })
    }
}

/// Makes the body of an entry of the detail of that number, and its line.
fn prepare(detail: u16, plan: &Plan, number: u64, entry: &Entry, draft: &mut Draft)
    requires hand { entry.now.hand < 64 }
    requires payload { has_its_payload entry.now.what ≡ true }
    requires room { HasDraftRoom draft.old }
    ensures body { draft.new.body.items ≡ entry_body detail entry.now }
    ensures form_is { drop 3 draft.new.body.items ≡ entry_bytes entry.now }
    ensures line { draft.new.line.items ≡ line_of (outline_of plan.now) number entry.now }
    ensures is_body { IsBody book_title draft.new.body.items }
    ensures form { HasItsPayload entry.now.what }
    ensures room { HasDraftRoom draft.new }
{
    draft.body.clear();
    draft.line.clear();
    let Ok(()) = put_head(Head::Entry(detail), &mut draft.body) else {
        unreachable!();
    };
    let Ok(()) = encode_entry(entry, &mut draft.body) else {
        unreachable!();
    };
    let Ok(()) = line(plan, number, entry, &mut draft.line) else {
        unreachable!();
    };
}

/// How many bytes stand in a body before the form of an entry.
const HEAD: usize = 3;

/// Keeps an entry that was recorded, which has this form.
fn keep(
    machine: &mut Machine,
    history: &mut History,
    holding: &mut Holding,
    entry: Entry,
    body: &[u8],
)
    requires allowed { Step (outline machine.old) (shown machine.old) entry }
    requires body { body.now ≡ entry_bytes entry }
    requires is_body { IsBody book_title body.now }
    requires room { HasEntryRoom history.old (length body.now) }
    requires holding { vec_len holding.old.marks < vec_capacity holding.old.marks }
    ensures plan { machine.new.plan ≡ machine.old.plan }
    ensures stands { (past : List Record) → StandsFor machine.old past → StandsFor machine.new (entry ∷ past) }
    ensures entries { past_shown history.new.entries.items ≡ entry ∷ past_shown history.old.entries.items }
    ensures bodies { history.new.bodies.items
        ≡ history.old.bodies.items ++ (length_bytes (length (entry_bytes entry)) ++ entry_bytes entry) }
    ensures all_room { HasAllRoom history.old → HasAllRoom history.new }
    ensures held { contents_of holding.new ≡ with_entries (contents_of holding.old) (entry ∷ []) }
    ensures number { holding.new.number ≡ holding.old.number }
    ensures holding_room { HasHoldingRoom holding.old → HasHoldingRoom holding.new }
{
    history.keep(&entry, body);
    holding.keep(&entry);
    machine.advance(entry);
}

/// Logs an entry that may follow: its body and its line are made; then the body is appended, the entry is kept,
/// and the line is said. It takes no memory: there is room for each. An entry that couldn't be appended is handed out.
#[tactic(auto, using(crate::proofs::PayloadLemmas::step_has_payload, crate::proofs::PayloadLemmas::step_has_hand, crate::proofs::HistoryLemmas::room_for, crate::proofs::HistoryLemmas::room_held))]
pub fn write<K: Desk>(
    journal: &mut Journal<K>,
    machine: &mut Machine,
    history: &mut History,
    holding: &mut Holding,
    draft: &mut Draft,
    failed: &mut Option<Entry>,
    quiet: bool,
    entry: Entry,
) -> Result<(), Halt>
    requires ready { IsReady K.state journal.old }
    requires sound { journal.old.halted ≡ false }
    requires title { journal.old.title ≡ book_title }
    requires allowed { Step (outline machine.old) (shown machine.old) entry }
    requires room { HasWriteRoom journal.old.size history.old holding.old draft.old }
    ensures room { HasAllRoom history.new }
    ensures holding_room { HasHoldingRoom holding.new }
    ensures number { holding.new.number ≡ holding.old.number }
    ensures held { contents_of holding.new ≡ contents_after entry (contents_of holding.old) result }
    ensures draft_room { HasDraftRoom draft.new }
    ensures logged { Logged K.state (entry_body holding.old.number entry)
        (said_of quiet (line_of (outline machine.old) (length history.old.entries.items + 1) entry))
        journal.old journal.new result }
    ensures plan { machine.new.plan ≡ machine.old.plan }
    ensures recorded { is_logged result ≡ true
        → KeepsEntry entry machine.old machine.new history.old history.new }
    ensures unrecorded { is_logged result ≡ false
        → KeepsNothing machine.old machine.new history.old history.new }
    ensures failed { failed.new ≡ failed_after entry failed.old result }
    ensures form { IsForm entry }
{
    let number = history.entries.len() as u64 + 1;
    prepare(holding.number, machine.plan(), number, &entry, draft);
    match log(journal, &draft.body, &draft.line, quiet) {
        Ok(()) => {
            keep(machine, history, holding, entry, &draft.body[HEAD..]);
            Ok(())
        }
        Err(Halt::Out) => {
            keep(machine, history, holding, entry, &draft.body[HEAD..]);
            Err(Halt::Out)
        }
        Err(Halt::Disk) => {
            *failed = Some(entry);
            Err(Halt::Disk)
        }
        Err(Halt::Full { size, need }) => {
            *failed = Some(entry);
            Err(Halt::Full { size, need })
        }
        Err(Halt::Memory) => unreachable!(),
    }
}
