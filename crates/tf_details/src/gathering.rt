//! How a book is read: its elements are marked, a machine is made for each detail, and the history of one is gathered.
ghost use Rattle.std.specs.Prelude.{◌≡◌, ◌<◌, ◌≤◌, ◌∷◌, [], ℕ, vec_capacity, List, length, nat_eq, if◌then◌else◌, OnOk, IfOk, IsErrOf};
ghost use Rattle.tf_states.specs.declared.record.Entry.{Entry as Record};
ghost use Rattle.tf_entries.specs.Entries.{entry_bytes};
ghost use Rattle.tf_details.specs.Elements.{Element, IsNoDetail, IsNoEntry};
ghost use Rattle.tf_details.specs.Marks.{element_of};
ghost use Rattle.tf_details.specs.Reading.{elements_in, AreMachinesOf, IsReadEntry, HasTaken, HasGathered, HasGatheredDetail, HasGatheredEntry};

use crate::details::Details;
use crate::marks::Mark;
use crate::reading::{read_plan, split};
use std::alloc::{AllocError, Global};
use std::snapshot::Snapshot;
use tf_entries::{Head, entry_has_one_form};
use tf_records::Replay;
use tf_states::Entry;
use tf_values::{MakeFault, Memory};

/// The greatest size of a journal: a book has fewer elements.
const SIZE_LIMIT: usize = 67_108_864;

/// What keeps a history that is read entry by entry.
pub trait Keeps: Drop {
    /// It keeps just these entries, the newest first.
    ghost keeps: { Self → List Record → Type 0 };

    /// Keeps one entry more, of which these bytes are the form. After want of memory nothing is said of the value.
    fn keep(&mut self, entry: &Entry, form: &[u8]) -> Result<(), Memory>
        requires form { entry_bytes entry.now ≡ form.now }
        requires some { 1 ≤ length form.now }
        requires short { length form.now ≤ 131200 }
        ensures { OnOk result ((past : List Record) → keeps self.old past → keeps self.new (entry.now ∷ past)) };
}

/// A book as far as it was read: its details, its elements as clauses see them, and what keeps the history of the
/// detail with that number.
#[derive(Drop)]
pub struct Gathering<H: Keeps> {
    pub details: Details,
    pub marks: Vec<Snapshot<Mark>>,
    pub number: u16,
    pub kept: H,
}

impl<H: Keeps> Gathering<H> {
    /// Nothing was read yet. There is room for the marks of every book, which take no bytes.
    pub fn begin(alloc: Global, number: u16, kept: H) -> Result<Gathering<H>, AllocError>
        requires none { H.keeps kept [] }
        ensures number { IfOk result (λ gathering. gathering.number ≡ number) }
        ensures gathered { IfOk result (λ gathering. HasGathered H.keeps gathering []) }
    {
        let marks = Vec::with_capacity(alloc, SIZE_LIMIT)?;
        Ok(Gathering {
            details: Details::none(alloc),
            marks,
            number,
            kept,
        })
    }

    /// Reads the plan of a new detail of these bytes, and marks it. `No` comes where they are the form of no plan that can
    /// run, or where no such detail may begin.
    fn read_detail(&mut self, alloc: Global, form: &[u8]) -> Result<(), MakeFault>
        ensures read { OnOk result (HasGatheredDetail self.old self.new form.now) }
        ensures refused { IsErrOf result MakeFault.No → (book : List Element) → AreMachinesOf self.old.details book
            → IsNoDetail book form.now }
    {
        let machine = read_plan(alloc, form)?;
        let mark = Mark::Detail(Snapshot::of(machine.plan()));
        self.details.add(machine)?;
        match self.note(&mark) {
            Ok(()) => Ok(()),
            Err(_) => Err(MakeFault::Memory),
        }
    }

    /// Marks an element behind the others.
    fn note(&mut self, mark: &Mark) -> Result<(), Memory>
        ensures marked { OnOk result (elements_in self.new ≡ element_of mark.now ∷ elements_in self.old) }
        ensures same { self.new ≡ record self.old { marks = self.new.marks } }
        ensures room { vec_capacity self.old.marks ≤ vec_capacity self.new.marks }
    {
        self.marks.push(Snapshot::of(mark))?;
        Ok(())
    }

    /// Keeps an entry of the detail with that number, if its history is the one that is gathered.
    fn keep_of(&mut self, number: u16, entry: &Entry, form: &[u8]) -> Result<(), Memory>
        requires form { entry_bytes entry.now ≡ form.now }
        requires some { 1 ≤ length form.now }
        requires short { length form.now ≤ 131200 }
        ensures same { self.new ≡ record self.old { kept = self.new.kept } }
        ensures kept { OnOk result ((past : List Record) → H.keeps self.old.kept past
            → H.keeps self.new.kept (if nat_eq number self.old.number then entry.now ∷ past else past)) }
    {
        if number != self.number {
            return Ok(());
        }
        self.kept.keep(entry, form)
    }

    /// Appends an entry to the history of a detail, and marks it. `No` comes where it may not follow.
    fn take(
        &mut self,
        alloc: Global,
        number: u16,
        entry: Entry,
        mark: &Mark,
    ) -> Result<(), MakeFault>
        requires within { number < length self.old.details }
        ensures taken { OnOk result (HasTaken self.old.details self.new.details number entry) }
        ensures marked { OnOk result (elements_in self.new ≡ element_of mark.now ∷ elements_in self.old) }
        ensures room { OnOk result (vec_capacity self.old.marks ≤ vec_capacity self.new.marks) }
        ensures number { self.new.number ≡ self.old.number }
        ensures kept { self.new.kept ≡ self.old.kept }
        ensures refused { IsErrOf result MakeFault.No → (book : List Element) → (form : List ℕ)
            → AreMachinesOf self.old.details book → IsReadEntry self.old.details number form entry
            → IsNoEntry book number form }
    {
        match self.note(mark) {
            Ok(()) => self.details.take(alloc, number, entry),
            Err(_) => Err(MakeFault::Memory),
        }
    }

    /// Reads an entry of the detail with that number, and marks it. `No` comes where there is no such detail, or where the
    /// bytes are the form of no entry that may follow its history.
    fn read_entry(&mut self, alloc: Global, number: u16, form: &[u8]) -> Result<(), MakeFault>
        ensures read { OnOk result (HasGatheredEntry H.keeps self.old self.new number form.now) }
        ensures refused { IsErrOf result MakeFault.No → (book : List Element) → AreMachinesOf self.old.details book
            → IsNoEntry book number form.now }
    {
        entry_has_one_form();
        let entry = self.details.decode(alloc, number, form)?;
        let mark = Mark::Entry(number, Snapshot::of(&entry));
        match self.keep_of(number, &entry, form) {
            Ok(()) => self.take(alloc, number, entry, &mark),
            Err(_) => Err(MakeFault::Memory),
        }
    }
}

impl<H: Keeps> Replay for Gathering<H> {
    ghost use Rattle.tf_details.specs.Elements.{CannotFollow};
    ghost use Rattle.tf_details.specs.Reading.{HasGathered};

    ghost replayed = { HasGathered H.keeps };

    ghost refuses = { CannotFollow };

    ghost fixed = { λ gathering. gathering.number };

    /// Reads an element, which may stand after those that were read, and keeps it where it is an entry of the history
    /// that is gathered. `No` comes where the body is that of no such element.
    fn replay(&mut self, alloc: Global, body: &[u8]) -> Result<(), MakeFault> {
        match split(body) {
            None => Err(MakeFault::No),
            Some((Head::Detail, form)) => self.read_detail(alloc, form),
            Some((Head::Entry(number), form)) => self.read_entry(alloc, number, form),
        }
    }
}
