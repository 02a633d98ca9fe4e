ghost use Rattle.std.specs.Prelude.{◌≡◌, ◌≢◌, ◌⊎◌, [], List, length, true, false, IfOk, IfErr, IsTrue};
ghost use Rattle.tf_desk.specs.State.{bytes_now, anything, Trusts, Passes, GoesOn};
ghost use Rattle.tf_details.specs.Elements.{Element};
ghost use Rattle.tf_entries.specs.Plans.{IsPlan};
ghost use Rattle.tf_journal.specs.Format.{desk_after, IsOpen, IsBody, LeavesBirth, is_unborn};
ghost use Rattle.tf_journal.specs.declared.title.Title.TheVariants.{Book2 as book_title};
ghost use Rattle.tf_machine.specs.Machine.{StandsFor};
ghost use Rattle.tf_book.specs.SessionInvariant.{IsExact};
ghost use Rattle.tf_book.specs.Shelf.{desk_at, desk_of, is_volatile, IsPlaced, IsTold, HoldsElements};
ghost use Rattle.tf_book.specs.Starting.{desk_started, IsBegun, LeavesAdded, LeavesBegun, EndsThere, AddsTo, FailsToAdd, FailsToStart};
ghost use Rattle.tf_book.specs.Book.{detail_body, HasPlaceFor};
ghost use Rattle.tf_book.specs.declared.shelf.Place.TheVariants as place;

use super::{Place, Shelf};
use crate::book::Book;
use crate::faults::BookFault;
use crate::holding::Holding;
use crate::writing::Draft;
use std::alloc::Global;
use tf_desk::Desk;
use tf_details::Gathering;
use tf_entries::{Head, encode_plan, put_head};
use tf_flow::Plan;
use tf_journal::{AppendFault, Journal, JournalFault, Title};
use tf_machine::Machine;
use tf_values::Memory;

/// The body of a new detail.
fn detail(alloc: Global, plan: &Plan) -> Result<Vec<u8>, Memory>
    ensures body { IfOk result (λ body. body.items ≡ detail_body plan.now) }
    ensures is_body { IfOk result (λ body. IsBody book_title body.items) }
    ensures is_plan { IfOk result (λ body. IsPlan plan.now) }
{
    let mut body = Vec::new(alloc);
    put_head(Head::Detail, &mut body)?;
    encode_plan(plan, &mut body)?;
    Ok(body)
}

/// Adds a body to a journal of these elements.
fn append<K: Desk>(mut journal: Journal<K>, body: &[u8]) -> Result<Journal<K>, (K, BookFault)>
    requires holds { (elements : List Element) × HoldsElements K.state journal elements }
    requires is_body { IsBody book_title body.now }
    ensures adds { IfOk result (λ after. (elements : List Element) → HoldsElements K.state journal elements
        → AddsTo K.state (place.Kept journal) elements body.now after) }
    ensures crash { (elements : List Element) → HoldsElements K.state journal elements → IsOpen K.state journal
        → Passes (LeavesAdded (place.Kept journal) elements body.now (K.state journal.desk).shown)
        (K.state journal.desk) (K.state (desk_after result)) }
    ensures goes { GoesOn anything (K.state journal.desk) (K.state (desk_after result)) }
    ensures fails { IfErr result (λ back. (elements : List Element) → HoldsElements K.state journal elements
        → FailsToAdd K.state elements body.now back.1 journal.desk back.0) }
    ensures no_memory { IfErr result (λ back. back.1 ≢ BookFault.Memory) }
    ensures volatile { journal.volatile ≡ true → desk_after result ≡ journal.desk }
{
    match journal.append(body) {
        Ok(()) => Ok(journal),
        Err(AppendFault::Disk) => Err((journal.into_desk(), BookFault::Disk)),
        Err(AppendFault::Full { size, need }) => {
            Err((journal.into_desk(), BookFault::Full { size, need }))
        }
        Err(AppendFault::Halted) => unreachable!(),
    }
}

/// Makes a journal without a record in an unborn file.
fn create<K: Desk>(alloc: Global, desk: K) -> Result<Journal<K>, (K, BookFault)>
    requires unborn { IsTrue (K.state desk).tells → is_unborn book_title (bytes_now (K.state desk)) ≡ true }
    ensures made { IfOk result (λ journal. HoldsElements K.state journal []) }
    ensures kept { IfOk result (λ journal. journal.volatile ≡ false) }
    ensures exact { IfOk result (λ journal. EndsThere K.state (place.Unborn desk)
        → IsTrue (K.state journal.desk).tells → length (bytes_now (K.state journal.desk)) ≡ 18) }
    ensures goes { Trusts (GoesOn (LeavesBirth book_title (K.state desk).shown))
        (K.state desk) (K.state (desk_after result)) }
    ensures fails { IfErr result (λ back. FailsToAdd K.state [] [] back.1 desk back.0) }
    ensures not_full { IfErr result (λ back. (back.1 ≡ BookFault.Disk) ⊎ (back.1 ≡ BookFault.Memory)) }
{
    match Journal::create(alloc, desk, Title::Book2) {
        Ok(journal) => Ok(journal),
        Err((desk, JournalFault::Disk)) => Err((desk, BookFault::Disk)),
        Err((desk, _)) => Err((desk, BookFault::Memory)),
    }
}

/// Adds a body to the elements, in an unborn file as the first one.
fn add<K: Desk>(alloc: Global, place: Place<K>, body: &[u8]) -> Result<Journal<K>, (K, BookFault)>
    requires placed { (elements : List Element) × IsPlaced K.state place elements }
    requires is_body { IsBody book_title body.now }
    ensures adds { IfOk result (λ after. (elements : List Element) → IsPlaced K.state place elements
        → AddsTo K.state place elements body.now after) }
    ensures crash { (elements : List Element) → IsPlaced K.state place elements → IsTold K.state place
        → IsTrue (K.state (desk_after result)).tells
        → Passes (LeavesAdded place elements body.now (K.state (desk_at place)).shown)
        (K.state (desk_at place)) (K.state (desk_after result)) }
    ensures goes { Trusts (GoesOn anything) (K.state (desk_at place)) (K.state (desk_after result)) }
    ensures fails { IfErr result (λ back. (elements : List Element) → IsPlaced K.state place elements
        → FailsToAdd K.state elements body.now back.1 (desk_at place) back.0) }
    ensures volatile { is_volatile place ≡ true → desk_after result ≡ desk_at place }
{
    match place {
        Place::Kept(journal) => append(journal, body),
        Place::Unborn(desk) => match create(alloc, desk) {
            Ok(journal) => append(journal, body),
            Err(back) => Err(back),
        },
    }
}

impl<K: Desk> Shelf<K> {
    /// Begins a new detail of a machine's plan, whose number is the count of the details before it; there have to be
    /// fewer than 64, and none with the name of its root flow. In a file that is unborn the journal is made first. A crash
    /// inside leaves what the file held, in an unborn file also a book without a detail, or the new detail behind it. `Err` is `Disk`,
    /// `Memory`, or `Full` by its numbers, and hands the desk back; after `Memory` and `Full` nothing was done.
    pub fn start(self, machine: Machine, quiet: bool) -> Result<Book<K>, (K, BookFault)>
        requires place { HasPlaceFor self.elements machine.plan }
        requires fresh { StandsFor machine [] }
        ensures begun { IfOk result (IsBegun self machine.plan quiet) }
        ensures exact { IfOk result (λ book. EndsThere K.state self.place
            → IsTrue (K.state book.journal.desk).tells → IsExact (K.state book.journal.desk) book.contents) }
        ensures crash { IsTold K.state self.place → IsTrue (K.state (desk_started result)).tells
            → Passes (LeavesBegun self machine.plan (K.state (desk_of self)).shown)
            (K.state (desk_of self)) (K.state (desk_started result)) }
        ensures goes { Trusts (GoesOn anything) (K.state (desk_of self)) (K.state (desk_started result)) }
        ensures fails { IfErr result (λ back. FailsToStart K.state self machine.plan back.1 (desk_of self) back.0) }
        ensures volatile { is_volatile self.place ≡ true → desk_started result ≡ desk_of self }
    {
        let Shelf {
            alloc,
            place,
            read,
            list: _,
        } = self;
        let plan = machine.plan();
        // What the plan's type keeps is read here: it is within every limit and rule.
        let _root = plan.root();
        let number = read.details.count();
        let Ok(body) = detail(alloc, plan) else {
            return Err((place.into_desk(), BookFault::Memory));
        };
        let Ok(draft) = Draft::make(alloc) else {
            return Err((place.into_desk(), BookFault::Memory));
        };
        let Gathering {
            details: _,
            marks,
            number: _,
            kept: mut history,
        } = read;
        // What was read is of another detail. Its buffers are taken over.
        history.clear();
        let mut holding = Holding { number, marks };
        match add(alloc, place, &body) {
            Ok(journal) => {
                holding.begin(machine.plan());
                Ok(Book {
                    alloc,
                    journal,
                    machine,
                    history,
                    holding,
                    draft,
                    quiet,
                    halt: None,
                    failed: None,
                    limit: None,
                })
            }
            Err(back) => Err(back),
        }
    }
}
