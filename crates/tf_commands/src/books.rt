//! Books on the desk: how one is opened, why it isn't, and how a run begins in it as a new detail.

ghost use Rattle.std.specs.Prelude.{◌≡◌, ◌≢◌, ◌≤◌, ◌⊎◌, ℕ, List, [], false, IsTrue, None, Some, Option, IfOk, IfErr};
ghost use Rattle.std.specs.List.{AllByRecursion};
ghost use Rattle.tf_actions.specs.declared.orders.Order.{Order as AnOrder};
ghost use Rattle.tf_ports.specs.Ports.{IsFresh};
ghost use Rattle.tf_numbers.specs.Numbers.{Rises};
ghost use Rattle.tf_desk.specs.State.{anything, told_as, Trusts, GoesOn};
ghost use Rattle.tf_flow.specs.Plan.{PlanValue};
ghost use Rattle.tf_journal.specs.Start.{Untouched, Open};
ghost use Rattle.tf_machine.specs.Machine.{StandsFor};
ghost use Rattle.tf_details.specs.Elements.{Element};
ghost use Rattle.tf_book.specs.Book.{RefusesBook, HasPlaceFor};
ghost use Rattle.tf_book.specs.Shelf.{desk_of, desk_after_load, is_volatile, IsFoundAs};
ghost use Rattle.tf_book.specs.Starting.{desk_started};
ghost use Rattle.tf_commands.specs.Begun.{IsShelf, IsShelfOf, cause_in, FailsToBegin, Begins, Unbegun};
ghost use Rattle.tf_commands.specs.Runs.{HasSaidHalt};
ghost use Rattle.tf_commands.specs.Books.{RunsAnew, Refuses, RefusesOrStops, Unopened, book_at, HasSaid};
ghost use Rattle.tf_commands.specs.Messages.{no_flow_text, no_flow_named, state_forbids};
ghost use Rattle.tf_report.specs.Closing.{not_a_book, cannot_hire, ClosesWithOrStops};
ghost use Rattle.tf_commands.specs.declared.running.Request.{Request};

use crate::messages::{NO_FLOW, append_no_flow_named, append_state_forbids};
use crate::running::{Over, say_cause};
use std::alloc::Global;
use tf_actions::Performer;
use tf_book::{Book, BookFault, Halt, Shelf};
use tf_desk::{Desk, DeskFault};
use tf_journal::LoadFault;
use tf_machine::Machine;
use tf_ports::PortFault;
use tf_report::{
    CANNOT_HIRE, DISK_FAILED, DISK_FAULT, FORBIDDEN, NO_BOOK, OLD_BOOK, OLD_FORMAT, OUT_OF_MEMORY,
    UNHIRED, UNREAD, UNSAID, append_not_a_book, close,
};
use tf_states::FlowState;
use tf_values::{Name, Text};

/// Picks the file of that name, and reads it as a book.
pub fn open<K: Desk>(alloc: Global, mut desk: K, name: &Text) -> Result<Shelf<K>, (K, LoadFault)>
    ensures opened { IfOk result (λ shelf. Trusts (Open name.now) (K.state desk) (K.state (desk_of shelf))) }
    ensures loads { IfOk result (λ shelf. IsTrue (K.state (desk_of shelf)).tells
        → IsFoundAs shelf.place shelf.elements (book_at (K.state desk) name.now)) }
    ensures kept { IfOk result (λ shelf. is_volatile shelf.place ≡ false) }
    ensures unopened { IfErr result (λ back. Trusts (Untouched name.now) (K.state desk) (K.state back.0)) }
    ensures refused { IfErr result (λ back. IsTrue (K.state back.0).tells
        → RefusesBook back.1 (book_at (K.state desk) name.now)) }
    ensures cause { IfErr result (λ back. back.1 ≡ LoadFault.Disk
        → Rises (K.state desk).disk_faults (K.state back.0).disk_faults) }
    ensures asks { (K.state desk).asks ≤ (K.state (desk_after_load result)).asks }
{
    match desk.pick(alloc, name) {
        Ok(()) => Shelf::load(alloc, desk),
        Err(DeskFault::Disk) => Err((desk, LoadFault::Disk)),
        Err(DeskFault::Memory) => Err((desk, LoadFault::Memory)),
        Err(DeskFault::Out) => unreachable!(),
    }
}

/// Says why a book couldn't be opened, unless memory ran out.
pub fn refuse_book<K: Desk>(alloc: Global, mut desk: K, fault: LoadFault) -> Over<K>
    ensures unopened { (name : List ℕ) (entry seen : K)
        → Untouched name (told_as (K.state seen) (K.state entry)) (K.state desk)
        → (IsTrue (K.state seen).tells → RefusesBook fault (book_at (K.state entry) name))
        → Unopened name (told_as (K.state seen) (K.state entry)) (K.state result.desk) result.status }
    ensures said { HasSaid (K.state desk) (K.state result.desk) result.status }
    ensures failed { result.status ≡ DISK_FAILED → fault ≡ LoadFault.Disk }
{
    let status = match fault {
        LoadFault::Disk => close(DISK_FAULT, DISK_FAILED, &mut desk),
        LoadFault::NotABook { offset, byte } => return say_no_book(alloc, offset, byte, desk),
        LoadFault::Memory => OUT_OF_MEMORY,
        LoadFault::Old => close(OLD_FORMAT, OLD_BOOK, &mut desk),
    };
    Over { desk, status }
}

/// Says that a file is no book.
fn say_no_book<K: Desk>(alloc: Global, offset: u64, byte: Option<u8>, mut desk: K) -> Over<K>
    ensures refuses { (name : List ℕ) (entry seen : K)
        → Untouched name (told_as (K.state seen) (K.state entry)) (K.state desk)
        → RefusesOrStops name (told_as (K.state seen) (K.state entry)) (K.state result.desk) (not_a_book offset byte)
        NO_BOOK result.status }
    ensures said { HasSaid (K.state desk) (K.state result.desk) result.status }
    ensures sound { result.status ≢ DISK_FAILED }
{
    let mut text = Vec::new(alloc);
    match append_not_a_book(offset, byte, &mut text) {
        Ok(()) => say_over(&text, NO_BOOK, desk),
        Err(_) => Over {
            desk,
            status: OUT_OF_MEMORY,
        },
    }
}

/// Says a command's message, with which it is over.
pub fn say_over<K: Desk>(message: &[u8], status: u8, mut desk: K) -> Over<K>
    requires apart { (status ≢ UNREAD) × (status ≢ UNSAID) }
    ensures refuses { (name : List ℕ) (entry seen : K)
        → Untouched name (told_as (K.state seen) (K.state entry)) (K.state desk)
        → Refuses name (told_as (K.state seen) (K.state entry)) (K.state result.desk) message.now status result.status }
    ensures said { HasSaid (K.state desk) (K.state result.desk) result.status }
    ensures status { (result.status ≡ status) ⊎ (result.status ≡ UNSAID) }
{
    let status = close(message, status, &mut desk);
    Over { desk, status }
}

/// Says that a book holds no flow.
pub fn say_empty<K: Desk>(desk: K) -> Over<K>
    ensures refuses { (name : List ℕ) (entry seen : K)
        → Untouched name (told_as (K.state seen) (K.state entry)) (K.state desk)
        → Refuses name (told_as (K.state seen) (K.state entry)) (K.state result.desk) no_flow_text FORBIDDEN
        result.status }
    ensures said { HasSaid (K.state desk) (K.state result.desk) result.status }
    ensures status { (result.status ≡ FORBIDDEN) ⊎ (result.status ≡ UNSAID) }
{
    say_over(NO_FLOW, FORBIDDEN, desk)
}

/// Says that a book holds no flow of this name, unless memory runs out.
pub fn say_not_there<K: Desk>(alloc: Global, sought: &Name, desk: K) -> Over<K>
    ensures refuses { (name : List ℕ) (entry seen : K)
        → Untouched name (told_as (K.state seen) (K.state entry)) (K.state desk)
        → RefusesOrStops name (told_as (K.state seen) (K.state entry))
        (K.state result.desk) (no_flow_named sought.now) FORBIDDEN result.status }
    ensures said { HasSaid (K.state desk) (K.state result.desk) result.status }
    ensures status { (result.status ≡ FORBIDDEN) ⊎ (result.status ≡ UNSAID) ⊎ (result.status ≡ OUT_OF_MEMORY) }
{
    let mut text = Vec::new(alloc);
    match append_no_flow_named(sought, &mut text) {
        Ok(()) => say_over(&text, FORBIDDEN, desk),
        Err(_) => Over {
            desk,
            status: OUT_OF_MEMORY,
        },
    }
}

/// Says that the state of the flow of this name forbids what is asked for, unless memory runs out.
pub fn forbid<K: Desk>(alloc: Global, named: &Name, state: FlowState, desk: K) -> Over<K>
    ensures refuses { (name : List ℕ) (entry seen : K)
        → Untouched name (told_as (K.state seen) (K.state entry)) (K.state desk)
        → RefusesOrStops name (told_as (K.state seen) (K.state entry)) (K.state result.desk)
        (state_forbids named.now state) FORBIDDEN result.status }
    ensures said { HasSaid (K.state desk) (K.state result.desk) result.status }
    ensures status { (result.status ≡ FORBIDDEN) ⊎ (result.status ≡ UNSAID) ⊎ (result.status ≡ OUT_OF_MEMORY) }
{
    let mut text = Vec::new(alloc);
    match append_state_forbids(named, state, &mut text) {
        Ok(()) => say_over(&text, FORBIDDEN, desk),
        Err(_) => Over {
            desk,
            status: OUT_OF_MEMORY,
        },
    }
}

/// Says that no hands could be hired, unless memory ran out.
pub fn say_unhired<K: Desk>(desk: K, fault: PortFault) -> Over<K>
    ensures refuses { (name : List ℕ) (entry seen : K)
        → Untouched name (told_as (K.state seen) (K.state entry)) (K.state desk)
        → RefusesOrStops name (told_as (K.state seen) (K.state entry)) (K.state result.desk) cannot_hire UNHIRED
        result.status }
    ensures said { HasSaid (K.state desk) (K.state result.desk) result.status }
    ensures closes { ClosesWithOrStops (K.state desk).shown cannot_hire UNHIRED
        (K.state result.desk).shown result.status }
    ensures unhired { result.status ≡ UNHIRED → fault ≡ PortFault.Failed }
    ensures sound { result.status ≢ DISK_FAILED }
{
    match fault {
        PortFault::Failed => say_over(CANNOT_HIRE, UNHIRED, desk),
        PortFault::Memory => Over {
            desk,
            status: OUT_OF_MEMORY,
        },
    }
}

/// Begins a new detail of a machine's plan behind those of a shelf.
pub fn begin<K: Desk>(
    shelf: Shelf<K>,
    machine: Machine,
    quiet: bool,
) -> Result<Book<K>, (K, BookFault)>
    requires shelf { IsShelf K.state shelf }
    requires place { HasPlaceFor shelf.elements machine.plan }
    requires fresh { StandsFor machine [] }
    ensures begins { IfOk result (λ book. (name : List ℕ) (entry seen : K)
        → IsShelfOf K.state name (told_as (K.state seen) (K.state entry)) shelf
        → Begins K.state name (told_as (K.state book.journal.desk) (K.state entry))
        shelf.elements machine.plan book) }
    ensures unbegun { IfErr result (λ back. (name : List ℕ) (entry seen : K)
        → IsShelfOf K.state name (told_as (K.state seen) (K.state entry)) shelf
        → Unbegun name (told_as (K.state back.0) (K.state entry))
        shelf.elements machine.plan (K.state back.0)) }
    ensures ready { IfOk result (λ book. (book.halt ≡ None) × (book.quiet ≡ quiet)) }
    ensures goes { Trusts (GoesOn anything) (K.state (desk_of shelf)) (K.state (desk_started result)) }
    ensures fails { IfErr result (λ back.
        FailsToBegin K.state shelf.elements machine.plan back.1 (desk_of shelf) back.0) }
{
    match shelf.start(machine, quiet) {
        Ok(book) => {
            let _pending = book.state();
            Ok(book)
        }
        Err(back) => Err(back),
    }
}

/// The cause of a fault.
fn cause_of(fault: BookFault) -> Halt
    ensures { result ≡ cause_in fault }
{
    match fault {
        BookFault::Disk => Halt::Disk,
        BookFault::Out => Halt::Out,
        BookFault::Full { size, need } => Halt::Full { size, need },
        BookFault::Memory => Halt::Memory,
        BookFault::Halted(halt) => halt,
    }
}

/// Says why a new detail couldn't begin, unless memory ran out.
pub fn say_unbegun<K: Desk, P: Performer>(alloc: Global, mut desk: K, fault: BookFault) -> Over<K>
    ensures anew { (request : Request) (asks : ℕ) (did : List (Option (List AnOrder))) (name : List ℕ)
        (entry seen : K) (opened : K) (elements : List Element) (plan : PlanValue)
        → Open name (told_as (K.state seen) (K.state entry)) (told_as (K.state desk) (K.state opened))
        → Unbegun name (told_as (K.state seen) (K.state entry)) elements plan (K.state desk)
        → FailsToBegin K.state elements plan fault opened desk
        → AllByRecursion IsFresh did
        → RunsAnew P.gives request (Rises asks (K.state result.desk).asks) (Some did)
        name elements plan (told_as (K.state seen) (K.state entry)) (K.state result.desk) result.status }
    ensures says { HasSaidHalt (cause_in fault) (K.state desk) (K.state result.desk) result.status }
{
    let status = say_cause(alloc, cause_of(fault), &mut desk);
    Over { desk, status }
}
