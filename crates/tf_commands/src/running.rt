//! A run of a book with its hands, and what it says last.

ghost use Rattle.std.specs.Prelude.{◌≡◌, ◌≢◌, ◌≤◌, ◌<◌, ◌++◌, ℕ, List, length, map, slice_index_or, vec_len, true, false, None, Some, Option, IfOk};
ghost use Rattle.std.specs.List.{AllByRecursion};
ghost use Rattle.tf_states.specs.declared.state.FlowState.{FlowState as AFlowState};
ghost use Rattle.tf_report.specs.Lines.{report};
ghost use Rattle.tf_actions.specs.declared.orders.Order.{Order as AnOrder};
ghost use Rattle.tf_hands.specs.Hands.{orders};
ghost use Rattle.tf_ports.specs.Ports.{wanted as number_of, IsFresh};
ghost use Rattle.tf_book.specs.Book.{BookValue, outline, moment, flow_state};
ghost use Rattle.tf_book.specs.SessionInvariant.{SessionInvariant};
ghost use Rattle.tf_book.specs.declared.faults.Halt.{Halt as Cause};
ghost use Rattle.tf_engines.specs.Asked.{HasDoneBy};
ghost use Rattle.tf_engines.specs.Runs.{MightRecord, HasRun, StandsAs};
ghost use Rattle.tf_commands.specs.Asking.{AreHands, WasAsked};
ghost use Rattle.tf_commands.specs.Messages.{summary};
ghost use Rattle.tf_commands.specs.Books.{stop_status};
ghost use Rattle.tf_commands.specs.Runs.{HasSaidHalt, IsRunTo, RunsOn};
ghost use Rattle.tf_commands.specs.declared.running.Request.{Request as ARequest};

use crate::messages::append_summary;
use std::alloc::Global;
use std::sync::Wait;
use std::thread::Threads;
use tf_actions::Performer;
use tf_book::{Book, BookFault, Halt};
use tf_desk::Desk;
use tf_engines::{How, RunEnd, parallel, serial};
use tf_ports::Want;
use tf_report::{
    DISK_FAILED, DISK_FAULT, FAILED, FULL, OUT_OF_MEMORY, REVERTED, SUCCEEDED, SUSPENDED, UNHIRED,
    UNREAD, UNSAID, append_book_full, close,
};
use tf_states::FlowState;
use tf_values::Memory;

/// A command that is over: the desk, and the status.
#[derive(Drop)]
pub struct Over<K> {
    pub desk: K,
    pub status: u8,
}

/// How a run is to go: with which hands; whether it says no lines of its entries, but how many they are before its
/// report; and after how many entries it is suspended, if after so many.
#[derive(Debug, Drop)]
pub struct Request {
    pub want: Want,
    pub quiet: bool,
    pub limit: Option<u32>,
}

/// Runs a book's flow on with the hands that were hired for it, as it is requested, and says how it stopped.
pub fn run_book<K: Desk + Send, P: Performer + Send, R: Threads + Wait + Sync>(
    rt: &R,
    alloc: Global,
    book: Book<K>,
    hands: &mut Vec<P>,
    request: &Request,
) -> Over<K>
    requires sound { book.halt ≡ None }
    requires speaks { book.quiet ≡ request.now.quiet }
    requires all { vec_len hands.old ≡ number_of request.now.want }
    requires few { AreHands request.now.want }
    requires idle { AllByRecursion IsFresh (map P.did hands.old.items) }
    ensures runs { RunsOn K.state P.gives request.now
        (WasAsked (K.state book.journal.desk) (K.state result.desk)) (map P.did hands.new.items)
        book (K.state result.desk) result.status }
    ensures back { vec_len hands.new ≡ vec_len hands.old }
    ensures apart { (result.status ≢ UNREAD) × (result.status ≢ UNHIRED) }
{
    let _before = book.state();
    let RunEnd { book, how } = go_through(rt, alloc, book, hands, request.limit);
    let _after = book.state();
    match how {
        How::Ended(last) => end_run::<K, P>(alloc, book, last, request),
        How::Suspended => end_run::<K, P>(alloc, book, FlowState::Suspended, request),
        How::Halted(halt) => say_halt::<K, P>(alloc, book, halt),
    }
}

/// Goes through a session of a book: one hand alone, or several beside each other.
fn go_through<K: Desk + Send, P: Performer + Send, R: Threads + Wait + Sync>(
    rt: &R,
    alloc: Global,
    book: Book<K>,
    hands: &mut Vec<P>,
    limit: Option<u32>,
) -> RunEnd<K>
    requires some { 1 ≤ vec_len hands.old }
    requires few { vec_len hands.old ≤ 64 }
    ensures keeps { (start : BookValue K) → SessionInvariant K.state start book
        → SessionInvariant K.state start result.book }
    ensures stops { StandsAs result.book.halt (flow_state result.book) result.how }
    ensures plan { result.book.plan ≡ book.plan }
    ensures ran { HasRun P.gives (WasAsked (K.state book.journal.desk) (K.state result.book.journal.desk))
        (vec_len hands.old) limit (outline book) book.past result.book.past result.how }
    ensures failed { book.halt ≡ None → MightRecord P.gives (vec_len hands.old) result.book }
    ensures asks { (K.state book.journal.desk).asks ≤ (K.state result.book.journal.desk).asks }
    ensures count { vec_len hands.new ≡ vec_len hands.old }
    ensures orders { (i : ℕ) (d : P) → i < vec_len hands.old
        → HasDoneBy (P.did (slice_index_or hands.old.items i d)) (orders (outline book) i book.past)
        (P.did (slice_index_or hands.new.items i d)) (orders (outline book) i result.book.past) result.how }
{
    if hands.len() > 1 {
        return parallel(rt, alloc, book, hands, limit);
    }
    match hands.pop() {
        Some(mut hand) => {
            let end = serial(alloc, book, &mut hand, limit);
            hands.push_reserved(hand);
            end
        }
        None => unreachable!(),
    }
}

/// Says last what was requested of a book whose run stopped in that state.
fn end_run<K: Desk, P: Performer>(
    alloc: Global,
    book: Book<K>,
    last: FlowState,
    request: &Request,
) -> Over<K>
    requires sound { book.halt ≡ None }
    ensures runs { (start : BookValue K) (did : List (Option (List AnOrder)))
        → IsRunTo K.state P.gives request.now (WasAsked (K.state start.journal.desk) (K.state result.desk)) did
        start book (Some last)
        → RunsOn K.state P.gives request.now (WasAsked (K.state start.journal.desk) (K.state result.desk)) did
        start (K.state result.desk) result.status }
    ensures apart { (result.status ≢ UNREAD) × (result.status ≢ UNHIRED) }
    ensures asks { (K.state book.journal.desk).asks ≤ (K.state result.desk).asks }
{
    if request.quiet {
        return sum_up::<K, P>(alloc, book, last);
    }
    report_end::<K, P>(book, last)
}

/// Says how many tasks and entries a book has whose run stopped in that state, and its report.
fn sum_up<K: Desk, P: Performer>(alloc: Global, book: Book<K>, last: FlowState) -> Over<K>
    requires sound { book.halt ≡ None }
    ensures runs { (request : ARequest) (start : BookValue K) (did : List (Option (List AnOrder)))
        → request.quiet ≡ true
        → IsRunTo K.state P.gives request (WasAsked (K.state start.journal.desk) (K.state result.desk)) did
        start book (Some last)
        → RunsOn K.state P.gives request (WasAsked (K.state start.journal.desk) (K.state result.desk)) did
        start (K.state result.desk) result.status }
    ensures apart { (result.status ≢ UNREAD) × (result.status ≢ UNHIRED) }
    ensures asks { (K.state book.journal.desk).asks ≤ (K.state result.desk).asks }
{
    let _standing = book.state();
    let made = summary_text(alloc, &book);
    let mut desk = book.close();
    match made {
        Ok(text) => {
            let status = close(&text, status_for(last), &mut desk);
            Over { desk, status }
        }
        Err(_) => Over {
            desk,
            status: OUT_OF_MEMORY,
        },
    }
}

/// How many tasks and entries a book has, and its report.
fn summary_text<K: Desk>(alloc: Global, book: &Book<K>) -> Result<Vec<u8>, Memory>
    ensures { IfOk result (λ text. text.items
        ≡ summary (outline book.now) (length book.now.past) ++ report (outline book.now) (moment book.now)) }
{
    let mut text = Vec::new(alloc);
    append_summary(book.machine().plan(), book.count(), &mut text)?;
    text.extend_from_slice(&book.report_text()?)?;
    Ok(text)
}

/// Says the report of a book whose run stopped in that state.
pub fn report_end<K: Desk, P: Performer>(mut book: Book<K>, last: FlowState) -> Over<K>
    requires sound { book.halt ≡ None }
    ensures runs { (request : ARequest) (start : BookValue K) (did : List (Option (List AnOrder)))
        → request.quiet ≡ false
        → IsRunTo K.state P.gives request (WasAsked (K.state start.journal.desk) (K.state result.desk)) did
        start book (Some last)
        → RunsOn K.state P.gives request (WasAsked (K.state start.journal.desk) (K.state result.desk)) did
        start (K.state result.desk) result.status }
    ensures apart { (result.status ≢ UNREAD) × (result.status ≢ UNHIRED) }
    ensures asks { (K.state book.journal.desk).asks ≤ (K.state result.desk).asks }
{
    match book.report() {
        Ok(()) => Over {
            desk: book.close(),
            status: status_for(last),
        },
        Err(BookFault::Out) => Over {
            desk: book.close(),
            status: UNSAID,
        },
        Err(BookFault::Memory) => Over {
            desk: book.close(),
            status: OUT_OF_MEMORY,
        },
        Err(_) => unreachable!(),
    }
}

/// Says why a book was halted, unless its output failed or memory ran out.
fn say_halt<K: Desk, P: Performer>(alloc: Global, book: Book<K>, halt: Halt) -> Over<K>
    requires halted { book.halt ≡ Some halt }
    ensures runs { (request : ARequest) (start : BookValue K) (did : List (Option (List AnOrder)))
        (stop : Option AFlowState)
        → IsRunTo K.state P.gives request (WasAsked (K.state start.journal.desk) (K.state result.desk)) did
        start book stop
        → RunsOn K.state P.gives request (WasAsked (K.state start.journal.desk) (K.state result.desk)) did
        start (K.state result.desk) result.status }
    ensures apart { (result.status ≢ UNREAD) × (result.status ≢ UNHIRED) }
    ensures asks { (K.state book.journal.desk).asks ≤ (K.state result.desk).asks }
{
    let _standing = book.state();
    let mut desk = book.close();
    let status = say_cause(alloc, halt, &mut desk);
    Over { desk, status }
}

/// Says for which cause a book was halted, unless its output failed or memory ran out.
pub fn say_cause<K: Desk>(alloc: Global, halt: Halt, desk: &mut K) -> u8
    ensures says { HasSaidHalt halt (K.state desk.old) (K.state desk.new) result }
{
    match halt {
        Halt::Disk => close(DISK_FAULT, DISK_FAILED, desk),
        Halt::Out => UNSAID,
        Halt::Full { size, need } => say_full(alloc, size, need, desk),
        Halt::Memory => OUT_OF_MEMORY,
    }
}

/// Says that a book is full, unless memory runs out.
fn say_full<K: Desk>(alloc: Global, size: u64, need: u64, desk: &mut K) -> u8
    ensures says { HasSaidHalt (Cause.Full size need) (K.state desk.old) (K.state desk.new) result }
{
    let mut text = Vec::new(alloc);
    match append_book_full(size, need, &mut text) {
        Ok(()) => close(&text, FULL, desk),
        Err(_) => OUT_OF_MEMORY,
    }
}

/// The status of a run that stopped in the state.
fn status_for(last: FlowState) -> u8
    ensures status { result ≡ stop_status last }
    ensures end { (result ≢ UNREAD) × (result ≢ UNSAID) × (result ≢ UNHIRED) }
{
    match last {
        FlowState::Success => SUCCEEDED,
        FlowState::Reverted => REVERTED,
        FlowState::Suspended => SUSPENDED,
        _ => FAILED,
    }
}
