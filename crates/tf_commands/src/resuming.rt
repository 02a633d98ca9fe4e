//! A run that goes on from the history which a book holds.

ghost use Rattle.std.specs.Prelude.{◌≡◌, ◌≢◌, ◌≤◌, ℕ, List, [], Option, false, None, Some, IsTrue};
ghost use Rattle.tf_desk.specs.State.{told_as};
ghost use Rattle.tf_book.specs.Book.{BookValue, flow_state};
ghost use Rattle.tf_model.specs.Steps.{has_ended};
ghost use Rattle.tf_commands.specs.Asking.{AreHands, HasEachCause, WasAsked, counts_of};
ghost use Rattle.tf_ports.specs.Ports.{gives_by};
ghost use Rattle.tf_commands.specs.Books.{Resumes};
ghost use Rattle.tf_commands.specs.Behaviour.{HiresAtMost};
ghost use Rattle.tf_commands.specs.Runs.{HoldsBook, GoesFurther, IsRunTo, RunsOn};
ghost use Rattle.tf_journal.specs.Start.{Open};

use crate::books::say_unhired;
use crate::finding::open_flow;
use crate::running::{Over, Request, report_end, run_book};
use std::alloc::Global;
use std::sync::Wait;
use std::thread::Threads;
use tf_book::Book;
use tf_desk::Desk;
use tf_ports::{Crew, Hands, Want};
use tf_report::{UNHIRED, UNREAD};
use tf_states::FlowState;
use tf_values::{Name, Text};

/// Opens the flow of a book that is asked for, and runs it on with hands that are hired then, as it is requested; of a flow that has ended it
/// says the report.
pub fn resume_book<K: Desk + Send, W: Crew, R: Threads + Wait + Sync>(
    rt: &R,
    alloc: Global,
    name: &Text,
    wanted: &Option<Name>,
    request: &Request,
    desk: K,
    crew: &mut W,
) -> Over<K>
    requires speaks { request.now.quiet ≡ false }
    requires few { AreHands request.now.want }
    ensures resumes { Resumes (gives_by W.Hand.gives W.Far.gives request.now.want) request.now
        (WasAsked (K.state desk) (K.state result.desk)) name.now wanted.now
        (W.told crew.old) (W.told crew.new) (told_as (K.state result.desk) (K.state desk))
        (K.state result.desk) result.status }
    ensures falls { IsTrue (K.state result.desk).tells → IsTrue (K.state desk).tells }
    ensures hires { HiresAtMost request.now.want (W.told crew.old) (W.told crew.new) }
    ensures causes { HasEachCause result.status (counts_of (K.state desk) 0 (W.faults crew.old))
        (counts_of (K.state result.desk) 0 (W.faults crew.new)) }
{
    match open_flow(alloc, desk, name, wanted) {
        Ok(book) => go_on(rt, alloc, book, request, crew),
        Err(over) => over,
    }
}

/// Runs a book's flow on, unless it has ended.
fn go_on<K: Desk + Send, W: Crew, R: Threads + Wait + Sync>(
    rt: &R,
    alloc: Global,
    book: Book<K>,
    request: &Request,
    crew: &mut W,
) -> Over<K>
    requires sound { book.halt ≡ None }
    requires speaks { book.quiet ≡ request.now.quiet }
    requires spoken { request.now.quiet ≡ false }
    requires few { AreHands request.now.want }
    requires kept { book.journal.volatile ≡ false }
    ensures goes { (name : List ℕ) (wanted : Option (List ℕ)) (entry seen : K)
        → Open name (told_as (K.state seen) (K.state entry)) (K.state book.journal.desk)
        → HoldsBook name wanted (told_as (K.state seen) (K.state entry)) book
        → GoesFurther (gives_by W.Hand.gives W.Far.gives request.now.want) request.now
        (WasAsked (K.state book.journal.desk) (K.state result.desk))
        name (told_as (K.state seen) (K.state entry)) book (W.told crew.old) (W.told crew.new) (K.state result.desk)
        result.status }
    ensures hires { HiresAtMost request.now.want (W.told crew.old) (W.told crew.new) }
    ensures tells { (K.state result.desk).tells ≡ (K.state book.journal.desk).tells }
    ensures causes { HasEachCause result.status (counts_of (K.state book.journal.desk) 0 (W.faults crew.old))
        (counts_of (K.state result.desk) 0 (W.faults crew.new)) }
{
    let state = book.state();
    match state {
        FlowState::Success | FlowState::Failure | FlowState::Reverted => {
            report_ended::<K, W>(book, state, request)
        }
        _ => hire_and_go_on(rt, alloc, book, request, crew),
    }
}

/// Says the report of a book whose flow has ended in that state. Nobody is hired; which hands are wanted tells which
/// relation a run of nothing keeps.
fn report_ended<K: Desk, W: Crew>(book: Book<K>, last: FlowState, request: &Request) -> Over<K>
    requires sound { book.halt ≡ None }
    ensures runs { (start : BookValue K) → request.now.quiet ≡ false
        → IsRunTo K.state (gives_by W.Hand.gives W.Far.gives request.now.want) request.now
        (WasAsked (K.state start.journal.desk) (K.state result.desk)) [] start book (Some last)
        → RunsOn K.state (gives_by W.Hand.gives W.Far.gives request.now.want) request.now
        (WasAsked (K.state start.journal.desk) (K.state result.desk)) [] start (K.state result.desk) result.status }
    ensures apart { (result.status ≢ UNREAD) × (result.status ≢ UNHIRED) }
    ensures asks { (K.state book.journal.desk).asks ≤ (K.state result.desk).asks }
{
    match &request.want {
        Want::Local(_) => report_end::<K, W::Hand>(book, last),
        Want::Remote(_) => report_end::<K, W::Far>(book, last),
    }
}

/// Hires the hands that are wanted, and runs a book's flow on with them.
#[tactic(auto, using(crate::proofs::WantLemmas::near_count, crate::proofs::WantLemmas::far_count, crate::proofs::WantLemmas::near_fresh, crate::proofs::WantLemmas::far_fresh))]
fn hire_and_go_on<K: Desk + Send, W: Crew, R: Threads + Wait + Sync>(
    rt: &R,
    alloc: Global,
    book: Book<K>,
    request: &Request,
    crew: &mut W,
) -> Over<K>
    requires sound { book.halt ≡ None }
    requires speaks { book.quiet ≡ request.now.quiet }
    requires spoken { request.now.quiet ≡ false }
    requires few { AreHands request.now.want }
    requires kept { book.journal.volatile ≡ false }
    requires going { has_ended (flow_state book) ≡ false }
    ensures goes { (name : List ℕ) (wanted : Option (List ℕ)) (entry seen : K)
        → Open name (told_as (K.state seen) (K.state entry)) (K.state book.journal.desk)
        → HoldsBook name wanted (told_as (K.state seen) (K.state entry)) book
        → GoesFurther (gives_by W.Hand.gives W.Far.gives request.now.want) request.now
        (WasAsked (K.state book.journal.desk) (K.state result.desk))
        name (told_as (K.state seen) (K.state entry)) book (W.told crew.old) (W.told crew.new) (K.state result.desk)
        result.status }
    ensures hires { HiresAtMost request.now.want (W.told crew.old) (W.told crew.new) }
    ensures tells { (K.state result.desk).tells ≡ (K.state book.journal.desk).tells }
    ensures causes { HasEachCause result.status (counts_of (K.state book.journal.desk) 0 (W.faults crew.old))
        (counts_of (K.state result.desk) 0 (W.faults crew.new)) }
{
    match crew.hire(alloc, &request.want) {
        Ok(Hands::Local(mut hands)) => {
            let over = run_book(rt, alloc, book, &mut hands, request);
            crew.dismiss(Hands::Local(hands));
            over
        }
        Ok(Hands::Remote(mut hands)) => {
            let over = run_book(rt, alloc, book, &mut hands, request);
            crew.dismiss(Hands::Remote(hands));
            over
        }
        Err(fault) => say_unhired(book.close(), fault),
    }
}
