//! A run that is recorded in a book: it begins as a new detail.

ghost use Rattle.std.specs.Prelude.{◌≡◌, ◌⊎◌, ℕ, List, [], map, Some, false, vec_len, IsTrue};
ghost use Rattle.tf_desk.specs.State.{told_as};
ghost use Rattle.std.specs.List.{AllByRecursion};
ghost use Rattle.tf_flow.specs.Plan.{plan_tree};
ghost use Rattle.tf_ports.specs.Ports.{gives_by, IsFresh, wanted as number_of};
ghost use Rattle.tf_machine.specs.Machine.{StandsFor};
ghost use Rattle.tf_book.specs.Shelf.{desk_of, is_volatile};
ghost use Rattle.tf_book.specs.Book.{HasPlaceFor};
ghost use Rattle.tf_commands.specs.Asking.{AreHands, HasEachCause, WasAsked, counts_of};
ghost use Rattle.tf_commands.specs.Begun.{IsShelf, IsShelfOf};
ghost use Rattle.tf_commands.specs.Books.{Hires, Unhired, RunsAnew, Runs};
ghost use Rattle.tf_commands.specs.Behaviour.{FileRead, IsUntouched, HiresAtMost};

use crate::books::{begin, forbid, open, refuse_book, say_over, say_unbegun, say_unhired};
use crate::finding::state_named;
use crate::messages::TOO_MANY_FLOWS;
use crate::reading::{Source, open_file};
use crate::running::{Over, Request, run_book};
use std::alloc::Global;
use std::sync::Wait;
use std::thread::Threads;
use tf_actions::Performer;
use tf_book::Shelf;
use tf_desk::Desk;
use tf_machine::Machine;
use tf_ports::{Crew, Hands, Sources};
use tf_report::FORBIDDEN;
use tf_values::Text;

/// The most details of a book.
const DETAIL_LIMIT: usize = 64;

/// Reads the file, opens the book, hires the hands that are wanted and runs the file's flow with them.
pub fn run_file<K: Desk + Send, S: Sources, W: Crew, R: Threads + Wait + Sync>(
    rt: &R,
    alloc: Global,
    source: Source,
    name: &Text,
    request: &Request,
    mut desk: K,
    sources: &mut S,
    crew: &mut W,
) -> Over<K>
    requires few { AreHands request.now.want }
    ensures runs { FileRead (S.contents sources.new) source
        (IsUntouched (W.told crew.old) (W.told crew.new) (told_as (K.state result.desk) (K.state desk))
        (K.state result.desk))
        (Runs (gives_by W.Hand.gives W.Far.gives request.now.want) request.now
        (WasAsked (K.state desk) (K.state result.desk)) name.now
        (W.told crew.old) (W.told crew.new) (told_as (K.state result.desk) (K.state desk)) (K.state result.desk))
        (K.state desk).shown (K.state result.desk).shown result.status }
    ensures falls { IsTrue (K.state result.desk).tells → IsTrue (K.state desk).tells }
    ensures hires { HiresAtMost request.now.want (W.told crew.old) (W.told crew.new) }
    ensures causes { HasEachCause result.status (counts_of (K.state desk) (S.faults sources.old) (W.faults crew.old))
        (counts_of (K.state result.desk) (S.faults sources.new) (W.faults crew.new)) }
{
    match open_file(alloc, source, &mut desk, sources) {
        Ok(machine) => run_plan(rt, alloc, machine, name, request, desk, crew),
        Err(status) => Over { desk, status },
    }
}

/// Opens the book, and runs the plan of a machine over it with hands that are hired then.
pub fn run_plan<K: Desk + Send, W: Crew, R: Threads + Wait + Sync>(
    rt: &R,
    alloc: Global,
    machine: Machine,
    name: &Text,
    request: &Request,
    desk: K,
    crew: &mut W,
) -> Over<K>
    requires fresh { StandsFor machine [] }
    requires few { AreHands request.now.want }
    ensures runs { Runs (gives_by W.Hand.gives W.Far.gives request.now.want) request.now
        (WasAsked (K.state desk) (K.state result.desk)) name.now
        (W.told crew.old) (W.told crew.new) (told_as (K.state result.desk) (K.state desk)) (K.state result.desk)
        (plan_tree machine.plan) result.status }
    ensures falls { IsTrue (K.state result.desk).tells → IsTrue (K.state desk).tells }
    ensures hires { HiresAtMost request.now.want (W.told crew.old) (W.told crew.new) }
    ensures causes { HasEachCause result.status (counts_of (K.state desk) 0 (W.faults crew.old))
        (counts_of (K.state result.desk) 0 (W.faults crew.new)) }
{
    match open(alloc, desk, name) {
        Ok(shelf) => run_anew(rt, alloc, machine, shelf, request, crew),
        Err((desk, fault)) => refuse_book(alloc, desk, fault),
    }
}

/// Runs the plan of a machine as a new detail of a book, unless one has its name, or there are as many as there may be.
fn run_anew<K: Desk + Send, W: Crew, R: Threads + Wait + Sync>(
    rt: &R,
    alloc: Global,
    machine: Machine,
    shelf: Shelf<K>,
    request: &Request,
    crew: &mut W,
) -> Over<K>
    requires fresh { StandsFor machine [] }
    requires kept { is_volatile shelf.place ≡ false }
    requires few { AreHands request.now.want }
    ensures runs { (name : List ℕ) (entry seen : K)
        → IsShelfOf K.state name (told_as (K.state seen) (K.state entry)) shelf
        → Runs (gives_by W.Hand.gives W.Far.gives request.now.want) request.now
        (WasAsked (K.state (desk_of shelf)) (K.state result.desk)) name
        (W.told crew.old) (W.told crew.new) (told_as (K.state result.desk) (K.state entry)) (K.state result.desk)
        (plan_tree machine.plan) result.status }
    ensures hires { HiresAtMost request.now.want (W.told crew.old) (W.told crew.new) }
    ensures falls { IsTrue (K.state result.desk).tells → IsTrue (K.state (desk_of shelf)).tells }
    ensures causes { HasEachCause result.status (counts_of (K.state (desk_of shelf)) 0 (W.faults crew.old))
        (counts_of (K.state result.desk) 0 (W.faults crew.new)) }
{
    let named = machine.plan().root().name;
    let list = shelf.details();
    match state_named(list, &named) {
        Some(state) => {
            drop(machine);
            forbid(alloc, &named, state, shelf.close())
        }
        None => {
            if list.len() >= DETAIL_LIMIT {
                drop(machine);
                return say_over(TOO_MANY_FLOWS, FORBIDDEN, shelf.close());
            }
            hire_and_run(rt, alloc, machine, shelf, request, crew)
        }
    }
}

/// Hires the hands that are wanted, and runs the plan of a machine with them as a new detail of a book.
#[tactic(auto, using(crate::proofs::WantLemmas::near_count, crate::proofs::WantLemmas::far_count, crate::proofs::WantLemmas::near_fresh, crate::proofs::WantLemmas::far_fresh))]
fn hire_and_run<K: Desk + Send, W: Crew, R: Threads + Wait + Sync>(
    rt: &R,
    alloc: Global,
    machine: Machine,
    shelf: Shelf<K>,
    request: &Request,
    crew: &mut W,
) -> Over<K>
    requires fresh { StandsFor machine [] }
    requires shelf { IsShelf K.state shelf }
    requires place { HasPlaceFor shelf.elements machine.plan }
    requires few { AreHands request.now.want }
    ensures runs { (name : List ℕ) (entry seen : K)
        → IsShelfOf K.state name (told_as (K.state seen) (K.state entry)) shelf
        → (Unhired name (told_as (K.state result.desk) (K.state entry)) (K.state result.desk) (W.told crew.old)
        (W.told crew.new) result.status
        ⊎ (Hires request.now.want (W.told crew.old) (W.told crew.new)
        × RunsAnew (gives_by W.Hand.gives W.Far.gives request.now.want) request.now
        (WasAsked (K.state (desk_of shelf)) (K.state result.desk)) (W.told crew.new).back
        name shelf.elements machine.plan (told_as (K.state result.desk) (K.state entry)) (K.state result.desk)
        result.status)) }
    ensures hires { HiresAtMost request.now.want (W.told crew.old) (W.told crew.new) }
    ensures falls { IsTrue (K.state result.desk).tells → IsTrue (K.state (desk_of shelf)).tells }
    ensures causes { HasEachCause result.status (counts_of (K.state (desk_of shelf)) 0 (W.faults crew.old))
        (counts_of (K.state result.desk) 0 (W.faults crew.new)) }
{
    match crew.hire(alloc, &request.want) {
        Ok(Hands::Local(mut hands)) => {
            let over = run_in(rt, alloc, machine, shelf, request, &mut hands);
            crew.dismiss(Hands::Local(hands));
            over
        }
        Ok(Hands::Remote(mut hands)) => {
            let over = run_in(rt, alloc, machine, shelf, request, &mut hands);
            crew.dismiss(Hands::Remote(hands));
            over
        }
        Err(fault) => {
            drop(machine);
            say_unhired(shelf.close(), fault)
        }
    }
}

/// Runs the plan of a machine with the hands that were hired for it as a new detail of a book.
fn run_in<K: Desk + Send, P: Performer + Send, R: Threads + Wait + Sync>(
    rt: &R,
    alloc: Global,
    machine: Machine,
    shelf: Shelf<K>,
    request: &Request,
    hands: &mut Vec<P>,
) -> Over<K>
    requires fresh { StandsFor machine [] }
    requires shelf { IsShelf K.state shelf }
    requires place { HasPlaceFor shelf.elements machine.plan }
    requires all { vec_len hands.old ≡ number_of request.now.want }
    requires few { AreHands request.now.want }
    requires idle { AllByRecursion IsFresh (map P.did hands.old.items) }
    ensures runs { (name : List ℕ) (entry seen : K)
        → IsShelfOf K.state name (told_as (K.state seen) (K.state entry)) shelf
        → RunsAnew P.gives request.now (WasAsked (K.state (desk_of shelf)) (K.state result.desk))
        (Some (map P.did hands.new.items)) name shelf.elements machine.plan
        (told_as (K.state result.desk) (K.state entry)) (K.state result.desk) result.status }
    ensures falls { IsTrue (K.state result.desk).tells → IsTrue (K.state (desk_of shelf)).tells }
    ensures causes { HasEachCause result.status (counts_of (K.state (desk_of shelf)) 0 0)
        (counts_of (K.state result.desk) 0 0) }
    ensures back { vec_len hands.new ≡ vec_len hands.old }
{
    match begin(shelf, machine, request.quiet) {
        Ok(book) => run_book(rt, alloc, book, hands, request),
        Err((desk, fault)) => say_unbegun::<K, P>(alloc, desk, fault),
    }
}
