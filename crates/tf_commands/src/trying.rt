//! A trial: a run of a flow file's plan of which nothing is kept.

ghost use Rattle.std.specs.Prelude.{◌≡◌, [], map, None, Some, vec_len};
ghost use Rattle.std.specs.List.{AllByRecursion};
ghost use Rattle.tf_flow.specs.Plan.{plan_tree};
ghost use Rattle.tf_ports.specs.Ports.{gives_by, IsFresh, wanted as number_of};
ghost use Rattle.tf_machine.specs.Machine.{StandsFor};
ghost use Rattle.tf_commands.specs.Asking.{AreHands, HasEachCause, WasAsked, counts_of};
ghost use Rattle.tf_commands.specs.Behaviour.{FileRead, IsUntouched, Tries, Tried, HiresAtMost};
ghost use Rattle.tf_commands.specs.Books.{TouchesNoFile, spoken_run};

use crate::books::{say_unbegun, say_unhired};
use crate::reading::{Source, open_file};
use crate::running::{Over, Request, run_book};
use std::alloc::Global;
use std::sync::Wait;
use std::thread::Threads;
use tf_actions::Performer;
use tf_book::Shelf;
use tf_desk::Desk;
use tf_machine::Machine;
use tf_ports::{Crew, Hands, Sources};
use tf_report::OUT_OF_MEMORY;

/// Reads the file, hires the hands that are wanted, runs the file's flow with them and reports its end. Nothing of it is
/// kept.
pub fn try_file<K: Desk + Send, S: Sources, W: Crew, R: Threads + Wait + Sync>(
    rt: &R,
    alloc: Global,
    source: Source,
    request: &Request,
    mut desk: K,
    sources: &mut S,
    crew: &mut W,
) -> Over<K>
    requires said { request.now ≡ spoken_run request.now.want None }
    requires few { AreHands request.now.want }
    ensures tried { FileRead (S.contents sources.new) source
        (IsUntouched (W.told crew.old) (W.told crew.new) (K.state desk) (K.state result.desk))
        (Tries (gives_by W.Hand.gives W.Far.gives request.now.want) request.now.want
        (WasAsked (K.state desk) (K.state result.desk))
        (W.told crew.old) (W.told crew.new) (K.state desk).shown (K.state result.desk).shown)
        (K.state desk).shown (K.state result.desk).shown result.status }
    ensures stays { TouchesNoFile (K.state desk) (K.state result.desk) }
    ensures tells { (K.state result.desk).tells ≡ (K.state desk).tells }
    ensures hires { HiresAtMost request.now.want (W.told crew.old) (W.told crew.new) }
    ensures causes { HasEachCause result.status (counts_of (K.state desk) (S.faults sources.old) (W.faults crew.old))
        (counts_of (K.state result.desk) (S.faults sources.new) (W.faults crew.new)) }
{
    match open_file(alloc, source, &mut desk, sources) {
        Ok(machine) => try_plan(rt, alloc, machine, request, desk, crew),
        Err(status) => Over { desk, status },
    }
}

/// Hires the hands that are wanted, and runs the plan of a machine with them.
#[tactic(auto, using(crate::proofs::WantLemmas::near_count, crate::proofs::WantLemmas::far_count, crate::proofs::WantLemmas::near_fresh, crate::proofs::WantLemmas::far_fresh))]
fn try_plan<K: Desk + Send, W: Crew, R: Threads + Wait + Sync>(
    rt: &R,
    alloc: Global,
    machine: Machine,
    request: &Request,
    desk: K,
    crew: &mut W,
) -> Over<K>
    requires fresh { StandsFor machine [] }
    requires said { request.now ≡ spoken_run request.now.want None }
    requires few { AreHands request.now.want }
    ensures tried { Tries (gives_by W.Hand.gives W.Far.gives request.now.want) request.now.want
        (WasAsked (K.state desk) (K.state result.desk))
        (W.told crew.old) (W.told crew.new) (K.state desk).shown (K.state result.desk).shown
        (plan_tree machine.plan) result.status }
    ensures stays { TouchesNoFile (K.state desk) (K.state result.desk) }
    ensures tells { (K.state result.desk).tells ≡ (K.state desk).tells }
    ensures hires { HiresAtMost request.now.want (W.told crew.old) (W.told crew.new) }
    ensures causes { HasEachCause result.status (counts_of (K.state desk) 0 (W.faults crew.old))
        (counts_of (K.state result.desk) 0 (W.faults crew.new)) }
{
    match crew.hire(alloc, &request.want) {
        Ok(Hands::Local(mut hands)) => {
            let over = try_with(rt, alloc, machine, request, desk, &mut hands);
            crew.dismiss(Hands::Local(hands));
            over
        }
        Ok(Hands::Remote(mut hands)) => {
            let over = try_with(rt, alloc, machine, request, desk, &mut hands);
            crew.dismiss(Hands::Remote(hands));
            over
        }
        Err(fault) => {
            drop(machine);
            say_unhired(desk, fault)
        }
    }
}

/// Runs the plan of a machine with the hands that were hired for it, in a book that keeps nothing.
fn try_with<K: Desk + Send, P: Performer + Send, R: Threads + Wait + Sync>(
    rt: &R,
    alloc: Global,
    machine: Machine,
    request: &Request,
    desk: K,
    hands: &mut Vec<P>,
) -> Over<K>
    requires fresh { StandsFor machine [] }
    requires said { request.now ≡ spoken_run request.now.want None }
    requires all { vec_len hands.old ≡ number_of request.now.want }
    requires few { AreHands request.now.want }
    requires idle { AllByRecursion IsFresh (map P.did hands.old.items) }
    ensures tried { Tried P.gives request.now.want (WasAsked (K.state desk) (K.state result.desk))
        (Some (map P.did hands.new.items)) (plan_tree machine.plan)
        (K.state desk).shown (K.state result.desk).shown result.status }
    ensures stays { TouchesNoFile (K.state desk) (K.state result.desk) }
    ensures tells { (K.state result.desk).tells ≡ (K.state desk).tells }
    ensures causes { HasEachCause result.status (counts_of (K.state desk) 0 0)
        (counts_of (K.state result.desk) 0 0) }
    ensures back { vec_len hands.new ≡ vec_len hands.old }
{
    match Shelf::volatile(alloc, desk) {
        Ok(shelf) => match shelf.start(machine, false) {
            Ok(book) => run_book(rt, alloc, book, hands, request),
            Err((desk, fault)) => say_unbegun::<K, P>(alloc, desk, fault),
        },
        Err((desk, _)) => Over {
            desk,
            status: OUT_OF_MEMORY,
        },
    }
}
