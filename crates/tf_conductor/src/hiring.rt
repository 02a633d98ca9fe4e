// Conductors at work: each gets a pass, works in a thread of its own, and comes back.
ghost use Rattle.std.specs.Prelude.{◌≡◌, ◌<◌, ◌≤◌, ◌++◌, ℕ, [], false, length, map, slice_index_or, vec_capacity, vec_len};
ghost use Rattle.std.specs.List.{All};
ghost use Rattle.tf_conductor.specs.Working.{HasWorkedAs, IsAppointed};

use crate::conductors::{Conductor, work};
use crate::runners::Runner;
use crate::turns::Conducting;
use std::alloc::Global;
use std::sync::Wait;
use std::thread;
use std::thread::Threads;
use tf_desk::Desk;
use tf_turnstile::{Pass, Turnstile};
use tf_values::Names;

/// The most threads, one for each conductor.
const THREADS: usize = 64;

/// Each runner with its pass, in their order. The runners' list keeps its room.
pub(crate) fn hire<K: Desk, P: Runner>(
    runners: &mut Vec<P>,
    passes: Vec<Pass<Conducting<K>>>,
    room: Vec<Conductor<K, P>>,
) -> Vec<Conductor<K, P>>
    requires count { vec_len passes ≡ vec_len runners.old }
    requires room { (room.items ≡ []) × (vec_len passes ≤ vec_capacity room) }
    ensures runners { map (λ w. w.runner) result.items ++ runners.new.items ≡ runners.old.items }
    ensures passes { map (λ w. w.pass) result.items ≡ passes.items }
    ensures count { vec_len result ≡ vec_len passes }
    ensures empty { runners.new.items ≡ [] }
    ensures kept { vec_capacity runners.new ≡ vec_capacity runners.old }
{
    let mut conductors = room;
    for pass in passes {
        let runner = runners.remove(0);
        conductors.push_reserved(Conductor {
            runner,
            pass,
            halted: true,
        });
    }
    conductors
}

/// The runners and their passes back, in their order. Whether one stopped at a halt.
pub(crate) fn dismiss<K: Desk, P: Runner>(
    conductors: Vec<Conductor<K, P>>,
    runners: &mut Vec<P>,
    passes: &mut Vec<Pass<Conducting<K>>>,
) -> bool
    requires runners { (runners.old.items ≡ []) × (vec_len conductors ≤ vec_capacity runners.old) }
    requires passes { (passes.old.items ≡ []) × (vec_len conductors ≤ vec_capacity passes.old) }
    ensures runners { runners.new.items ≡ map (λ w. w.runner) conductors.items }
    ensures passes { passes.new.items ≡ map (λ w. w.pass) conductors.items }
    ensures halted { result ≡ false → All (λ w. w.halted ≡ false) conductors.items }
{
    let mut halted = false;
    for conductor in conductors {
        let Conductor {
            runner,
            pass,
            halted: this,
        } = conductor;
        runners.push_reserved(runner);
        passes.push_reserved(pass);
        if this {
            halted = true;
        }
    }
    halted
}

/// All conductors work, each in a thread of its own where there are threads, until each has stopped.
pub(crate) fn work_all<K: Desk + Send, P: Runner + Send, T: Threads + Wait + Sync>(
    rt: &T,
    alloc: Global,
    turnstile: &Turnstile<Conducting<K>>,
    owners: &Names,
    conductors: &mut [Conductor<K, P>],
)
    requires each { (i : ℕ) (d : _) → i < length conductors.old
        → IsAppointed turnstile.now owners.now i (slice_index_or conductors.old i d).pass }
    ensures { (i : ℕ) (d : _) → i < length conductors.old
        → HasWorkedAs turnstile.now i (P.gives (slice_index_or conductors.old i d).runner)
        (P.gives (slice_index_or conductors.new i d).runner) (P.did (slice_index_or conductors.old i d).runner)
        (P.did (slice_index_or conductors.new i d).runner) (slice_index_or conductors.new i d).pass
        (slice_index_or conductors.new i d).halted }
{
    let turns = |i: usize, conductor: &mut Conductor<K, P>|
        requires { IsAppointed turnstile.now owners.now i conductor.now.pass }
        ensures { HasWorkedAs turnstile.entry.now i (P.gives conductor.entry.now.runner)
            (P.gives conductor.exit.now.runner) (P.did conductor.entry.now.runner)
            (P.did conductor.exit.now.runner) conductor.exit.now.pass conductor.exit.now.halted }
    { work(rt, alloc, turnstile, conductor, i as u8, &owners.items()[i]) };
    thread::for_each_mut(rt, conductors, THREADS, &turns);
}

/// The same of the conductors of a list, which come back in it.
pub(crate) fn work_through<K: Desk + Send, P: Runner + Send, T: Threads + Wait + Sync>(
    rt: &T,
    alloc: Global,
    turnstile: &Turnstile<Conducting<K>>,
    owners: &Names,
    conductors: Vec<Conductor<K, P>>,
) -> Vec<Conductor<K, P>>
    requires each { (i : ℕ) (d : _) → i < length conductors.items
        → IsAppointed turnstile.now owners.now i (slice_index_or conductors.items i d).pass }
    ensures count { length result.items ≡ length conductors.items }
    ensures worked { (i : ℕ) (d : _) → i < length conductors.items
        → HasWorkedAs turnstile.now i (P.gives (slice_index_or conductors.items i d).runner)
        (P.gives (slice_index_or result.items i d).runner) (P.did (slice_index_or conductors.items i d).runner)
        (P.did (slice_index_or result.items i d).runner) (slice_index_or result.items i d).pass
        (slice_index_or result.items i d).halted }
{
    let mut conductors = conductors;
    work_all(rt, alloc, turnstile, owners, conductors.as_mut_slice());
    conductors
}
