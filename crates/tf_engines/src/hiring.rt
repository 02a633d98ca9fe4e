// Several hands at work: each gets a pass, works in a thread of its own, and comes back.
ghost use Rattle.std.specs.Prelude.{◌≡◌, ◌<◌, ◌≤◌, ◌++◌, ℕ, [], false, length, map, slice_index_or, vec_capacity, vec_len};
ghost use Rattle.std.specs.List.{All};
ghost use Rattle.tf_engines.specs.Working.{HasWorked, IsOpenedFor, IsReadyToTurn};

use crate::hand_loop::{Worker, work};
use crate::shared::Shared;
use std::alloc::Global;
use std::sync::Wait;
use std::thread;
use std::thread::Threads;
use tf_actions::Performer;
use tf_desk::Desk;
use tf_turnstile::{Pass, Turnstile};

/// The most threads, one for each hand.
const THREADS: usize = 64;

/// Each hand with its pass, in their order. The hands' list keeps its room.
pub(crate) fn hire<K: Desk, P: Performer>(
    hands: &mut Vec<P>,
    passes: Vec<Pass<Shared<K, P>>>,
    room: Vec<Worker<K, P>>,
) -> Vec<Worker<K, P>>
    requires count { vec_len passes ≡ vec_len hands.old }
    requires room { (room.items ≡ []) × (vec_len passes ≤ vec_capacity room) }
    ensures hands { map (λ w. w.hand) result.items ++ hands.new.items ≡ hands.old.items }
    ensures passes { map (λ w. w.pass) result.items ≡ passes.items }
    ensures count { vec_len result ≡ vec_len passes }
    ensures empty { hands.new.items ≡ [] }
    ensures kept { vec_capacity hands.new ≡ vec_capacity hands.old }
{
    let mut workers = room;
    for pass in passes {
        let hand = hands.remove(0);
        workers.push_reserved(Worker {
            hand,
            pass,
            failed: true,
        });
    }
    workers
}

/// The hands and their passes back, in their order. Whether a hand couldn't go on.
pub(crate) fn dismiss<K: Desk, P: Performer>(
    workers: Vec<Worker<K, P>>,
    hands: &mut Vec<P>,
    passes: &mut Vec<Pass<Shared<K, P>>>,
) -> bool
    requires hands { (hands.old.items ≡ []) × (vec_len workers ≤ vec_capacity hands.old) }
    requires passes { (passes.old.items ≡ []) × (vec_len workers ≤ vec_capacity passes.old) }
    ensures hands { hands.new.items ≡ map (λ w. w.hand) workers.items }
    ensures passes { passes.new.items ≡ map (λ w. w.pass) workers.items }
    ensures failed { result ≡ false → All (λ w. w.failed ≡ false) workers.items }
{
    let mut failed = false;
    for worker in workers {
        let Worker {
            hand,
            pass,
            failed: this,
        } = worker;
        hands.push_reserved(hand);
        passes.push_reserved(pass);
        if this {
            failed = true;
        }
    }
    failed
}

/// All hands work, each in a thread of its own where there are threads, until each has stopped.
pub(crate) fn work_all<K: Desk + Send, P: Performer + Send, R: Threads + Wait + Sync>(
    rt: &R,
    alloc: Global,
    turnstile: &Turnstile<Shared<K, P>>,
    workers: &mut [Worker<K, P>],
)
    requires each { (i : ℕ) (d : _) → i < length workers.old
        → IsOpenedFor turnstile.now i × IsReadyToTurn turnstile.now i (slice_index_or workers.old i d).pass }
    ensures { (i : ℕ) (d : _) → i < length workers.old
        → HasWorked turnstile.now i (slice_index_or workers.old i d).pass (slice_index_or workers.new i d).pass
        (P.did (slice_index_or workers.old i d).hand) (P.did (slice_index_or workers.new i d).hand)
        (slice_index_or workers.new i d).failed }
{
    let turns = |i: usize, worker: &mut Worker<K, P>|
        requires { IsOpenedFor turnstile.now i × IsReadyToTurn turnstile.now i worker.now.pass }
        ensures { HasWorked turnstile.entry.now i worker.entry.now.pass worker.exit.now.pass
            (P.did worker.entry.now.hand) (P.did worker.exit.now.hand) worker.exit.now.failed }
    { work(rt, alloc, turnstile, worker, i as u8) };
    thread::for_each_mut(rt, workers, THREADS, &turns);
}

/// The same of the hands of a list, which come back in it.
pub(crate) fn work_through<K: Desk + Send, P: Performer + Send, R: Threads + Wait + Sync>(
    rt: &R,
    alloc: Global,
    turnstile: &Turnstile<Shared<K, P>>,
    workers: Vec<Worker<K, P>>,
) -> Vec<Worker<K, P>>
    requires each { (i : ℕ) (d : _) → i < length workers.items
        → IsOpenedFor turnstile.now i × IsReadyToTurn turnstile.now i (slice_index_or workers.items i d).pass }
    ensures count { length result.items ≡ length workers.items }
    ensures worked { (i : ℕ) (d : _) → i < length workers.items
        → HasWorked turnstile.now i (slice_index_or workers.items i d).pass (slice_index_or result.items i d).pass
        (P.did (slice_index_or workers.items i d).hand) (P.did (slice_index_or result.items i d).hand)
        (slice_index_or result.items i d).failed }
{
    let mut workers = workers;
    work_all(rt, alloc, turnstile, workers.as_mut_slice());
    workers
}
