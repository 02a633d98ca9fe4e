ghost use Rattle.std.specs.Prelude.{◌≡◌, ◌⊎◌, ◌<◌, ◌≤◌, ◌+◌, ℕ, [], IsSome, None, Some, true, false, List, Option, length, slice_index_or, vec_capacity, vec_len};
ghost use Rattle.tf_numbers.specs.Numbers.{Rises};
ghost use Rattle.tf_hands.specs.Hands.{orders};
ghost use Rattle.tf_model.specs.Plan.{entry_bound};
ghost use Rattle.tf_model.specs.History.{flow_of};
ghost use Rattle.tf_model.specs.Steps.{is_last};
ghost use Rattle.tf_actions.specs.declared.orders.Order.{Order as AnOrder};
ghost use Rattle.tf_book.specs.Book.{BookValue, outline, flow_state as state_of};
ghost use Rattle.tf_book.specs.SessionInvariant.{SessionInvariant};
ghost use Rattle.tf_turnstile.specs.Passes.{AreNew};
ghost use Rattle.tf_engines.specs.Asked.{HasDoneBy};
ghost use Rattle.tf_engines.specs.Runs.{MightRecord, HasRun, StandsAs};
ghost use Rattle.tf_book.specs.declared.faults.Halt.TheVariants as halt;
ghost use Rattle.tf_engines.specs.Shared.{IsJustEntered};
ghost use Rattle.tf_engines.specs.Working.{HasDoneSo, IsRun};

use crate::engine::{How, RunEnd};
use crate::hand_loop::Worker;
use crate::hiring::{dismiss, hire, work_through};
use crate::shared::Shared;
use std::alloc::Global;
use std::sync::Wait;
use std::thread::Threads;
use tf_actions::Performer;
use tf_book::Book;
use tf_bound::runs_are_bounded;
use tf_desk::Desk;
use tf_states::FlowState;
use tf_turnstile::{Pass, Turnstile};

/// How a run stopped whose book is halted, or whose flow has a last state.
fn stopped<K: Desk>(book: &Book<K>) -> How
    requires { book.now.halt ≡ None → is_last (state_of book.now) ≡ true }
    ensures { StandsAs book.now.halt (state_of book.now) result }
{
    if let Some(cause) = book.halted() {
        return How::Halted(cause);
    }
    let state = book.state();
    match state {
        FlowState::Suspended => How::Suspended,
        FlowState::Success | FlowState::Failure | FlowState::Reverted => How::Ended(state),
        FlowState::Pending | FlowState::Running | FlowState::Suspending | FlowState::Resuming => {
            unreachable!()
        }
    }
}

/// Halts a book for want of memory where a hand couldn't go on, if it isn't halted.
fn halt_for<K: Desk>(book: &mut Book<K>, failed: bool)
    ensures keeps { (start : BookValue K)
        → SessionInvariant K.state start book.old
        → SessionInvariant K.state start book.new }
    ensures same { book.new ≡ record book.old { halt = book.new.halt } }
    ensures halted { failed ≡ true → IsSome book.new.halt }
    ensures memory { (book.new.halt ≡ book.old.halt) ⊎ (book.new.halt ≡ Some halt.Memory) }
{
    if failed {
        book.halt_for_memory();
    }
}

/// The end of a run whose hands have stopped. Where one of them couldn't go on, the book is halted: if it wasn't
/// before, then for want of memory.
pub(crate) fn conclude<K: Desk, P: Performer>(shared: Shared<K, P>, failed: bool) -> RunEnd<K>
    requires { failed ≡ false → is_last (flow_of shared.now.past) ≡ true }
    ensures run { IsRun K.state P.gives
        shared.number shared.limit shared.start result.book result.how }
    ensures past { result.book.past ≡ shared.now.past }
    ensures orders { (told : Option (List AnOrder)) (base : List AnOrder) (did : Option (List AnOrder))
        (asked : List AnOrder) → HasDoneSo failed told base did asked → HasDoneBy told base did asked result.how }
{
    let mut book = shared.into_book();
    halt_for(&mut book, failed);
    let how = stopped(&book);
    RunEnd { book, how }
}

/// The end of a run for which memory doesn't suffice, and in which no hand has begun.
pub(crate) fn give_up<K: Desk, P: Performer>(shared: Shared<K, P>) -> RunEnd<K>
    requires fresh { IsJustEntered shared }
    ensures run { IsRun K.state P.gives
        shared.number shared.limit shared.start result.book result.how }
    ensures past { result.book.past ≡ shared.now.past }
    ensures orders { (hand : ℕ) (did : Option (List AnOrder))
        → HasDoneBy did (orders (outline shared.start) hand shared.start.past) did
        (orders (outline shared.start) hand result.book.past) result.how }
{
    conclude(shared, true)
}

/// Lets the hands work with their passes, and takes the book back.
fn run_hands<K: Desk + Send, P: Performer + Send, R: Threads + Wait + Sync>(
    rt: &R,
    alloc: Global,
    turnstile: Turnstile<Shared<K, P>>,
    passes: Vec<Pass<Shared<K, P>>>,
    hands: &mut Vec<P>,
    workers: Vec<Worker<K, P>>,
    back: Vec<Pass<Shared<K, P>>>,
) -> RunEnd<K>
    requires fresh { IsJustEntered turnstile.start }
    requires some { 1 ≤ vec_len hands.old }
    requires few { vec_len hands.old ≤ 64 }
    requires number { turnstile.start.number ≡ vec_len hands.old }
    requires passes { (turnstile.passes ≡ vec_len hands.old) × AreNew turnstile passes.items }
    requires workers { (workers.items ≡ []) × (vec_len hands.old ≤ vec_capacity workers) }
    requires back { (back.items ≡ []) × (vec_len hands.old ≤ vec_capacity back) }
    ensures run { IsRun K.state P.gives
        (vec_len hands.old) turnstile.start.limit turnstile.start.start result.book result.how }
    ensures count { vec_len hands.new ≡ vec_len hands.old }
    ensures orders { (i : ℕ) (d : P) → i < vec_len hands.old
        → HasDoneBy (P.did (slice_index_or hands.old.items i d))
        (orders (outline turnstile.start.start) i turnstile.start.start.past)
        (P.did (slice_index_or hands.new.items i d))
        (orders (outline turnstile.start.start) i result.book.past) result.how }
{
    let mut back = back;
    let hired = hire(hands, passes, workers);
    let done = work_through(rt, alloc, &turnstile, hired);
    let failed = dismiss(done, hands, &mut back);
    let shared = turnstile.close(back);
    shared.known();
    conclude(shared, failed)
}

/// Runs a session that was entered. Where memory doesn't suffice for the passes, the book is halted.
fn run_shared<K: Desk + Send, P: Performer + Send, R: Threads + Wait + Sync>(
    rt: &R,
    alloc: Global,
    shared: Shared<K, P>,
    hands: &mut Vec<P>,
) -> RunEnd<K>
    requires fresh { IsJustEntered shared }
    requires some { 1 ≤ vec_len hands.old }
    requires few { vec_len hands.old ≤ 64 }
    requires number { shared.number ≡ vec_len hands.old }
    ensures run { IsRun K.state P.gives
        (vec_len hands.old) shared.limit shared.start result.book result.how }
    ensures count { vec_len hands.new ≡ vec_len hands.old }
    ensures orders { (i : ℕ) (d : P) → i < vec_len hands.old
        → HasDoneBy (P.did (slice_index_or hands.old.items i d)) (orders (outline shared.start) i shared.start.past)
        (P.did (slice_index_or hands.new.items i d)) (orders (outline shared.start) i result.book.past) result.how }
{
    let count = hands.len();
    let Ok(workers) = Vec::with_capacity(alloc, count) else {
        return give_up(shared);
    };
    let Ok(back) = Vec::with_capacity(alloc, count) else {
        return give_up(shared);
    };
    match Turnstile::make(alloc, shared, count as u8) {
        Ok((turnstile, passes)) => run_hands(rt, alloc, turnstile, passes, hands, workers, back),
        Err((shared, _)) => give_up(shared),
    }
}

/// Enters a session, and lets the hands go through it.
fn run_session<K: Desk + Send, P: Performer + Send, R: Threads + Wait + Sync>(
    rt: &R,
    alloc: Global,
    book: Book<K>,
    hands: &mut Vec<P>,
    limit: Option<u32>,
) -> RunEnd<K>
    requires some { 1 ≤ vec_len hands.old }
    requires few { vec_len hands.old ≤ 64 }
    ensures run { IsRun K.state P.gives
        (vec_len hands.old) limit book result.book result.how }
    ensures count { vec_len hands.new ≡ vec_len hands.old }
    ensures orders { (i : ℕ) (d : P) → i < vec_len hands.old
        → HasDoneBy (P.did (slice_index_or hands.old.items i d)) (orders (outline book) i book.past)
        (P.did (slice_index_or hands.new.items i d)) (orders (outline book) i result.book.past) result.how }
{
    match Shared::enter(book, limit, hands.len() as u8) {
        Ok(shared) => run_shared(rt, alloc, shared, hands),
        Err(end) => end,
    }
}

/// Runs a book's flow with 1 to 64 hands, which record as hands 0, 1 and so on in the list's order and work at the
/// same time, and gives the book back with how it stopped. It promises what `serial` does. Hand 0 enters the session.
/// To each hand were given the orders of the starts and restarts that it recorded, in order, each once; only where the
/// book was halted the last one of a hand may be missing. The hands come back in their order.
pub fn parallel<K: Desk + Send, P: Performer + Send, R: Threads + Wait + Sync>(
    rt: &R,
    alloc: Global,
    book: Book<K>,
    hands: &mut Vec<P>,
    limit: Option<u32>,
) -> RunEnd<K>
    requires some { 1 ≤ vec_len hands.old }
    requires few { vec_len hands.old ≤ 64 }
    ensures keeps { (start : BookValue K)
        → SessionInvariant K.state start book
        → SessionInvariant K.state start result.book }
    ensures stops { StandsAs result.book.halt (state_of result.book) result.how }
    ensures failed { book.halt ≡ None → MightRecord P.gives (vec_len hands.old) result.book }
    ensures plan { result.book.plan ≡ book.plan }
    ensures ran { HasRun P.gives (Rises (K.state book.journal.desk).asks (K.state result.book.journal.desk).asks)
        (vec_len hands.old) limit (outline book) book.past result.book.past result.how }
    ensures asks { (K.state book.journal.desk).asks ≤ (K.state result.book.journal.desk).asks }
    ensures count { vec_len hands.new ≡ vec_len hands.old }
    ensures orders { (i : ℕ) (d : P) → i < vec_len hands.old
        → HasDoneBy (P.did (slice_index_or hands.old.items i d)) (orders (outline book) i book.past)
        (P.did (slice_index_or hands.new.items i d)) (orders (outline book) i result.book.past) result.how }
    ensures bound { length result.book.past ≤ length book.past + entry_bound book.plan }
{
    let _before = book.state();
    runs_are_bounded();
    let end = run_session(rt, alloc, book, hands, limit);
    let _after = end.book.state();
    end
}
