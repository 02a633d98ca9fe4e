//! Several hands that take turns on one thread, in an order that is given.
ghost use Rattle.std.specs.Prelude.{◌≡◌, ◌≢◌, ◌<◌, ◌≤◌, ◌+◌, ℕ, None, Some, true, false, List, Option, length, slice_index_or, vec_len, IfNone, IfSome, IfOk};
ghost use Rattle.tf_numbers.specs.Numbers.{Rises};
ghost use Rattle.tf_states.specs.declared.record.Entry.{Entry as Record};
ghost use Rattle.tf_hands.specs.Hands.{HasOrder, orders};
ghost use Rattle.tf_model.specs.Plan.{entry_bound};
ghost use Rattle.tf_model.specs.History.{flow_of};
ghost use Rattle.tf_model.specs.Steps.{is_last};
ghost use Rattle.tf_actions.specs.Gives.{IsWhole};
ghost use Rattle.tf_actions.specs.declared.orders.Order.{Order as AnOrder};
ghost use Rattle.tf_book.specs.Book.{BookValue, outline, flow_state as state_of};
ghost use Rattle.tf_book.specs.SessionInvariant.{SessionInvariant};
ghost use Rattle.tf_engines.specs.Asked.{HasDoneBy, HasToDo};
ghost use Rattle.tf_engines.specs.Runs.{MightRecord, HasRun, StandsAs};
ghost use Rattle.tf_engines.specs.Shared.{IsJustEntered, origin_of};
ghost use Rattle.tf_engines.specs.Taking.{step_by, HasSeat, HasGiven, HasStep, HasDoneStep, HasMovedTo, IsTurnBy, AreTurns, TakesTurns, RanByTurns, IsRoundAt, AreEmpty, AreSeated, AllGiven, AllDone};
ghost use Rattle.tf_engines.specs.Working.{IsAdded, IsRun};

use crate::engine::RunEnd;
use crate::many_hands::{conclude, give_up};
use crate::shared::Shared;
use crate::turns::Next;
use std::alloc::Global;
use tf_actions::{Order, Performer};
use tf_book::Book;
use tf_bound::runs_are_bounded;
use tf_desk::Desk;
use tf_values::Memory;

/// What a turn of a hand leaves: it goes on, and performs that order in its next turn if it has one; or it stops, since
/// the flow has stopped or since it can't go on.
#[derive(Drop)]
pub(crate) enum Step {
    Goes(Option<Order>),
    Stop,
    Fail,
}

/// What the hand does after a turn of the book.
fn after(next: Next) -> Step
    ensures { result ≡ step_by next }
{
    match next {
        Next::Perform(order) => Step::Goes(Some(order)),
        Next::Wait => Step::Goes(None),
        Next::Stop => Step::Stop,
        Next::Fail => Step::Fail,
    }
}

/// Performs the order that the hand has, and records the end of its task.
fn perform<K: Desk, P: Performer>(
    alloc: Global,
    shared: &mut Shared<K, P>,
    hand: &mut P,
    order: Order,
    number: u8,
) -> Step
    requires number { number < shared.old.number }
    requires has { HasOrder (outline shared.old.start) shared.old.now.past number order }
    requires whole { IsWhole order }
    ensures origin { origin_of shared.new ≡ origin_of shared.old }
    ensures added { IsAdded number shared.old.now.past shared.new.now.past }
    ensures has { HasStep (outline shared.old.start) shared.new.now.past number result }
    ensures moved { HasMovedTo (outline shared.old.start) shared.new.now.past number (Some order) result }
    ensures orders { (told : Option (List AnOrder)) (base : List AnOrder)
        → HasToDo told base (P.did hand.old) (orders (outline shared.old.start) number shared.old.now.past) order
        → HasDoneStep told base (P.did hand.new) (orders (outline shared.old.start) number shared.new.now.past) result }
{
    let Ok(outcome) = hand.perform(alloc, &order) else {
        shared.halt();
        return Step::Fail;
    };
    if shared.finish(number, outcome) {
        return Step::Goes(None);
    }
    Step::Fail
}

/// One turn of a hand: it performs the order that it has and records the end of its task, or else takes the next turn
/// of the book.
fn turn<K: Desk, P: Performer>(
    alloc: Global,
    shared: &mut Shared<K, P>,
    hand: &mut P,
    order: Option<Order>,
    number: u8,
) -> Step
    requires number { number < shared.old.number }
    requires has { HasSeat (outline shared.old.start) shared.old.now.past number order }
    ensures origin { origin_of shared.new ≡ origin_of shared.old }
    ensures added { IsAdded number shared.old.now.past shared.new.now.past }
    ensures has { HasStep (outline shared.old.start) shared.new.now.past number result }
    ensures moved { HasMovedTo (outline shared.old.start) shared.new.now.past number order result }
    ensures orders { (told : Option (List AnOrder)) (base : List AnOrder)
        → HasGiven told base (P.did hand.old) (orders (outline shared.old.start) number shared.old.now.past) order
        → HasDoneStep told base (P.did hand.new) (orders (outline shared.old.start) number shared.new.now.past) result }
{
    match order {
        Some(order) => perform(alloc, shared, hand, order, number),
        None => {
            let next = shared.next(number);
            after(next)
        }
    }
}

/// Takes the order of the hand at that place.
fn take_order(seats: &mut Vec<Option<Order>>, place: usize) -> Option<Order>
    requires { place < vec_len seats.old }
    ensures value { result ≡ slice_index_or seats.old.items place None }
    ensures others { (i : ℕ) → i ≢ place
        → slice_index_or seats.new.items i None ≡ slice_index_or seats.old.items i None }
    ensures count { vec_len seats.new ≡ vec_len seats.old }
{
    seats[place].take()
}

/// Keeps an order for the hand at that place, or none.
fn keep_order(seats: &mut Vec<Option<Order>>, place: usize, order: Option<Order>)
    requires { place < vec_len seats.old }
    ensures value { slice_index_or seats.new.items place None ≡ order }
    ensures others { (i : ℕ) → i ≢ place
        → slice_index_or seats.new.items i None ≡ slice_index_or seats.old.items i None }
    ensures count { vec_len seats.new ≡ vec_len seats.old }
{
    seats[place] = order;
}

/// One turn of the hand of that number.
fn turn_at<K: Desk, P: Performer>(
    alloc: Global,
    shared: &mut Shared<K, P>,
    hands: &mut Vec<P>,
    order: Option<Order>,
    number: u8,
) -> Step
    requires there { number < vec_len hands.old }
    requires number { shared.old.number ≡ vec_len hands.old }
    requires has { HasSeat (outline shared.old.start) shared.old.now.past number order }
    ensures origin { origin_of shared.new ≡ origin_of shared.old }
    ensures added { IsAdded number shared.old.now.past shared.new.now.past }
    ensures has { HasStep (outline shared.old.start) shared.new.now.past number result }
    ensures moved { HasMovedTo (outline shared.old.start) shared.new.now.past number order result }
    ensures orders { (told : Option (List AnOrder)) (base : List AnOrder) (d : P)
        → HasGiven told base (P.did (slice_index_or hands.old.items number d))
        (orders (outline shared.old.start) number shared.old.now.past) order
        → HasDoneStep told base (P.did (slice_index_or hands.new.items number d))
        (orders (outline shared.old.start) number shared.new.now.past) result }
    ensures others { (i : ℕ) (d : P) → i ≢ number
        → slice_index_or hands.new.items i d ≡ slice_index_or hands.old.items i d }
    ensures count { vec_len hands.new ≡ vec_len hands.old }
{
    turn(alloc, shared, &mut hands[number as usize], order, number)
}

/// The turn of the hand of that number, of all hands with their orders. `None` where the run goes on, and else whether
/// the hand couldn't.
fn turn_of<K: Desk, P: Performer>(
    alloc: Global,
    shared: &mut Shared<K, P>,
    hands: &mut Vec<P>,
    seats: &mut Vec<Option<Order>>,
    number: u8,
) -> Option<bool>
    requires number { number < vec_len hands.old }
    requires count { (shared.old.number ≡ vec_len hands.old) × (vec_len seats.old ≡ vec_len hands.old) }
    requires seated { AreSeated (outline shared.old.start) shared.old.now.past seats.old.items }
    ensures origin { origin_of shared.new ≡ origin_of shared.old }
    ensures count { (vec_len hands.new ≡ vec_len hands.old) × (vec_len seats.new ≡ vec_len hands.old) }
    ensures added { IsAdded number shared.old.now.past shared.new.now.past }
    ensures turn { IfNone result
        (IsTurnBy (outline shared.old.start) number shared.old.now.past shared.new.now.past) }
    ensures seated { IfNone result (AreSeated (outline shared.old.start) shared.new.now.past seats.new.items) }
    ensures goes { (told : ℕ → Option (List AnOrder)) (base : ℕ → List AnOrder)
        → AllGiven P.did (outline shared.old.start) shared.old.now.past told base hands.old.items seats.old.items
        → IfNone result
        (AllGiven P.did (outline shared.old.start) shared.new.now.past told base hands.new.items seats.new.items) }
    ensures stops { (told : ℕ → Option (List AnOrder)) (base : ℕ → List AnOrder)
        → AllGiven P.did (outline shared.old.start) shared.old.now.past told base hands.old.items seats.old.items
        → IfSome result (λ failed. AllDone P.did (outline shared.old.start) shared.new.now.past failed told base
        hands.new.items) }
    ensures last { IfSome result (λ failed. failed ≡ false → is_last (flow_of shared.new.now.past) ≡ true) }
{
    let place = number as usize;
    let order = take_order(seats, place);
    let step = turn_at(alloc, shared, hands, order, number);
    shared.known();
    match step {
        Step::Goes(next) => {
            keep_order(seats, place, next);
            None
        }
        Step::Stop => Some(false),
        Step::Fail => Some(true),
    }
}

/// The turns that are picked: each pick is taken modulo the number of the hands.
fn take_picked<K: Desk, P: Performer>(
    alloc: Global,
    shared: &mut Shared<K, P>,
    hands: &mut Vec<P>,
    seats: &mut Vec<Option<Order>>,
    picks: &[u8],
) -> Option<bool>
    requires some { (1 ≤ vec_len hands.old) × (vec_len hands.old ≤ 64) }
    requires count { (shared.old.number ≡ vec_len hands.old) × (vec_len seats.old ≡ vec_len hands.old) }
    requires seated { AreSeated (outline shared.old.start) shared.old.now.past seats.old.items }
    ensures origin { origin_of shared.new ≡ origin_of shared.old }
    ensures count { (vec_len hands.new ≡ vec_len hands.old) × (vec_len seats.new ≡ vec_len hands.old) }
    ensures turns { IfNone result (AreTurns (outline shared.old.start) picks.now (vec_len hands.old)
        (length picks.now) shared.old.now.past shared.new.now.past) }
    ensures taken { IfSome result (λ failed. TakesTurns (outline shared.old.start) picks.now (vec_len hands.old)
        shared.old.now.past shared.new.now.past) }
    ensures seated { IfNone result (AreSeated (outline shared.old.start) shared.new.now.past seats.new.items) }
    ensures goes { (told : ℕ → Option (List AnOrder)) (base : ℕ → List AnOrder)
        → AllGiven P.did (outline shared.old.start) shared.old.now.past told base hands.old.items seats.old.items
        → IfNone result
        (AllGiven P.did (outline shared.old.start) shared.new.now.past told base hands.new.items seats.new.items) }
    ensures stops { (told : ℕ → Option (List AnOrder)) (base : ℕ → List AnOrder)
        → AllGiven P.did (outline shared.old.start) shared.old.now.past told base hands.old.items seats.old.items
        → IfSome result (λ failed. AllDone P.did (outline shared.old.start) shared.new.now.past failed told base
        hands.new.items) }
    ensures last { IfSome result (λ failed. failed ≡ false → is_last (flow_of shared.new.now.past) ≡ true) }
{
    let count = hands.len() as u8;
    for pick in picks {
        let number = *pick % count;
        if let Some(failed) = turn_of(alloc, shared, hands, seats, number) {
            return Some(failed);
        }
    }
    None
}

/// One turn of each hand, from hand 0 on. Where the run goes on behind them, something was recorded.
fn take_round<K: Desk, P: Performer>(
    alloc: Global,
    shared: &mut Shared<K, P>,
    hands: &mut Vec<P>,
    seats: &mut Vec<Option<Order>>,
) -> Option<bool>
    requires some { (1 ≤ vec_len hands.old) × (vec_len hands.old ≤ 64) }
    requires count { (shared.old.number ≡ vec_len hands.old) × (vec_len seats.old ≡ vec_len hands.old) }
    requires seated { AreSeated (outline shared.old.start) shared.old.now.past seats.old.items }
    ensures origin { origin_of shared.new ≡ origin_of shared.old }
    ensures count { (vec_len hands.new ≡ vec_len hands.old) × (vec_len seats.new ≡ vec_len hands.old) }
    ensures turns { (picks : List ℕ) (first : List Record)
        → IsRoundAt (outline shared.old.start) picks (vec_len hands.old) first shared.old.now.past
        → IfNone result (IsRoundAt (outline shared.old.start) picks (vec_len hands.old) first shared.new.now.past) }
    ensures taken { (picks : List ℕ) (first : List Record)
        → IsRoundAt (outline shared.old.start) picks (vec_len hands.old) first shared.old.now.past
        → IfSome result (λ failed. TakesTurns (outline shared.old.start) picks (vec_len hands.old) first
        shared.new.now.past) }
    ensures grows { IfNone result (length shared.old.now.past < length shared.new.now.past) }
    ensures seated { IfNone result (AreSeated (outline shared.old.start) shared.new.now.past seats.new.items) }
    ensures goes { (told : ℕ → Option (List AnOrder)) (base : ℕ → List AnOrder)
        → AllGiven P.did (outline shared.old.start) shared.old.now.past told base hands.old.items seats.old.items
        → IfNone result
        (AllGiven P.did (outline shared.old.start) shared.new.now.past told base hands.new.items seats.new.items) }
    ensures stops { (told : ℕ → Option (List AnOrder)) (base : ℕ → List AnOrder)
        → AllGiven P.did (outline shared.old.start) shared.old.now.past told base hands.old.items seats.old.items
        → IfSome result (λ failed. AllDone P.did (outline shared.old.start) shared.new.now.past failed told base
        hands.new.items) }
    ensures last { IfSome result (λ failed. failed ≡ false → is_last (flow_of shared.new.now.past) ≡ true) }
{
    let count = hands.len() as u8;
    for number in 0..count {
        if let Some(failed) = turn_of(alloc, shared, hands, seats, number) {
            return Some(failed);
        }
    }
    None
}

/// The turns after the picks: one of each hand after another, until the run stops. Whether a hand couldn't go on.
fn take_rounds<K: Desk, P: Performer>(
    alloc: Global,
    shared: &mut Shared<K, P>,
    hands: &mut Vec<P>,
    seats: &mut Vec<Option<Order>>,
) -> bool
    requires some { (1 ≤ vec_len hands.old) × (vec_len hands.old ≤ 64) }
    requires count { (shared.old.number ≡ vec_len hands.old) × (vec_len seats.old ≡ vec_len hands.old) }
    requires seated { AreSeated (outline shared.old.start) shared.old.now.past seats.old.items }
    ensures origin { origin_of shared.new ≡ origin_of shared.old }
    ensures count { vec_len hands.new ≡ vec_len hands.old }
    ensures taken { (picks : List ℕ) (first : List Record)
        → IsRoundAt (outline shared.old.start) picks (vec_len hands.old) first shared.old.now.past
        → TakesTurns (outline shared.old.start) picks (vec_len hands.old) first shared.new.now.past }
    ensures done { (told : ℕ → Option (List AnOrder)) (base : ℕ → List AnOrder)
        → AllGiven P.did (outline shared.old.start) shared.old.now.past told base hands.old.items seats.old.items
        → AllDone P.did (outline shared.old.start) shared.new.now.past result told base hands.new.items }
    ensures last { result ≡ false → is_last (flow_of shared.new.now.past) ≡ true }
{
    'rounds: loop {
        shared.known();
        if let Some(failed) = take_round(alloc, shared, hands, seats) {
            return failed;
        }
    }
}

/// All turns of the hands, until the flow has stopped or a hand can't go on. Whether one couldn't.
fn take_turns<K: Desk, P: Performer>(
    alloc: Global,
    shared: &mut Shared<K, P>,
    hands: &mut Vec<P>,
    seats: Vec<Option<Order>>,
    picks: &[u8],
) -> bool
    requires some { (1 ≤ vec_len hands.old) × (vec_len hands.old ≤ 64) }
    requires count { (shared.old.number ≡ vec_len hands.old) × (vec_len seats ≡ vec_len hands.old) }
    requires seated { AreSeated (outline shared.old.start) shared.old.now.past seats.items }
    ensures origin { origin_of shared.new ≡ origin_of shared.old }
    ensures count { vec_len hands.new ≡ vec_len hands.old }
    ensures taken { TakesTurns (outline shared.old.start) picks.now (vec_len hands.old) shared.old.now.past
        shared.new.now.past }
    ensures done { (told : ℕ → Option (List AnOrder)) (base : ℕ → List AnOrder)
        → AllGiven P.did (outline shared.old.start) shared.old.now.past told base hands.old.items seats.items
        → AllDone P.did (outline shared.old.start) shared.new.now.past result told base hands.new.items }
    ensures last { result ≡ false → is_last (flow_of shared.new.now.past) ≡ true }
{
    let mut seats = seats;
    if let Some(failed) = take_picked(alloc, shared, hands, &mut seats, picks) {
        return failed;
    }
    take_rounds(alloc, shared, hands, &mut seats)
}

/// A place for the order of each hand, of which none has one.
fn make_seats(alloc: Global, count: usize) -> Result<Vec<Option<Order>>, Memory>
    ensures count { IfOk result (λ seats. vec_len seats ≡ count) }
    ensures empty { IfOk result (λ seats. AreEmpty seats.items) }
{
    let mut seats = Vec::with_capacity(alloc, count)?;
    for _ in 0..count {
        seats.push(None)?;
    }
    Ok(seats)
}

/// Runs a session that was entered. Where memory doesn't suffice for the hands' orders, the book is halted.
fn run_shared<K: Desk, P: Performer>(
    alloc: Global,
    shared: Shared<K, P>,
    hands: &mut Vec<P>,
    picks: &[u8],
) -> RunEnd<K>
    requires fresh { IsJustEntered shared }
    requires some { (1 ≤ vec_len hands.old) × (vec_len hands.old ≤ 64) }
    requires number { shared.number ≡ vec_len hands.old }
    ensures run { IsRun K.state P.gives
        (vec_len hands.old) shared.limit shared.start result.book result.how }
    ensures count { vec_len hands.new ≡ vec_len hands.old }
    ensures taken { TakesTurns (outline shared.start) picks.now (vec_len hands.old) shared.now.past
        result.book.past }
    ensures orders { (i : ℕ) (d : P) → i < vec_len hands.old
        → HasDoneBy (P.did (slice_index_or hands.old.items i d)) (orders (outline shared.start) i shared.start.past)
        (P.did (slice_index_or hands.new.items i d)) (orders (outline shared.start) i result.book.past) result.how }
{
    let mut shared = shared;
    let Ok(seats) = make_seats(alloc, hands.len()) else {
        return give_up(shared);
    };
    let failed = take_turns(alloc, &mut shared, hands, seats, picks);
    conclude(shared, failed)
}

/// Enters a session, and lets the hands go through it.
fn run_session<K: Desk, P: Performer>(
    alloc: Global,
    book: Book<K>,
    hands: &mut Vec<P>,
    picks: &[u8],
    limit: Option<u32>,
) -> RunEnd<K>
    requires some { 1 ≤ vec_len hands.old }
    requires few { vec_len hands.old ≤ 64 }
    ensures run { IsRun K.state P.gives
        (vec_len hands.old) limit book result.book result.how }
    ensures count { vec_len hands.new ≡ vec_len hands.old }
    ensures turns { RanByTurns (outline book) picks.now (vec_len hands.old) book.past result.book.past }
    ensures orders { (i : ℕ) (d : P) → i < vec_len hands.old
        → HasDoneBy (P.did (slice_index_or hands.old.items i d)) (orders (outline book) i book.past)
        (P.did (slice_index_or hands.new.items i d)) (orders (outline book) i result.book.past) result.how }
{
    match Shared::enter(book, limit, hands.len() as u8) {
        Ok(shared) => run_shared(alloc, shared, hands, picks),
        Err(end) => end,
    }
}

/// Runs a book's flow with 1 to 64 hands on one thread, which record as hands 0, 1 and so on in the list's order, and
/// gives the book back with how it stopped. Hand 0 enters the session. Turn i, from 0, is that of the hand `picks[i]`
/// modulo their number; after the picks the hands take turns from hand 0. A hand that has an order performs it in its
/// turn, and its end is recorded; another takes the next turn of the book. It promises what `parallel` does. An order
/// that its hand hadn't performed when the book was halted isn't performed.
pub fn interleaved<K: Desk, P: Performer>(
    alloc: Global,
    book: Book<K>,
    hands: &mut Vec<P>,
    picks: &[u8],
    limit: Option<u32>,
) -> RunEnd<K>
    requires some { 1 ≤ vec_len hands.old }
    requires few { vec_len hands.old ≤ 64 }
    ensures keeps { (start : BookValue K)
        → SessionInvariant K.state start book
        → SessionInvariant K.state start result.book }
    ensures stops { StandsAs result.book.halt (state_of result.book) result.how }
    ensures failed { book.halt ≡ None → MightRecord P.gives (vec_len hands.old) result.book }
    ensures plan { result.book.plan ≡ book.plan }
    ensures ran { HasRun P.gives (Rises (K.state book.journal.desk).asks (K.state result.book.journal.desk).asks)
        (vec_len hands.old) limit (outline book) book.past result.book.past result.how }
    ensures asks { (K.state book.journal.desk).asks ≤ (K.state result.book.journal.desk).asks }
    ensures count { vec_len hands.new ≡ vec_len hands.old }
    ensures turns { RanByTurns (outline book) picks.now (vec_len hands.old) book.past result.book.past }
    ensures orders { (i : ℕ) (d : P) → i < vec_len hands.old
        → HasDoneBy (P.did (slice_index_or hands.old.items i d)) (orders (outline book) i book.past)
        (P.did (slice_index_or hands.new.items i d)) (orders (outline book) i result.book.past) result.how }
    ensures bound { length result.book.past ≤ length book.past + entry_bound book.plan }
{
    let _before = book.state();
    runs_are_bounded();
    let end = run_session(alloc, book, hands, picks, limit);
    let _after = end.book.state();
    end
}
