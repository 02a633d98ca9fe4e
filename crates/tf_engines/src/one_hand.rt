ghost use Rattle.std.specs.Prelude.{◌≡◌, ◌<◌, ◌≤◌, ◌+◌, ◌-◌, ℕ, None, Some, true, List, Option, length, IfSome, IfNone, IsSome};
ghost use Rattle.tf_numbers.specs.Numbers.{Rises};
ghost use Rattle.tf_states.specs.declared.record.Entry.{Entry as Record};
ghost use Rattle.tf_states.specs.declared.state.FlowState.TheVariants as flow;
ghost use Rattle.tf_hands.specs.Hands.{orders};
ghost use Rattle.tf_model.specs.Plan.{entry_bound};
ghost use Rattle.tf_model.specs.Steps.{LegalPast};
ghost use Rattle.tf_actions.specs.declared.orders.Order.{Order as AnOrder};
ghost use Rattle.tf_book.specs.Book.{BookValue, outline, moment, flow_state as state_of};
ghost use Rattle.tf_book.specs.SessionInvariant.{SessionInvariant};
ghost use Rattle.tf_engines.specs.Asked.{HasDone, HasToDo, HasDoneBy};
ghost use Rattle.tf_engines.specs.Runs.{MightRecord, IsUnderWay, HasRun, HaltsAs, StandsAs, IsBetweenTurns, IsPerforming};

use crate::engine::{How, RunEnd};
use std::alloc::Global;
use tf_actions::{Order, Performer};
use tf_book::{Book, Entered, Turn};
use tf_bound::runs_are_bounded;
use tf_desk::Desk;

/// The number of the one hand.
const HAND: u8 = 0;

/// How a book that is halted stopped.
pub(crate) fn halted<K: Desk>(book: &Book<K>) -> How
    requires { IsSome book.now.halt }
    ensures stands { StandsAs book.now.halt (state_of book.now) result }
    ensures cause { HaltsAs book.now.halt result }
    ensures legal { LegalPast (outline book.now) book.now.past }
{
    let _state = book.state();
    match book.halted() {
        Some(cause) => How::Halted(cause),
        None => unreachable!(),
    }
}

/// Performs the order that the hand has, and records the end of its task. `None` where the run goes on.
fn perform<K: Desk, P: Performer>(
    alloc: Global,
    book: &mut Book<K>,
    hand: &mut P,
    order: Order,
) -> Option<How>
    requires at_work { IsPerforming (outline book.old) book.old.past book.old.halt order }
    ensures keeps { (start : BookValue K)
        → SessionInvariant K.state start book.old
        → SessionInvariant K.state start book.new }
    ensures stops { IfSome result (StandsAs book.new.halt (state_of book.new)) }
    ensures failed { IfSome result (λ how. MightRecord P.gives 1 book.new) }
    ensures plan { book.new.plan ≡ book.old.plan }
    ensures ran { (limit : Option ℕ) (before : List Record)
        → IsUnderWay P.gives 1 limit (outline book.old) before book.old.past book.old.limit
        → IfSome result (HasRun P.gives (Rises (K.state book.old.journal.desk).asks
        (K.state book.new.journal.desk).asks) 1 limit
        (outline book.old) before book.new.past) }
    ensures on { (limit : Option ℕ) (before : List Record)
        → IsUnderWay P.gives 1 limit (outline book.old) before book.old.past book.old.limit
        → IfNone result (IsUnderWay P.gives 1 limit (outline book.old) before book.new.past book.new.limit) }
    ensures asks { (K.state book.old.journal.desk).asks ≤ (K.state book.new.journal.desk).asks }
    ensures goes { IfNone result (IsBetweenTurns (outline book.new) book.new.past book.new.halt) }
    ensures no_more { 67108864 - book.new.journal.size ≤ 67108864 - book.old.journal.size }
    ensures asked { (told : Option (List AnOrder)) (base : List AnOrder)
        → HasToDo told base (P.did hand.old) (orders (outline book.old) 0 book.old.past) order
        → IfNone result (HasDone told base (P.did hand.new) (orders (outline book.old) 0 book.new.past)) }
    ensures stopped { (told : Option (List AnOrder)) (base : List AnOrder)
        → HasToDo told base (P.did hand.old) (orders (outline book.old) 0 book.old.past) order
        → IfSome result (HasDoneBy told base (P.did hand.new) (orders (outline book.old) 0 book.new.past)) }
{
    let Ok(outcome) = hand.perform(alloc, &order) else {
        book.halt_for_memory();
        return Some(halted(book));
    };
    let _before = book.state();
    match book.finish(HAND, outcome) {
        Ok(()) => None,
        Err(_) => Some(halted(book)),
    }
}

/// One turn of the hand: what the book records for it, and the order that it performs. `None` where the run
/// goes on.
fn take_turn<K: Desk, P: Performer>(alloc: Global, book: &mut Book<K>, hand: &mut P) -> Option<How>
    requires going { IsBetweenTurns (outline book.old) book.old.past book.old.halt }
    ensures keeps { (start : BookValue K)
        → SessionInvariant K.state start book.old
        → SessionInvariant K.state start book.new }
    ensures stops { IfSome result (StandsAs book.new.halt (state_of book.new)) }
    ensures failed { IfSome result (λ how. MightRecord P.gives 1 book.new) }
    ensures plan { book.new.plan ≡ book.old.plan }
    ensures ran { (limit : Option ℕ) (before : List Record)
        → IsUnderWay P.gives 1 limit (outline book.old) before book.old.past book.old.limit
        → IfSome result (HasRun P.gives (Rises (K.state book.old.journal.desk).asks
        (K.state book.new.journal.desk).asks) 1 limit
        (outline book.old) before book.new.past) }
    ensures on { (limit : Option ℕ) (before : List Record)
        → IsUnderWay P.gives 1 limit (outline book.old) before book.old.past book.old.limit
        → IfNone result (IsUnderWay P.gives 1 limit (outline book.old) before book.new.past book.new.limit) }
    ensures asks { (K.state book.old.journal.desk).asks ≤ (K.state book.new.journal.desk).asks }
    ensures goes { IfNone result (IsBetweenTurns (outline book.new) book.new.past book.new.halt) }
    ensures less { IfNone result (67108864 - book.new.journal.size < 67108864 - book.old.journal.size) }
    ensures asked { (told : Option (List AnOrder)) (base : List AnOrder)
        → HasDone told base (P.did hand.old) (orders (outline book.old) 0 book.old.past)
        → IfNone result (HasDone told base (P.did hand.new) (orders (outline book.old) 0 book.new.past)) }
    ensures stopped { (told : Option (List AnOrder)) (base : List AnOrder)
        → HasDone told base (P.did hand.old) (orders (outline book.old) 0 book.old.past)
        → IfSome result (HasDoneBy told base (P.did hand.new) (orders (outline book.old) 0 book.new.past)) }
{
    let _before = book.state();
    match book.next(HAND) {
        Ok(Turn::Start(order)) => perform(alloc, book, hand, order),
        Ok(Turn::Idle) => {
            let _after = book.state();
            unreachable!()
        }
        Ok(Turn::Ended(state)) => {
            let _after = book.state();
            Some(How::Ended(state))
        }
        Ok(Turn::Suspended) => {
            let _after = book.state();
            Some(How::Suspended)
        }
        Err(_) => Some(halted(book)),
    }
}

/// Goes through a session that was entered, turn by turn.
fn run<K: Desk, P: Performer>(alloc: Global, book: &mut Book<K>, hand: &mut P) -> How
    requires going { IsBetweenTurns (outline book.old) book.old.past book.old.halt }
    ensures keeps { (start : BookValue K)
        → SessionInvariant K.state start book.old
        → SessionInvariant K.state start book.new }
    ensures stops { StandsAs book.new.halt (state_of book.new) result }
    ensures failed { MightRecord P.gives 1 book.new }
    ensures plan { book.new.plan ≡ book.old.plan }
    ensures ran { (limit : Option ℕ) (before : List Record)
        → IsUnderWay P.gives 1 limit (outline book.old) before book.old.past book.old.limit
        → HasRun P.gives (Rises (K.state book.old.journal.desk).asks (K.state book.new.journal.desk).asks) 1 limit
        (outline book.old)
        before book.new.past result }
    ensures asks { (K.state book.old.journal.desk).asks ≤ (K.state book.new.journal.desk).asks }
    ensures stopped { (told : Option (List AnOrder)) (base : List AnOrder)
        → HasDone told base (P.did hand.old) (orders (outline book.old) 0 book.old.past)
        → HasDoneBy told base (P.did hand.new) (orders (outline book.old) 0 book.new.past) result }
{
    'turns: loop {
        if let Some(how) = take_turn(alloc, book, hand) {
            return how;
        }
    }
}

/// Goes through a session with one hand: enters it, lets the hand perform each order that the book gives, and
/// records its outcome, until the flow has ended or is suspended, or the book is halted.
fn run_session<K: Desk, P: Performer>(
    alloc: Global,
    book: &mut Book<K>,
    hand: &mut P,
    limit: Option<u32>,
) -> How
    ensures keeps { (start : BookValue K)
        → SessionInvariant K.state start book.old
        → SessionInvariant K.state start book.new }
    ensures stops { StandsAs book.new.halt (state_of book.new) result }
    ensures failed { book.old.halt ≡ None → MightRecord P.gives 1 book.new }
    ensures plan { book.new.plan ≡ book.old.plan }
    ensures ran { HasRun P.gives (Rises (K.state book.old.journal.desk).asks
        (K.state book.new.journal.desk).asks) 1 limit
        (outline book.old) book.old.past book.new.past result }
    ensures asks { (K.state book.old.journal.desk).asks ≤ (K.state book.new.journal.desk).asks }
    ensures stopped { (told : Option (List AnOrder)) (base : List AnOrder)
        → HasDone told base (P.did hand.old) (orders (outline book.old) 0 book.old.past)
        → HasDoneBy told base (P.did hand.new) (orders (outline book.old) 0 book.new.past) result }
{
    let _before = book.state();
    match book.enter(HAND, limit) {
        Ok(Entered::Running) => {
            let _after = book.state();
            run(alloc, book, hand)
        }
        Ok(Entered::Ended(state)) => How::Ended(state),
        Err(_) => halted(book),
    }
}

/// Runs a book's flow with one hand, which records as hand 0, and gives the book back with how it stopped. Of
/// every start that the book has kept to, it still keeps to it; what it recorded is a session whose ends carry
/// outcomes that the hand may give for their orders, and at most as long as the plan's bound. It is suspended only
/// where a stop was asked for meanwhile, or where it recorded at least so many entries as the limit says, those of
/// its beginning included; then only the end of the task in flight, SUSPENDING and a last state of the flow come.
pub fn serial<K: Desk, P: Performer>(
    alloc: Global,
    book: Book<K>,
    hand: &mut P,
    limit: Option<u32>,
) -> RunEnd<K>
    ensures keeps { (start : BookValue K)
        → SessionInvariant K.state start book
        → SessionInvariant K.state start result.book }
    ensures stops { StandsAs result.book.halt (state_of result.book) result.how }
    ensures failed { book.halt ≡ None → MightRecord P.gives 1 result.book }
    ensures plan { result.book.plan ≡ book.plan }
    ensures ran { HasRun P.gives (Rises (K.state book.journal.desk).asks
        (K.state result.book.journal.desk).asks) 1 limit
        (outline book) book.past result.book.past result.how }
    ensures asks { (K.state book.journal.desk).asks ≤ (K.state result.book.journal.desk).asks }
    ensures orders { HasDoneBy (P.did hand.old) (orders (outline book) 0 book.past) (P.did hand.new)
        (orders (outline book) 0 result.book.past) result.how }
    ensures bound { length result.book.past ≤ length book.past + entry_bound book.plan }
{
    let mut book = book;
    let _before = book.state();
    let how = run_session(alloc, &mut book, hand, limit);
    let _after = book.state();
    runs_are_bounded();
    RunEnd { book, how }
}
