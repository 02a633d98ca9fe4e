// One turn of a hand at a book that several hands share.
ghost use Rattle.std.specs.Prelude.{◌≡◌, ◌<◌, ◌≤◌, ℕ, true, List, Option, IsTrue};
ghost use Rattle.tf_numbers.specs.Numbers.{Rises};
ghost use Rattle.tf_states.specs.declared.record.Entry.{Entry as Record};
ghost use Rattle.tf_hands.specs.Hands.{orders};
ghost use Rattle.tf_model.specs.Steps.{is_free};
ghost use Rattle.tf_actions.specs.declared.orders.Order.{Order as AnOrder};
ghost use Rattle.tf_book.specs.Book.{BookValue, outline, moment, flow_state as state_of};
ghost use Rattle.tf_book.specs.SessionInvariant.{SessionInvariant};
ghost use Rattle.tf_book.specs.Turns.{is_entered};
ghost use Rattle.tf_engines.specs.Asked.{HasDone};
ghost use Rattle.tf_engines.specs.Runs.{MightRecord, StandsBetween};
ghost use Rattle.tf_engines.specs.Working.{HasDoneNext, HasNext, HasOutcome, IsAdded, next_by};

use tf_actions::{Order, Outcome, Performer};
use tf_book::{Book, Turn};
use tf_desk::Desk;

/// What a hand does next: it performs an order, waits for the others, or stops, since the flow has stopped or since it
/// can't go on.
#[derive(Drop)]
pub(crate) enum Next {
    Perform(Order),
    Wait,
    Stop,
    Fail,
}

/// What the hand does after a turn of the book.
fn after(turn: Turn) -> Next
    ensures { result ≡ next_by turn }
{
    match turn {
        Turn::Start(order) => Next::Perform(order),
        Turn::Idle => Next::Wait,
        Turn::Ended(_) => Next::Stop,
        Turn::Suspended => Next::Stop,
    }
}

/// The next turn of a hand that has nothing in flight, in a session that was entered.
pub(crate) fn begin<K: Desk, P: Performer>(book: &mut Book<K>, hand: u8) -> Next
    requires hand { hand < 64 }
    requires free { is_free (outline book.old) (moment book.old) hand ≡ true }
    requires entered { is_entered (state_of book.old) ≡ true }
    ensures keeps { (start : BookValue K)
        → SessionInvariant K.state start book.old
        → SessionInvariant K.state start book.new }
    ensures plan { book.new.plan ≡ book.old.plan }
    ensures asks { (K.state book.old.journal.desk).asks ≤ (K.state book.new.journal.desk).asks }
    ensures stands { (number asked : ℕ) (limit : Option ℕ) (before : List Record) → hand < number
        → asked ≤ (K.state book.old.journal.desk).asks
        → StandsBetween P.gives (Rises asked (K.state book.old.journal.desk).asks) number limit
        (outline book.old) before
        book.old.past book.old.limit
        → StandsBetween P.gives (Rises asked (K.state book.new.journal.desk).asks) number limit
        (outline book.old) before
        book.new.past book.new.limit }
    ensures failed { (number : ℕ) → hand < number → MightRecord P.gives number book.old
        → MightRecord P.gives number book.new }
    ensures added { IsAdded hand book.old.past book.new.past }
    ensures has { HasNext (outline book.old) book.new.past hand result }
    ensures orders { (told : Option (List AnOrder)) (base : List AnOrder) (did : Option (List AnOrder))
        → HasDone told base did (orders (outline book.old) hand book.old.past)
        → HasDoneNext told base did (orders (outline book.old) hand book.new.past) result }
{
    match book.next(hand) {
        Ok(turn) => {
            let _after = book.state();
            after(turn)
        }
        Err(_) => {
            let _after = book.state();
            Next::Fail
        }
    }
}

/// Records the end of the task that the hand has in flight, with an outcome that may be given for its order. Whether
/// it was recorded and the book goes on.
pub(crate) fn end<K: Desk, P: Performer>(book: &mut Book<K>, hand: u8, outcome: Outcome) -> bool
    requires hand { hand < 64 }
    requires has { HasOutcome P.gives (outline book.old) book.old.past hand outcome }
    ensures keeps { (start : BookValue K)
        → SessionInvariant K.state start book.old
        → SessionInvariant K.state start book.new }
    ensures plan { book.new.plan ≡ book.old.plan }
    ensures asks { (K.state book.old.journal.desk).asks ≤ (K.state book.new.journal.desk).asks }
    ensures stands { (number asked : ℕ) (limit : Option ℕ) (before : List Record) → hand < number
        → asked ≤ (K.state book.old.journal.desk).asks
        → StandsBetween P.gives (Rises asked (K.state book.old.journal.desk).asks) number limit
        (outline book.old) before
        book.old.past book.old.limit
        → StandsBetween P.gives (Rises asked (K.state book.new.journal.desk).asks) number limit
        (outline book.old) before
        book.new.past book.new.limit }
    ensures failed { (number : ℕ) → hand < number → MightRecord P.gives number book.old
        → MightRecord P.gives number book.new }
    ensures added { IsAdded hand book.old.past book.new.past }
    ensures free { IsTrue result → is_free (outline book.old) (moment book.new) hand ≡ true }
    ensures orders { orders (outline book.old) hand book.new.past ≡ orders (outline book.old) hand book.old.past }
{
    let _before = book.state();
    match book.finish(hand, outcome) {
        Ok(()) => true,
        Err(_) => false,
    }
}
