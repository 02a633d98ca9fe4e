// What one of several hands does: it takes the shared book for a turn, and performs its orders without it.
ghost use Rattle.std.specs.Prelude.{◌≡◌, ◌<◌, ℕ, true, false, List, Option, IfNone, IfSome, IsTrue, MatchBool};
ghost use Rattle.tf_hands.specs.Hands.{HasOrder, orders};
ghost use Rattle.tf_model.specs.History.{flow_of, snapshot};
ghost use Rattle.tf_model.specs.Steps.{is_last, is_free};
ghost use Rattle.tf_actions.specs.Gives.{IsWhole};
ghost use Rattle.tf_actions.specs.declared.orders.Order.{Order as AnOrder};
ghost use Rattle.tf_book.specs.Book.{outline};
ghost use Rattle.tf_turnstile.specs.Passes.{IsIdle};
ghost use Rattle.tf_engines.specs.Asked.{HasDone, HasDoneAllButOne, HasToDo};
ghost use Rattle.tf_engines.specs.Shared.{seen_past};
ghost use Rattle.tf_engines.specs.Working.{HasDoneNext, HasDoneSo, HasNext, HasOutcome, HasWorked, IsOpenedFor, IsReadyToTurn};

use crate::shared::Shared;
use crate::turns::Next;
use std::alloc::Global;
use std::sync::Wait;
use tf_actions::{Order, Outcome, Performer};
use tf_desk::Desk;
use tf_turnstile::{Pass, Turnstile};

/// A hand with its pass, and whether it stopped since it couldn't go on.
#[derive(Drop)]
pub(crate) struct Worker<K: Desk, P: Performer> {
    pub(crate) hand: P,
    pub(crate) pass: Pass<Shared<K, P>>,
    pub(crate) failed: bool,
}

/// Takes the book for the next turn of a hand, and gives it home.
fn begin_turn<K: Desk, P: Performer, R: Wait>(
    rt: &R,
    turnstile: &Turnstile<Shared<K, P>>,
    pass: &mut Pass<Shared<K, P>>,
    hand: u8,
) -> Next
    requires opened { IsOpenedFor turnstile.now hand }
    requires ready { IsReadyToTurn turnstile.now hand pass.old }
    ensures idle { IsIdle turnstile.now hand pass.new }
    ensures has { HasNext (outline turnstile.now.start.start) (seen_past turnstile.now pass.new) hand result }
    ensures orders { (told : Option (List AnOrder)) (base : List AnOrder) (did : Option (List AnOrder))
        → HasDone told base did (orders (outline turnstile.now.start.start) hand (seen_past turnstile.now pass.old))
        → HasDoneNext told base did
        (orders (outline turnstile.now.start.start) hand (seen_past turnstile.now pass.new)) result }
{
    let mut shared = turnstile.take(rt, pass);
    shared.known();
    let next = shared.next(hand);
    shared.known();
    turnstile.give(shared, pass);
    next
}

/// Takes the book to record the end of the task that the hand has in flight, and gives it home. Whether the end was
/// recorded and the book goes on.
fn end_turn<K: Desk, P: Performer, R: Wait>(
    rt: &R,
    turnstile: &Turnstile<Shared<K, P>>,
    pass: &mut Pass<Shared<K, P>>,
    hand: u8,
    outcome: Outcome,
) -> bool
    requires opened { IsOpenedFor turnstile.now hand }
    requires idle { IsIdle turnstile.now hand pass.old }
    requires has { HasOutcome P.gives (outline turnstile.now.start.start) (seen_past turnstile.now pass.old) hand
        outcome }
    ensures idle { IsIdle turnstile.now hand pass.new }
    ensures ready { IsTrue result → IsReadyToTurn turnstile.now hand pass.new }
    ensures orders { orders (outline turnstile.now.start.start) hand (seen_past turnstile.now pass.new)
        ≡ orders (outline turnstile.now.start.start) hand (seen_past turnstile.now pass.old) }
{
    let mut shared = turnstile.take(rt, pass);
    shared.known();
    let goes_on = shared.finish(hand, outcome);
    shared.known();
    turnstile.give(shared, pass);
    goes_on
}

/// Takes the book to halt it for want of memory, and gives it home.
fn halt_book<K: Desk, P: Performer, R: Wait>(
    rt: &R,
    turnstile: &Turnstile<Shared<K, P>>,
    pass: &mut Pass<Shared<K, P>>,
    hand: u8,
)
    requires opened { IsOpenedFor turnstile.now hand }
    requires idle { IsIdle turnstile.now hand pass.old }
    ensures idle { IsIdle turnstile.now hand pass.new }
    ensures orders { orders (outline turnstile.now.start.start) hand (seen_past turnstile.now pass.new)
        ≡ orders (outline turnstile.now.start.start) hand (seen_past turnstile.now pass.old) }
{
    let mut shared = turnstile.take(rt, pass);
    shared.known();
    shared.halt();
    shared.known();
    turnstile.give(shared, pass);
}

/// Performs the order that the hand has, without the book, and records the end of its task. Whether the hand goes on.
fn perform<K: Desk, P: Performer, R: Wait>(
    rt: &R,
    alloc: Global,
    turnstile: &Turnstile<Shared<K, P>>,
    worker: &mut Worker<K, P>,
    hand: u8,
    order: Order,
) -> bool
    requires opened { IsOpenedFor turnstile.now hand }
    requires idle { IsIdle turnstile.now hand worker.old.pass }
    requires has { HasOrder (outline turnstile.now.start.start) (seen_past turnstile.now worker.old.pass) hand order }
    requires whole { IsWhole order }
    ensures idle { IsIdle turnstile.now hand worker.new.pass }
    ensures ready { IsTrue result → IsReadyToTurn turnstile.now hand worker.new.pass }
    ensures orders { (told : Option (List AnOrder)) (base : List AnOrder)
        → HasToDo told base (P.did worker.old.hand)
        (orders (outline turnstile.now.start.start) hand (seen_past turnstile.now worker.old.pass)) order
        → MatchBool result
        (HasDone told base (P.did worker.new.hand)
        (orders (outline turnstile.now.start.start) hand (seen_past turnstile.now worker.new.pass)))
        (HasDoneAllButOne told base (P.did worker.new.hand)
        (orders (outline turnstile.now.start.start) hand (seen_past turnstile.now worker.new.pass))) }
{
    let Ok(outcome) = worker.hand.perform(alloc, &order) else {
        halt_book(rt, turnstile, &mut worker.pass, hand);
        return false;
    };
    end_turn(rt, turnstile, &mut worker.pass, hand, outcome)
}

/// One turn of a hand, with what it performs. `None` where it goes on, and else whether it couldn't.
fn step<K: Desk, P: Performer, R: Wait>(
    rt: &R,
    alloc: Global,
    turnstile: &Turnstile<Shared<K, P>>,
    worker: &mut Worker<K, P>,
    hand: u8,
) -> Option<bool>
    requires opened { IsOpenedFor turnstile.now hand }
    requires ready { IsReadyToTurn turnstile.now hand worker.old.pass }
    ensures idle { IsIdle turnstile.now hand worker.new.pass }
    ensures ready { IfNone result (IsReadyToTurn turnstile.now hand worker.new.pass) }
    ensures goes { (told : Option (List AnOrder)) (base : List AnOrder)
        → HasDone told base (P.did worker.old.hand)
        (orders (outline turnstile.now.start.start) hand (seen_past turnstile.now worker.old.pass))
        → IfNone result (HasDone told base (P.did worker.new.hand)
        (orders (outline turnstile.now.start.start) hand (seen_past turnstile.now worker.new.pass))) }
    ensures stops { (told : Option (List AnOrder)) (base : List AnOrder)
        → HasDone told base (P.did worker.old.hand)
        (orders (outline turnstile.now.start.start) hand (seen_past turnstile.now worker.old.pass))
        → IfSome result (λ failed. HasDoneSo failed told base (P.did worker.new.hand)
        (orders (outline turnstile.now.start.start) hand (seen_past turnstile.now worker.new.pass))) }
    ensures last { IfSome result
        (λ failed. failed ≡ false → is_last (flow_of (seen_past turnstile.now worker.new.pass)) ≡ true) }
{
    match begin_turn(rt, turnstile, &mut worker.pass, hand) {
        Next::Perform(order) => {
            if perform(rt, alloc, turnstile, worker, hand, order) {
                return None;
            }
            Some(true)
        }
        Next::Wait => {
            turnstile.wait(rt, &mut worker.pass);
            None
        }
        Next::Stop => Some(false),
        Next::Fail => Some(true),
    }
}

/// All turns of a hand, until the flow has stopped or the hand can't go on.
pub(crate) fn work<K: Desk, P: Performer, R: Wait>(
    rt: &R,
    alloc: Global,
    turnstile: &Turnstile<Shared<K, P>>,
    worker: &mut Worker<K, P>,
    hand: u8,
)
    requires opened { IsOpenedFor turnstile.now hand }
    requires ready { IsReadyToTurn turnstile.now hand worker.old.pass }
    ensures { HasWorked turnstile.now hand worker.old.pass worker.new.pass (P.did worker.old.hand)
        (P.did worker.new.hand) worker.new.failed }
{
    'turns: for _ in rt.forever() {
        if let Some(failed) = step(rt, alloc, turnstile, worker, hand) {
            worker.failed = failed;
            return;
        }
    }
    unreachable!()
}
