ghost use Rattle.std.specs.Prelude.{◌≡◌, ◌<◌, ◌≤◌, ◌^◌, ◌+◌, ℕ, None, Some, true, List, Option, IfErr, IfOk, IsTrue, is_some, length};
ghost use Rattle.tf_hands.specs.Hands.{orders};
ghost use Rattle.tf_model.specs.History.{snapshot};
ghost use Rattle.tf_model.specs.Steps.{is_free, LegalPast};
ghost use Rattle.tf_actions.specs.declared.orders.Order.{Order as AnOrder};
ghost use Rattle.tf_book.specs.Book.{outline};
ghost use Rattle.tf_book.specs.Turns.{IsEntering};
ghost use Rattle.tf_engines.specs.Asked.{HasDone};
ghost use Rattle.tf_engines.specs.Shared.{entries_of, origin_of, IsJustEntered, IsShared};
ghost use Rattle.tf_engines.specs.Working.{HasDoneNext, HasNext, HasOutcome, IsAdded, IsRun};

use crate::engine::{How, RunEnd};
use crate::one_hand::halted;
use crate::turns::{Next, begin, end};
use std::marker::{Model, PhantomData};
use std::snapshot::Snapshot;
use tf_actions::{Outcome, Performer};
use tf_book::{Book, Entered};
use tf_desk::Desk;
use tf_states::Entry;
use tf_turnstile::Kept;

/// The number of the hand that enters a session.
const FIRST: u8 = 0;

/// A book whose session was entered and hasn't been put back since, which several hands share. Contracts see the book
/// as it was before, the book now, the session's limit and how many hands there are.
#[derive(Drop)]
pub struct Shared<K: Desk, P: Performer> {
    book: Book<K>,
    start: Snapshot<Book<K>>,
    limit: Option<u32>,
    hands: u8,
    of: PhantomData<P>,
}

impl<K: Desk, P: Performer> Model for Shared<K, P> {
    ghost use Rattle.std.specs.Coded.{codes};
    ghost use Rattle.tf_flow.specs.contracts.nested.Flow as flow;
    ghost use Rattle.tf_engines.specs.Shared.{SharedValue, IsShared};

    ghost Value = { SharedValue K };

    ghost coded = { Prim.hlevel (codes, flow.the_row.coded) };

    ghost view = { λ s. record { start = s.start.value; now = s.book; limit = s.limit; number = s.hands } };

    ghost invariant = { λ s. IsShared K.state P.gives
        (record { start = s.start.value; now = s.book; limit = s.limit; number = s.hands }) };
}

impl<K: Desk, P: Performer> Shared<K, P> {
    /// Enters a session of a book with so many hands, by the first one. Where the flow had ended, or the book is
    /// halted, the run ends at once.
    pub(crate) fn enter(
        book: Book<K>,
        limit: Option<u32>,
        hands: u8,
    ) -> Result<Shared<K, P>, RunEnd<K>>
        requires some { 1 ≤ hands }
        requires few { hands ≤ 64 }
        ensures fresh { IfOk result IsJustEntered }
        ensures origin { IfOk result (λ shared. origin_of shared ≡ (book, limit, hands)) }
        ensures run { IfErr result (λ end. IsRun K.state P.gives hands limit book end.book end.how) }
        ensures begun { IfErr result (λ end. IsEntering 0 book.past end.book.past) }
        ensures orders { IfErr result (λ end. (hand : ℕ)
            → orders (outline book) hand end.book.past ≡ orders (outline book) hand book.past) }
    {
        let start = Snapshot::of(&book);
        let mut book = book;
        let _before = book.state();
        match book.enter(FIRST, limit) {
            Ok(Entered::Running) => {
                let _after = book.state();
                Ok(Shared {
                    book,
                    start,
                    limit,
                    hands,
                    of: PhantomData,
                })
            }
            Ok(Entered::Ended(state)) => Err(RunEnd {
                book,
                how: How::Ended(state),
            }),
            Err(_) => {
                let how = halted(&book);
                Err(RunEnd { book, how })
            }
        }
    }

    /// What the type keeps since the session's start: the book keeps to what it had kept to, and stands in a session
    /// of its hands, of whose entries none was given by another outcome than a hand may give. Its history is legal.
    pub fn known(&self)
        ensures shared { IsShared K.state
            P.gives self.now }
        ensures legal { LegalPast (outline self.now.start) self.now.now.past }
        ensures few { length self.now.now.past < 2 ^ 63 }
    {
        let _state = self.book.state();
    }

    /// The next turn of a hand that has nothing in flight.
    pub(crate) fn next(&mut self, hand: u8) -> Next
        requires hand { hand < self.old.number }
        requires free { is_free (outline self.old.start) (snapshot (outline self.old.start) self.old.now.past) hand
            ≡ true }
        ensures origin { origin_of self.new ≡ origin_of self.old }
        ensures added { IsAdded hand self.old.now.past self.new.now.past }
        ensures has { HasNext (outline self.old.start) self.new.now.past hand result }
        ensures orders { (told : Option (List AnOrder)) (base : List AnOrder) (did : Option (List AnOrder))
            → HasDone told base did (orders (outline self.old.start) hand self.old.now.past)
            → HasDoneNext told base did (orders (outline self.old.start) hand self.new.now.past) result }
    {
        begin::<K, P>(&mut self.book, hand)
    }

    /// Records the end of the task that the hand has in flight, with an outcome that may be given for its order.
    /// Whether it was recorded and the book goes on.
    pub(crate) fn finish(&mut self, hand: u8, outcome: Outcome) -> bool
        requires hand { hand < self.old.number }
        requires has { HasOutcome P.gives (outline self.old.start) self.old.now.past hand outcome }
        ensures origin { origin_of self.new ≡ origin_of self.old }
        ensures added { IsAdded hand self.old.now.past self.new.now.past }
        ensures free { IsTrue result
            → is_free (outline self.old.start) (snapshot (outline self.old.start) self.new.now.past) hand ≡ true }
        ensures orders { orders (outline self.old.start) hand self.new.now.past
            ≡ orders (outline self.old.start) hand self.old.now.past }
    {
        end::<K, P>(&mut self.book, hand, outcome)
    }

    /// Halts the book for want of memory, if it isn't halted.
    pub(crate) fn halt(&mut self)
        ensures halted { is_some self.new.now.halt ≡ true }
        ensures origin { origin_of self.new ≡ origin_of self.old }
        ensures past { self.new.now.past ≡ self.old.now.past }
    {
        self.book.halt_for_memory();
    }

    /// The book back.
    pub(crate) fn into_book(self) -> Book<K>
        ensures book { result ≡ self.now }
        ensures shared { IsShared K.state
            P.gives self }
        ensures legal { LegalPast (outline self.start) self.now.past }
    {
        let Shared {
            book,
            start: _,
            limit: _,
            hands: _,
            of: _,
        } = self;
        let _state = book.state();
        book
    }
}

impl<K: Desk, P: Performer> Kept for Shared<K, P> {
    type Origin = (Book<K>, Option<u32>, u8);

    type Entry = Entry;

    ghost origin = { origin_of };

    ghost first = { λ _. 0 };

    ghost entries = { entries_of };

    ghost is_stopped = { λ s. is_some s.now.halt };

    fn count(&self) -> u64 {
        self.book.count()
    }

    fn stopped(&self) -> bool {
        self.book.halted().is_some()
    }
}
