// Turns at a turnstile: the value is taken, given back, and waited for.
ghost use Rattle.std.specs.Prelude.{◌≡◌, ◌+◌, ◌-◌, ◌^◌, ◌<◌, ◌++◌, [], ◌∷◌, None, Some, length, MatchBool};
ghost use Rattle.tf_turnstile.specs.Seats.{IsFree, IsSameSeat, IsSized, TakesSlot};
ghost use Rattle.tf_turnstile.specs.Numbered.{IsLater, IsLonger, own};
ghost use Rattle.tf_turnstile.specs.Passes.{IsPassOf, MayGive};

use crate::keeping::Kept;
use crate::passes::{Pass, Turnstile};
use crate::rule::{Count, Look, Opening, Order, PutHome, Quiet, TakeOut, View};
use atomic_table::{Seat, Shared};
use std::sync::Wait;

// The words of the table. The turn is 0 while the value is at home.
const TURN: usize = 0;

// The turn while the value is out: nobody waits for it, or somebody may.
const OUT: u64 = 1;

const AWAITED: u64 = 2;

const COUNT: usize = 1;

const BELL: usize = 2;

// The bell's lowest bit: a stopped value was given.
const STOPPED: u64 = 1;

// What the bell rises by at each turn.
const RING: u64 = 2;

impl<B: Kept> Turnstile<B> {
    /// Waits until it has the value. It has what the first value may never change, its entries begin with what the pass has
    /// seen, and after the first ones those that carry the pass's number are the pass's own.
    pub fn take<R: Wait>(&self, rt: &R, pass: &mut Pass<B>) -> B
        requires mine { IsPassOf self.now pass.old }
        requires free { pass.old.taken ≡ None }
        ensures origin { B.origin result ≡ B.origin self.now.start }
        ensures history { B.entries result ≡ B.entries self.now.start ++ pass.new.seen }
        ensures seen { IsLater pass.old.number pass.old.seen pass.new.seen }
        ensures own { own pass.old.number pass.new.seen ≡ own pass.old.number pass.old.seen }
        ensures pass { pass.new ≡ record pass.old { seen = pass.new.seen; taken = Some result } }
    {
        let shared = &self.table.shared;
        take_out(rt, shared, &mut pass.seat);
        let slot = shared.exchange(&mut pass.seat, 0, None);
        pass.last = shared.load::<Look>(&mut pass.seat, COUNT);
        slot.unwrap()
    }

    /// Gives the value back, with the entries that the pass's holder has added. It wakes one of those who wait to take it, and
    /// all who wait for more.
    pub fn give(&self, kept: B, pass: &mut Pass<B>)
        requires mine { IsPassOf self.now pass.old }
        requires room { B.first kept + length (B.entries kept) < 2 ^ 64 - 1 }
        requires turn { MayGive B.origin B.entries pass.old kept }
        ensures history { B.entries kept ≡ B.entries self.now.start ++ pass.new.seen }
        ensures seen { IsLonger pass.old.number pass.old.seen pass.new.seen }
        ensures pass { pass.new ≡ record pass.old { seen = pass.new.seen; taken = None } }
    {
        let count = kept.count();
        let stopped = kept.stopped();
        let shared = &self.table.shared;
        let slot = shared.exchange(&mut pass.seat, 0, Some(kept));
        let None = slot else { unreachable!() };
        shared.store::<Count>(&mut pass.seat, COUNT, count);
        let turn = shared.swap::<PutHome>(&mut pass.seat, TURN, 0);
        pass.last = count;
        wake_next(shared, turn);
        ring(shared, &mut pass.seat, stopped);
    }

    /// Waits until the count differs from the one that the pass has last seen, or a stopped value was given.
    pub fn wait<R: Wait>(&self, rt: &R, pass: &mut Pass<B>)
        requires mine { IsPassOf self.now pass.old }
        requires free { pass.old.taken ≡ None }
        ensures { pass.new ≡ pass.old }
    {
        let shared = &self.table.shared;
        let last = pass.last;
        wait_for_more(rt, shared, &mut pass.seat, last);
    }
}

/// Takes the slot out of the table.
fn take_out<B: Kept, R: Wait>(
    rt: &R,
    shared: &Shared<Option<B>, View<B, B::Entry>, Opening<B>, Order>,
    seat: &mut Seat<Option<B>, View<B, B::Entry>>,
)
    requires table { IsSized shared.now.table_id × (seat.old.table_id ≡ shared.now.table_id) }
    requires free { IsFree seat.old }
    ensures same { IsSameSeat seat.old seat.new }
    ensures taken { TakesSlot seat.old.me seat.new.me }
{
    if try_take_out(shared, seat, OUT) {
        return;
    }
    // Who has waited can't know whether others do, so it takes the slot as if they did.
    for _ in rt.forever() {
        if try_take_out(shared, seat, AWAITED) {
            return;
        }
        shared.park(rt, TURN, low_half(AWAITED));
    }
    unreachable!()
}

/// Takes the slot out of the table where it is at home, and says whether it did. The turn is this then, in any case.
fn try_take_out<B: Kept>(
    shared: &Shared<Option<B>, View<B, B::Entry>, Opening<B>, Order>,
    seat: &mut Seat<Option<B>, View<B, B::Entry>>,
    turn: u64,
) -> bool
    requires out { 0 < turn }
    requires table { IsSized shared.now.table_id × (seat.old.table_id ≡ shared.now.table_id) }
    requires free { IsFree seat.old }
    ensures same { IsSameSeat seat.old seat.new }
    ensures taken { MatchBool result (TakesSlot seat.old.me seat.new.me) (seat.new.me ≡ seat.old.me) }
{
    shared.swap::<TakeOut>(seat, TURN, turn) == 0
}

/// Waits for another count than this one, or for a stopped value.
fn wait_for_more<B: Kept, R: Wait>(
    rt: &R,
    shared: &Shared<Option<B>, View<B, B::Entry>, Opening<B>, Order>,
    seat: &mut Seat<Option<B>, View<B, B::Entry>>,
    last: u64,
)
    requires table { IsSized shared.now.table_id × (seat.old.table_id ≡ shared.now.table_id) }
    ensures { IsSameSeat seat.old seat.new × (seat.new.me ≡ seat.old.me) }
{
    for _ in rt.forever() {
        let bell = shared.peek(BELL);
        if bell % RING == STOPPED || shared.load::<Quiet>(seat, COUNT) != last {
            return;
        }
        shared.park(rt, BELL, low_half(bell));
    }
    unreachable!()
}

/// Wakes one of those who wait to take the value out, where somebody may: the turn was this while it was out.
fn wake_next<B: Kept>(shared: &Shared<Option<B>, View<B, B::Entry>, Opening<B>, Order>, turn: u64)
    requires table { IsSized shared.now.table_id }
{
    if turn != OUT {
        shared.wake_one(TURN);
    }
}

/// Announces that the value is home, and that nothing more is to come where it is stopped.
fn ring<B: Kept>(
    shared: &Shared<Option<B>, View<B, B::Entry>, Opening<B>, Order>,
    seat: &mut Seat<Option<B>, View<B, B::Entry>>,
    stopped: bool,
)
    requires table { IsSized shared.now.table_id × (seat.old.table_id ≡ shared.now.table_id) }
    ensures { IsSameSeat seat.old seat.new × (seat.new.me ≡ seat.old.me) }
{
    if stopped {
        shared.fetch_or::<Quiet>(seat, BELL, STOPPED);
    }
    shared.fetch_add::<Quiet>(seat, BELL, RING);
    shared.wake_all(BELL);
}

/// The half of a word that a sleeper compares.
fn low_half(word: u64) -> u32 {
    (word & 0xffff_ffff) as u32
}
