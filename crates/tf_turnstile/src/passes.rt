// A turnstile and its passes: how they are made, and how the value is had back in the end.
ghost use Rattle.std.specs.Prelude.{◌≡◌, ℕ, ◌<◌, ◌≤◌, ◌++◌, ◌+◌, [], ◌∷◌, List, Some, IfOk, IfErr, map, slice_get, vec_capacity};
ghost use Rattle.tf_turnstile.specs.Seats.{IsFree, IsPassSeat, IsOut, IsSameSeat, IsSized, pass_of};
ghost use Rattle.tf_turnstile.specs.Order.{first_view};
ghost use Rattle.tf_turnstile.specs.Passes.{AreNew, AreAll, HasGrown, PassValue};

use crate::keeping::Kept;
use crate::rule::{Deal, Opening, Order, Return, View};
use atomic_table::{Refused, Seat, Shared, Table};
use std::alloc::Global;
use std::marker::Model;
use std::snapshot::Snapshot;
use tf_values::Memory;

/// Passes one value between threads, to the holder of a pass at a time.
#[derive(Drop)]
pub struct Turnstile<B: Kept> {
    pub(crate) table: Table<Option<B>, View<B, B::Entry>, Opening<B>, Order, Global>,
}

impl<B: Kept> Model for Turnstile<B> {
    ghost use Rattle.std.specs.Prelude.{◌≡◌, ◌<◌};
    ghost use Rattle.tf_turnstile.specs.Passes.{TurnstileValue};

    ghost Value = { TurnstileValue B };

    ghost view = { λ t. record { table = t.table.shared.table_id; start = t.table.shared.key.kept.value; passes = t.table.shared.key.passes } };

    ghost invariant = { λ t. (t.table.shared.table_id.words ≡ 3) × (t.table.shared.table_id.slots ≡ 1)
        × (0 < t.table.shared.key.passes) };
}

/// The right to take turns at one turnstile. Its number is that of the entries that its holder adds.
pub struct Pass<B: Kept> {
    pub(crate) last: u64,
    pub(crate) seat: Seat<Option<B>, View<B, B::Entry>>,
}

impl<B: Kept> Model for Pass<B> {
    ghost use Rattle.tf_turnstile.specs.Passes.{PassValue};

    ghost Value = { PassValue B B.Entry };

    ghost use Rattle.tf_turnstile.specs.Seats.{IsPassSeat, pass_of};

    ghost view = { λ p. pass_of p.seat };

    ghost invariant = { λ p. IsPassSeat B.origin B.entries p.seat.me.0 p.seat.me.1 };
}

impl<B: Kept> Drop for Pass<B> {
    fn drop(self) {
        let Self { last: _, seat: _ } = self;
    }
}

impl<B: Kept> Pass<B> {
    fn into_seat(self) -> Seat<Option<B>, View<B, B::Entry>>
        ensures pass { pass_of result ≡ self }
        ensures hand { IsPassSeat B.origin B.entries result.me.0 result.me.1 }
    {
        let Self { last: _, seat } = self;
        seat
    }
}

impl<B: Kept> Turnstile<B> {
    /// A turnstile that has this value, with as many passes, from 1 to 64, numbered from 0 in the list's order. Where
    /// memory runs out the value comes back.
    pub fn make(
        alloc: Global,
        kept: B,
        passes: u8,
    ) -> Result<(Turnstile<B>, Vec<Pass<B>>), (B, Memory)>
        requires some { 0 < passes }
        requires few { passes ≤ 64 }
        ensures made { IfOk result (λ made. (made.0.start ≡ kept) × (made.0.passes ≡ passes)
            × AreNew made.0 made.1.items) }
        ensures back { IfErr result (λ refused. refused.0 ≡ kept) }
    {
        let Ok(room) = Vec::with_capacity(alloc, passes as usize) else {
            return Err((kept, Memory));
        };
        let Ok(mut slots) = Vec::with_capacity(alloc, 1) else {
            room.destroy_empty();
            return Err((kept, Memory));
        };
        let count = kept.count();
        let opening = Opening {
            kept: Snapshot::of(&kept),
            passes,
        };
        slots.push_reserved(Some(kept));
        match Table::new(alloc, &[0, count, 0], slots, &opening) {
            Ok((table, seat)) => {
                let turnstile = Turnstile { table };
                let passes = turnstile.deal(seat, room, count, passes);
                Ok((turnstile, passes))
            }
            Err(Refused { slots }) => {
                room.destroy_empty();
                Err((only(slots), Memory))
            }
        }
    }

    /// All passes, for the last of which the first seat is dealt out.
    fn deal(
        &self,
        mut seat: Seat<Option<B>, View<B, B::Entry>>,
        mut passes: Vec<Pass<B>>,
        last: u64,
        count: u8,
    ) -> Vec<Pass<B>>
        requires turnstile { (seat.table_id ≡ self.now.table) × (seat.me ≡ (first_view self.now.start, [])) }
        requires room { (passes.items ≡ []) × (vec_capacity passes ≡ count) × (count ≡ self.now.passes) }
        ensures { AreNew self.now result.items }
    {
        for _number in 1..count {
            let next = self.table.shared.split_seat::<Deal>(&mut seat);
            passes.push_reserved(Pass { last, seat });
            seat = next;
        }
        passes.push_reserved(Pass { last, seat });
        passes
    }

    /// Ends the turns, and gives the value back.
    pub fn close(self, mut passes: Vec<Pass<B>>) -> B
        requires { AreAll self passes.items }
        ensures origin { B.origin result ≡ B.origin self.start }
        ensures history { HasGrown B.entries self passes.items result }
    {
        let Some(last) = passes.pop() else {
            unreachable!()
        };
        let mut seat = last.into_seat();
        let Turnstile { table } = self;
        take_back(&table.shared, &mut seat, passes);
        let mut closed = table.close_with(seat);
        let slot = closed.take(0);
        closed.free();
        slot.unwrap()
    }
}

/// The value of the one slot.
fn only<B>(mut slots: Vec<Option<B>>) -> B
    requires { (kept : B) × (slots.items ≡ Some kept ∷ []) }
    ensures { slots.items ≡ Some result ∷ [] }
{
    let Some(slot) = slots.pop() else {
        unreachable!()
    };
    slots.destroy_empty();
    slot.unwrap()
}

/// The last seat takes the others back, in the order of their numbers.
fn take_back<B: Kept>(
    shared: &Shared<Option<B>, View<B, B::Entry>, Opening<B>, Order>,
    last: &mut Seat<Option<B>, View<B, B::Entry>>,
    passes: Vec<Pass<B>>,
)
    requires table { IsSized shared.now.table_id × (last.old.table_id ≡ shared.now.table_id) }
    requires free { IsFree last.old }
    requires whole { (last.old.me.0.number + 1 ≡ shared.now.key.passes) × (last.old.me.0.back ≡ []) }
    requires passes { (i : ℕ) (pass : PassValue B B.Entry) → slice_get passes.items i ≡ Some pass
        → IsOut shared.now.table_id i pass }
    ensures same { IsSameSeat last.old last.new }
    ensures back { last.new.me ≡ (record last.old.me.0 { back = map (λ pass. pass.seen) passes.items }, []) }
{
    for pass in passes {
        shared.join_seat::<Return>(last, pass.into_seat());
    }
}
