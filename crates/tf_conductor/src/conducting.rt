ghost use Rattle.std.specs.Prelude.{◌≡◌, ◌<◌, ◌≤◌, ℕ, [], List, None, Some, IsSome, false, true, length, slice_get, slice_index_or, vec_capacity, vec_len};
ghost use Rattle.tf_board.specs.Board.{AreOfBoard};
ghost use Rattle.tf_turnstile.specs.Passes.{AreNew};
ghost use Rattle.tf_conductor.specs.Conducted.{IsConductedBy};
ghost use Rattle.tf_conductor.specs.Conducting.{IsConducting, MakesNoCall, made_since};
ghost use Rattle.tf_conductor.specs.Rounds.{AllClaimed, AreDifferent, EndsConducting, GiveSame, IsNobodys};

use crate::conductors::Conductor;
use crate::hiring::{dismiss, hire, work_through};
use crate::runners::Runner;
use crate::turns::Conducting;
use std::alloc::Global;
use std::sync::Wait;
use std::thread::Threads;
use tf_desk::Desk;
use tf_shared_board::{BoardHalt, SharedBoard};
use tf_turnstile::{Pass, Turnstile};
use tf_values::Names;

/// What conductors leave: the shared board, and why it doesn't go on, if it doesn't.
#[derive(Drop)]
pub struct Conducted<K: Desk> {
    pub shared: SharedBoard<K>,
    pub halt: Option<BoardHalt>,
}

/// Halts the board for want of memory, unless it was halted before, where that is so of a conductor.
fn halt_where<K: Desk>(shared: &mut SharedBoard<K>, halted: bool)
    ensures none { MakesNoCall K.state IsNobodys shared.old shared.new }
    ensures halted { halted ≡ true → IsSome shared.new.halt }
{
    if !halted {
        return;
    }
    shared.halt_for_memory();
}

/// The end of a call. Where a conductor stopped at a halt, the board is halted: if it wasn't before, then for want of
/// memory.
fn conclude<K: Desk>(board: Conducting<K>, halted: bool) -> Conducted<K>
    ensures board { IsConducting K.state
        (record { begun = board.begun; now = result.shared; owners = board.owners }) }
    ensures legal { AreOfBoard result.shared.board.past }
    ensures made { result.shared.made ≡ board.now.made }
    ensures halt { result.halt ≡ result.shared.halt }
    ensures halted { halted ≡ true → IsSome result.halt }
{
    let mut shared = board.into_shared();
    halt_where(&mut shared, halted);
    let _made = shared.made();
    let halt = shared.halted();
    Conducted { shared, halt }
}

/// Lets the conductors work with their passes, and takes the board back.
fn run_all<K: Desk + Send, P: Runner + Send, T: Threads + Wait + Sync>(
    rt: &T,
    alloc: Global,
    turnstile: Turnstile<Conducting<K>>,
    passes: Vec<Pass<Conducting<K>>>,
    owners: &Names,
    runners: &mut Vec<P>,
    room: Vec<Conductor<K, P>>,
    back: Vec<Pass<Conducting<K>>>,
) -> Conducted<K>
    requires fresh { turnstile.start.now ≡ turnstile.start.begun }
    requires many { (1 ≤ vec_len runners.old) × (vec_len runners.old ≤ 64) }
    requires owners { (owners.now ≡ turnstile.start.owners) × (length owners.now ≡ vec_len runners.old)
        × AreDifferent owners.now }
    requires passes { (turnstile.passes ≡ vec_len runners.old) × AreNew turnstile passes.items }
    requires room { (room.items ≡ []) × (vec_len runners.old ≤ vec_capacity room) }
    requires back { (back.items ≡ []) × (vec_len runners.old ≤ vec_capacity back) }
    ensures conducted { IsConductedBy K.state P.gives P.did owners.now turnstile.start.begun result.shared result.halt
        runners.old.items runners.new.items }
{
    let mut back = back;
    let hired = hire(runners, passes, room);
    let done = work_through(rt, alloc, &turnstile, owners, hired);
    let halted = dismiss(done, runners, &mut back);
    let board = turnstile.close(back);
    board.known();
    conclude(board, halted)
}

/// The end of a call for which memory doesn't suffice, and in which no conductor has begun.
fn give_up<K: Desk>(board: Conducting<K>) -> Conducted<K>
    requires { board.now ≡ board.begun }
    ensures board { IsConducting K.state
        (record { begun = board.begun; now = result.shared; owners = board.owners }) }
    ensures legal { AreOfBoard result.shared.board.past }
    ensures none { made_since board.begun result.shared ≡ [] }
    ensures halt { (result.halt ≡ result.shared.halt) × IsSome result.halt }
{
    conclude(board, true)
}

/// Lets 1 to 64 conductors, of as many distinct owners, work side by side on a shared board: each claims a job for its
/// owner, runs it without the board, and consumes it or gives it back, until it finds no job that it hasn't left, or the
/// board is halted. The runners come back in their order.
pub fn conduct<K: Desk + Send, P: Runner + Send, T: Threads + Wait + Sync>(
    rt: &T,
    alloc: Global,
    shared: SharedBoard<K>,
    owners: &Names,
    runners: &mut Vec<P>,
) -> Conducted<K>
    requires many { (1 ≤ vec_len runners.old) × (vec_len runners.old ≤ 64) }
    requires owners { (length owners.now ≡ vec_len runners.old) × AreDifferent owners.now }
    ensures board { IsConducting K.state (record { begun = shared; now = result.shared; owners = owners.now }) }
    ensures legal { AreOfBoard result.shared.board.past }
    ensures halt { result.halt ≡ result.shared.halt }
    ensures each { (i : ℕ) (d : P) (owner : List ℕ) → slice_get owners.now i ≡ Some owner
        → EndsConducting (P.gives (slice_index_or runners.old.items i d))
        (P.did (slice_index_or runners.old.items i d)) shared.board.past i owner
        (P.did (slice_index_or runners.new.items i d)) (made_since shared result.shared) result.halt }
    ensures all { result.halt ≡ None → AllClaimed shared.board.past (made_since shared result.shared) }
    ensures count { vec_len runners.new ≡ vec_len runners.old }
    ensures gives { (i : ℕ) (d : P) → i < vec_len runners.old
        → GiveSame (P.gives (slice_index_or runners.old.items i d)) (P.gives (slice_index_or runners.new.items i d)) }
{
    let board = Conducting::begin(shared, owners);
    let count = runners.len();
    let Ok(room) = Vec::with_capacity(alloc, count) else {
        return give_up(board);
    };
    let Ok(back) = Vec::with_capacity(alloc, count) else {
        return give_up(board);
    };
    match Turnstile::make(alloc, board, count as u8) {
        Ok((turnstile, passes)) => {
            run_all(rt, alloc, turnstile, passes, owners, runners, room, back)
        }
        Err((board, _)) => give_up(board),
    }
}
