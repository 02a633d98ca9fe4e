ghost use Rattle.std.specs.Prelude.{◌≡◌, ◌<◌, ◌≤◌, ℕ, [], IfErr, IfOk, IsSome, length, slice_index_or, true, vec_capacity, vec_len};
ghost use Rattle.std.specs.List.{All};
ghost use Rattle.tf_board.specs.Board.{AreOfBoard};
ghost use Rattle.tf_turnstile.specs.Passes.{AreNew};
ghost use Rattle.tf_ports.specs.Ports.{seen_link};
ghost use Rattle.tf_board_service.specs.Served.{AreServed};
ghost use Rattle.tf_board_service.specs.Serving.{IsServing, made_since};
ghost use Rattle.tf_board_service.specs.Sessions.{HaltsWith, IsServed};
ghost use Rattle.tf_board_service.specs.Turning.{IsFresh};
ghost use Rattle.tf_board_service.specs.declared.sessions.Session.{Session as ASession};

use crate::hiring::{dismiss, hire, serve_through};
use crate::serving::Server;
use crate::sessions::{Session, Sessions};
use crate::turns::Serving;
use std::alloc::Global;
use std::sync::Wait;
use std::thread::Threads;
use tf_desk::Desk;
use tf_ports::Link;
use tf_shared_board::SharedBoard;
use tf_turnstile::{Pass, Turnstile};
use tf_values::Memory;

/// What a service leaves: the shared board, and how its sessions ended, in the order of their links.
#[derive(Drop)]
pub struct ServedBoard<K: Desk> {
    pub shared: SharedBoard<K>,
    pub sessions: Sessions,
}

/// The end of a service. Where a session is halted the board is: if it wasn't before, then for want of memory.
fn conclude<K: Desk>(board: Serving<K>, halted: bool) -> SharedBoard<K>
    ensures board { IsServing K.state (record { begun = board.begun; now = result }) }
    ensures legal { AreOfBoard result.board.past }
    ensures made { result.made ≡ board.now.made }
    ensures halted { halted ≡ true → IsSome result.halt }
{
    board.known();
    let mut shared = board.into_shared();
    if halted {
        shared.halt_for_memory();
    }
    shared
}

/// Lets the links be served, and takes the board back.
fn serve_links<K: Desk + Send, L: Link + Send, T: Threads + Wait + Sync>(
    rt: &T,
    alloc: Global,
    turnstile: Turnstile<Serving<K>>,
    passes: Vec<Pass<Serving<K>>>,
    links: &mut Vec<L>,
    room: Vec<Server<K, L>>,
    back: Vec<Pass<Serving<K>>>,
    sessions: Vec<Session>,
) -> ServedBoard<K>
    requires fresh { IsFresh turnstile }
    requires many { (1 ≤ vec_len links.old) × (vec_len links.old ≤ 64) }
    requires passes { (turnstile.passes ≡ vec_len links.old) × AreNew turnstile passes.items }
    requires room { (room.items ≡ []) × (vec_len links.old ≤ vec_capacity room) }
    requires back { (back.items ≡ []) × (vec_len links.old ≤ vec_capacity back) }
    requires sessions { (sessions.items ≡ []) × (vec_len links.old ≤ vec_capacity sessions) }
    ensures { AreServed K.state L.left L.transcript L.faults L.ends turnstile.start.begun result.shared
        links.old.items links.new.items result.sessions }
{
    let mut back = back;
    let mut sessions = sessions;
    let hired = hire(alloc, links, passes, room);
    let done = serve_through(rt, alloc, &turnstile, hired);
    let halted = dismiss(done, links, &mut back, &mut sessions);
    let board = turnstile.close(back);
    board.known();
    let shared = conclude(board, halted);
    ServedBoard {
        shared,
        sessions: Sessions::make(sessions),
    }
}

/// Serves 1 to 64 links side by side from a shared board, each in a session of its own: each request is answered from
/// the board as it stands then, until the link ends or fails, a request is bad, or the board is halted. Want of memory
/// is answered only before any session has begun, and gives the board back.
pub fn serve_board<K: Desk + Send, L: Link + Send, T: Threads + Wait + Sync>(
    rt: &T,
    alloc: Global,
    shared: SharedBoard<K>,
    links: &mut Vec<L>,
) -> Result<ServedBoard<K>, (SharedBoard<K>, Memory)>
    requires many { (1 ≤ vec_len links.old) × (vec_len links.old ≤ 64) }
    ensures board { IfOk result (λ served. IsServing K.state (record { begun = shared; now = served.shared })) }
    ensures legal { IfOk result (λ served. AreOfBoard served.shared.board.past) }
    ensures each { IfOk result (λ served. (i : ℕ) (d : L) (s : ASession) → i < vec_len links.old
        → IsServed i (length shared.board.past) served.shared.board.past (made_since shared served.shared)
        (seen_link L.left L.transcript L.faults L.ends (slice_index_or links.old.items i d))
        (seen_link L.left L.transcript L.faults L.ends (slice_index_or links.new.items i d))
        (slice_index_or served.sessions i s)) }
    ensures numbers { IfOk result (λ served. All (λ m. m.number < vec_len links.old)
        (made_since shared served.shared)) }
    ensures halted { IfOk result (λ served. HaltsWith served.shared.halt served.sessions) }
    ensures count { IfOk result (λ served. (vec_len links.new ≡ vec_len links.old)
        × (length served.sessions ≡ vec_len links.old)) }
    ensures memory { IfErr result (λ refused. (refused.0 ≡ shared) × (links.new.items ≡ links.old.items)) }
{
    let count = links.len();
    let Ok(room) = Vec::with_capacity(alloc, count) else {
        return Err((shared, Memory));
    };
    let Ok(back) = Vec::with_capacity(alloc, count) else {
        return Err((shared, Memory));
    };
    let Ok(sessions) = Vec::with_capacity(alloc, count) else {
        return Err((shared, Memory));
    };
    match Turnstile::make(alloc, Serving::begin(shared), count as u8) {
        Ok((turnstile, passes)) => Ok(serve_links(
            rt, alloc, turnstile, passes, links, room, back, sessions,
        )),
        Err((board, _)) => Err((board.into_shared(), Memory)),
    }
}
