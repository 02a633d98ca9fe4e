// What one session does: it takes the board for each request, and sends the reply without it.
ghost use Rattle.std.specs.Prelude.{◌≡◌, [], OnOk, IfErr, IfSome, MatchResult};
ghost use Rattle.tf_turnstile.specs.Passes.{IsIdle, new_pass};
ghost use Rattle.tf_ports.specs.Ports.{SeenLink, seen_link};
ghost use Rattle.tf_board_service.specs.Sessions.{reply_frame, talk_end};
ghost use Rattle.tf_board_service.specs.Printing.{HasFewLines};
ghost use Rattle.tf_board_service.specs.Turning.{HasServed, IsFresh, seen_calls, start_past};
ghost use Rattle.tf_board_service.specs.Turns.{AnswersFrame, HasAnsweredAll, HasWaited, IsOver, KnowsTurn, StopsFrame};

use crate::printing::print_reply;
use crate::replies::BoardReply;
use crate::requests::read_board_request;
use crate::sessions::SessionEnd;
use crate::turns::Serving;
use std::alloc::Global;
use std::sync::Wait;
use tf_board::BoardRequest;
use tf_desk::Desk;
use tf_ports::Link;
use tf_sessions::{Incoming, ServeEnd};
use tf_turnstile::{Pass, Turnstile};

/// A link with its pass, the points at which its requests were answered, and how its session ended.
#[derive(Drop)]
pub(crate) struct Server<K: Desk, L: Link> {
    pub(crate) link: L,
    pub(crate) pass: Pass<Serving<K>>,
    pub(crate) points: Vec<u64>,
    pub(crate) end: SessionEnd,
}

/// Takes the board to answer a request, and gives it home. None where the board is halted.
fn take_turn<K: Desk, T: Wait>(
    rt: &T,
    alloc: Global,
    turnstile: &Turnstile<Serving<K>>,
    pass: &mut Pass<Serving<K>>,
    number: u8,
    request: BoardRequest,
) -> Option<(u64, BoardReply)>
    requires fresh { IsFresh turnstile.now }
    requires idle { IsIdle turnstile.now number pass.old }
    ensures idle { IsIdle turnstile.now number pass.new }
    ensures turn { KnowsTurn (start_past turnstile.now) number request (seen_calls pass.old) (seen_calls pass.new)
        result }
{
    let mut board = turnstile.take(rt, pass);
    board.known();
    let point = board.point();
    let reply = board.answer(alloc, number, request);
    board.known();
    turnstile.give(board, pass);
    match reply {
        Some(reply) => Some((point, reply)),
        None => None,
    }
}

/// Takes the board to halt it for want of memory, and gives it home.
fn halt_board<K: Desk, T: Wait>(
    rt: &T,
    turnstile: &Turnstile<Serving<K>>,
    pass: &mut Pass<Serving<K>>,
    number: u8,
)
    requires fresh { IsFresh turnstile.now }
    requires idle { IsIdle turnstile.now number pass.old }
    ensures idle { IsIdle turnstile.now number pass.new }
    ensures waited { HasWaited number (seen_calls pass.old) (seen_calls pass.new) }
{
    let mut board = turnstile.take(rt, pass);
    board.known();
    board.halt();
    board.known();
    turnstile.give(board, pass);
}

/// A reply as its frame, or none for want of memory.
fn printed(alloc: Global, reply: &BoardReply) -> Option<Vec<u8>>
    requires few { HasFewLines reply.now }
    ensures { IfSome result (λ frame. frame.items ≡ reply_frame reply.now) }
{
    let mut frame = Vec::new(alloc);
    let Ok(()) = print_reply(alloc, reply, &mut frame) else {
        return None;
    };
    Some(frame)
}

/// Answers a frame that stands at this place. `Halted` is answered where the board is halted, and for want of memory.
fn answer_frame<K: Desk, L: Link, T: Wait>(
    rt: &T,
    alloc: Global,
    turnstile: &Turnstile<Serving<K>>,
    server: &mut Server<K, L>,
    number: u8,
    place: u64,
    frame: &[u8],
) -> Result<(), SessionEnd>
    requires fresh { IsFresh turnstile.now }
    requires idle { IsIdle turnstile.now number server.old.pass }
    ensures idle { IsIdle turnstile.now number server.new.pass }
    ensures answered { OnOk result (AnswersFrame number (start_past turnstile.now) frame.now
        (seen_calls server.old.pass) (seen_calls server.new.pass)
        server.old.points.items server.new.points.items
        (seen_link L.left L.transcript L.faults L.ends server.old.link)
        (seen_link L.left L.transcript L.faults L.ends server.new.link)) }
    ensures stopped { IfErr result (StopsFrame number (start_past turnstile.now) frame.now place
        (seen_calls server.old.pass) (seen_calls server.new.pass)
        server.old.points.items server.new.points.items
        (seen_link L.left L.transcript L.faults L.ends server.old.link)
        (seen_link L.left L.transcript L.faults L.ends server.new.link)) }
{
    let Ok(read) = read_board_request(alloc, frame) else {
        return Err(SessionEnd::Halted);
    };
    let Some(request) = read else {
        return Err(SessionEnd::Bad { at: place });
    };
    let Ok(()) = server.points.reserve(1) else {
        return Err(SessionEnd::Halted);
    };
    let Some((point, reply)) = take_turn(rt, alloc, turnstile, &mut server.pass, number, request)
    else {
        return Err(SessionEnd::Halted);
    };
    let Some(bytes) = printed(alloc, &reply) else {
        return Err(SessionEnd::Halted);
    };
    server.points.push_reserved(point);
    match server.link.send(&bytes) {
        Ok(()) => Ok(()),
        Err(_) => Err(SessionEnd::Lost),
    }
}

/// How a session ends whose link gives nothing more.
fn session_end(end: ServeEnd) -> SessionEnd
    ensures { talk_end result ≡ end }
{
    match end {
        ServeEnd::Ended => SessionEnd::Ended,
        ServeEnd::Lost => SessionEnd::Lost,
        ServeEnd::Bad { at } => SessionEnd::Bad { at },
        ServeEnd::Memory => SessionEnd::Halted,
    }
}

/// Answers the first frame that waits, or else takes in what comes next.
fn go_on<K: Desk, L: Link, T: Wait>(
    rt: &T,
    alloc: Global,
    turnstile: &Turnstile<Serving<K>>,
    server: &mut Server<K, L>,
    number: u8,
    incoming: &mut Incoming,
) -> Result<(), SessionEnd>
    requires fresh { IsFresh turnstile.now }
    requires idle { IsIdle turnstile.now number server.old.pass }
    ensures idle { IsIdle turnstile.now number server.new.pass }
    ensures goes { (before : SeenLink)
        → HasAnsweredAll number (start_past turnstile.now) (seen_calls server.old.pass) before
        (seen_link L.left L.transcript L.faults L.ends server.old.link) server.old.points.items
        incoming.old
        → MatchResult result
        (λ _. HasAnsweredAll number (start_past turnstile.now) (seen_calls server.new.pass) before
        (seen_link L.left L.transcript L.faults L.ends server.new.link) server.new.points.items
        incoming.new)
        (IsOver number (start_past turnstile.now) (seen_calls server.new.pass) before
        (seen_link L.left L.transcript L.faults L.ends server.new.link) server.new.points.items) }
{
    let Some(frame) = incoming.frames.take_frame() else {
        return match incoming.receive(alloc, &mut server.link) {
            Ok(()) => Ok(()),
            Err(end) => Err(session_end(end)),
        };
    };
    match answer_frame(rt, alloc, turnstile, server, number, incoming.place, &frame) {
        Ok(()) => {
            incoming.pass(frame.len());
            Ok(())
        }
        Err(end) => Err(end),
    }
}

/// Keeps how a session ended. Where it is halted the board is.
#[tactic(auto, using(crate::proofs::SessionLemmas::waited_none))]
fn finish<K: Desk, L: Link, T: Wait>(
    rt: &T,
    turnstile: &Turnstile<Serving<K>>,
    server: &mut Server<K, L>,
    number: u8,
    end: SessionEnd,
)
    requires fresh { IsFresh turnstile.now }
    requires idle { IsIdle turnstile.now number server.old.pass }
    ensures idle { IsIdle turnstile.now number server.new.pass }
    ensures waited { HasWaited number (seen_calls server.old.pass) (seen_calls server.new.pass) }
    ensures link { server.new.link ≡ server.old.link }
    ensures points { server.new.points.items ≡ server.old.points.items }
    ensures end { server.new.end ≡ end }
{
    server.end = end;
    if end != SessionEnd::Halted {
        return;
    }
    halt_board(rt, turnstile, &mut server.pass, number);
}

/// Serves a link until its session is over. Where it is halted the board is.
pub(crate) fn serve<K: Desk, L: Link, T: Wait>(
    rt: &T,
    alloc: Global,
    turnstile: &Turnstile<Serving<K>>,
    server: &mut Server<K, L>,
    number: u8,
)
    requires fresh { IsFresh turnstile.now }
    requires made { server.old.pass ≡ new_pass turnstile.now number }
    requires points { server.old.points.items ≡ [] }
    ensures { HasServed turnstile.now number (seen_link L.left L.transcript L.faults L.ends server.old.link)
        (seen_link L.left L.transcript L.faults L.ends server.new.link) server.new.points.items server.new.end
        server.new.pass }
{
    let mut incoming = Incoming::make(alloc);
    'frames: for _ in rt.forever() {
        if let Err(end) = go_on(rt, alloc, turnstile, server, number, &mut incoming) {
            finish(rt, turnstile, server, number, end);
            // The client learns that its session is over while other clients are still served.
            server.link.end();
            return;
        }
    }
    unreachable!()
}
