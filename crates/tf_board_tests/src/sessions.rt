ghost use Rattle.std.specs.Prelude.{◌≡◌, IfOk, vec_len};

use crate::boards::{call, named, shared_board};
use crate::links::{BUILD, claimed_board, frames, id, link};
use crate::replies::{LIST, asked, is_left, served};
use std::alloc::Global;
use std::test::Fail;
use tf_board::{JobAction, JobCall};
use tf_board_service::{Session, SessionEnd, serve_board};
use tf_desk::MemoryDesk;
use tf_ports::MemoryLink;
use tf_shared_board::{BoardHalt, SharedBoard};

/// The reply to a request for the list of an empty board.
const NOTHING: &str = "{\"lines\":[]}";

/// Two links: over the first comes a frame that is no request, and over the other one two requests.
fn links(alloc: Global) -> Result<Vec<MemoryLink>, Fail>
    ensures { IfOk result (λ links. vec_len links ≡ 2) }
{
    let mut links = Vec::new(alloc);
    links.push(link(alloc, frames(alloc, &[LIST, "{\"call\":\"lists\"}", LIST])?))?;
    links.push(link(alloc, frames(alloc, &[LIST, LIST])?))?;
    Ok(links)
}

/// Whether a session ended so, at these points.
fn ends(session: &Session, end: SessionEnd, points: &[u64]) -> bool {
    session.end == end && session.points.items() == points
}

#[test]
fn a_frame_that_is_no_request_ends_its_session_alone(rt: HostRuntime) -> Result<(), Fail> {
    let alloc = rt.alloc();
    let shared = shared_board(alloc, &[])?;
    let mut links = links(alloc)?;
    let Ok(served) = serve_board(&rt, alloc, shared, &mut links) else {
        return Err(Fail::from("memory"));
    };
    let [first, other] = served.sessions.items() else {
        return Err(Fail::from("not two sessions"));
    };
    assert!(rt; ends(first, SessionEnd::Bad { at: 19 }, &[0]));
    assert!(rt; ends(other, SessionEnd::Ended, &[0, 0]) && served.shared.halted().is_none());
    Ok(())
}

#[test]
fn a_link_that_ends_inside_a_frame_is_lost(rt: HostRuntime) -> Result<(), Fail> {
    let alloc = rt.alloc();
    let shared = shared_board(alloc, &[])?;
    let mut bytes = frames(alloc, &[LIST, LIST])?;
    bytes.truncate(30);
    let left = served(&rt, alloc, shared, link(alloc, bytes))?;
    let told = is_left(alloc, &left, SessionEnd::Lost, &[0], &[NOTHING])?;
    assert!(rt; told);
    Ok(())
}

#[test]
fn a_length_that_no_frame_has_is_bad(rt: HostRuntime) -> Result<(), Fail> {
    let alloc = rt.alloc();
    let shared = shared_board(alloc, &[])?;
    let mut bytes = frames(alloc, &[LIST])?;
    bytes.extend_from_slice(&[0, 0, 0, 0])?;
    let left = served(&rt, alloc, shared, link(alloc, bytes))?;
    assert!(rt; left.end == SessionEnd::Bad { at: 19 });
    Ok(())
}

/// A link that gives two requests, of whose calls the second fails.
fn failing_link(alloc: Global) -> Result<MemoryLink, Fail> {
    let bytes = frames(alloc, &[LIST, LIST])?;
    let failing = Vec::from_slice(alloc, &[2])?;
    Ok(MemoryLink::make(alloc, bytes, 19, failing))
}

#[test]
fn a_reply_that_is_not_sent_loses_the_link(rt: HostRuntime) -> Result<(), Fail> {
    let alloc = rt.alloc();
    let shared = claimed_board(alloc)?;
    let link = failing_link(alloc)?;
    let left = served(&rt, alloc, shared, link)?;
    assert!(rt; left.end == SessionEnd::Lost && left.points.as_slice() == [3].as_slice());
    Ok(())
}

/// The numbers that the desk's calls have by which the first command is written.
const LATER: [u64; 4] = [16, 17, 18, 19];

#[test]
fn a_disk_that_fails_halts_the_board(rt: HostRuntime) -> Result<(), Fail> {
    let alloc = rt.alloc();
    let shared = shared_board(alloc, &LATER)?;
    let post = "{\"call\":\"post\",\"details\":null,\"name\":\"build\",\"priority\":\"NORMAL\"}";
    let left = asked(&rt, alloc, shared, &[LIST, post, LIST])?;
    let told = is_left(alloc, &left, SessionEnd::Halted, &[0], &[NOTHING])?;
    assert!(rt; told && left.halted == Some(BoardHalt::Disk));
    Ok(())
}

#[test]
fn a_halted_board_answers_nothing(rt: HostRuntime) -> Result<(), Fail> {
    let alloc = rt.alloc();
    let mut shared = shared_board(alloc, &[])?;
    shared.halt_for_memory();
    let left = asked(&rt, alloc, shared, &[LIST])?;
    let told = is_left(alloc, &left, SessionEnd::Halted, &[], &[])?;
    assert!(rt; told);
    Ok(())
}

/// A board that is halted, on which a claimed job was given back.
fn halted_board(alloc: Global) -> Result<SharedBoard<MemoryDesk>, Fail> {
    let mut shared = claimed_board(alloc)?;
    let id = id(BUILD)?;
    let owner = named(b"ann")?;
    let abandon = JobCall::Apply {
        action: JobAction::Abandon,
        id,
        owner,
    };
    call(&mut shared, abandon)?;
    shared.halt_for_memory();
    Ok(shared)
}

#[test]
fn a_bad_request_is_found_on_a_halted_board_too(rt: HostRuntime) -> Result<(), Fail> {
    let alloc = rt.alloc();
    let shared = halted_board(alloc)?;
    let left = asked(&rt, alloc, shared, &["[]"])?;
    assert!(rt; left.end == SessionEnd::Bad { at: 0 });
    Ok(())
}
