use crate::boards::{post, shared_board};
use crate::links::{claimed_board, frames, link};
use std::alloc::Global;
use std::sync::Wait;
use std::test::Fail;
use std::thread::Threads;
use tf_board_service::{ServedBoard, SessionEnd, serve_board};
use tf_desk::MemoryDesk;
use tf_ports::MemoryLink;
use tf_shared_board::{BoardHalt, SharedBoard};
use tf_states::Priority;
use tf_values::Val;

/// A request for the list.
pub(crate) const LIST: &str = "{\"call\":\"list\"}";

/// What one session leaves: how it ended, its points, and what its link was sent; and of the board how many calls were
/// made, and whether it is halted.
#[derive(Drop)]
pub(crate) struct Left {
    pub(crate) end: SessionEnd,
    pub(crate) points: Vec<u64>,
    pub(crate) sent: Vec<u8>,
    pub(crate) made: usize,
    pub(crate) halted: Option<BoardHalt>,
}

/// What the only session of a board that was served leaves.
fn left_by(
    alloc: Global,
    served: &ServedBoard<MemoryDesk>,
    links: &[MemoryLink],
) -> Result<Left, Fail> {
    let [session] = served.sessions.items() else {
        return Err(Fail::from("not one session"));
    };
    let [link] = links else {
        return Err(Fail::from("not one link"));
    };
    Ok(Left {
        end: session.end,
        points: Vec::from_slice(alloc, session.points.items())?,
        sent: Vec::from_slice(alloc, link.sent())?,
        made: served.shared.made().len(),
        halted: served.shared.halted(),
    })
}

/// What a session over a link leaves.
pub(crate) fn served<T: Threads + Wait + Sync>(
    rt: &T,
    alloc: Global,
    shared: SharedBoard<MemoryDesk>,
    link: MemoryLink,
) -> Result<Left, Fail> {
    let mut links = Vec::new(alloc);
    links.push(link)?;
    match serve_board(rt, alloc, shared, &mut links) {
        Ok(served) => left_by(alloc, &served, &links),
        Err(_) => Err(Fail::from("memory")),
    }
}

/// What a session leaves whose link gives these messages.
pub(crate) fn asked<T: Threads + Wait + Sync>(
    rt: &T,
    alloc: Global,
    shared: SharedBoard<MemoryDesk>,
    messages: &[&str],
) -> Result<Left, Fail> {
    let bytes = frames(alloc, messages)?;
    served(rt, alloc, shared, link(alloc, bytes))
}

/// Whether a session ended so, with these replies at these points.
pub(crate) fn is_left(
    alloc: Global,
    left: &Left,
    end: SessionEnd,
    points: &[u64],
    replies: &[&str],
) -> Result<bool, Fail> {
    let told = frames(alloc, replies)?;
    Ok(left.end == end && left.points.as_slice() == points && left.sent == told)
}

#[test]
fn a_frame_has_its_length_first(rt: HostRuntime) -> Result<(), Fail> {
    let alloc = rt.alloc();
    let asked = frames(alloc, &[LIST])?;
    assert!(rt; asked.as_slice() == b"\x00\x00\x00\x0f{\"call\":\"list\"}".as_slice());
    let told = frames(alloc, &["{\"lines\":[]}"])?;
    assert!(rt; told.as_slice() == b"\x00\x00\x00\x0c{\"lines\":[]}".as_slice());
    Ok(())
}

#[test]
fn an_empty_board_lists_nothing(rt: HostRuntime) -> Result<(), Fail> {
    let alloc = rt.alloc();
    let shared = shared_board(alloc, &[])?;
    let left = asked(&rt, alloc, shared, &[LIST])?;
    let told = is_left(alloc, &left, SessionEnd::Ended, &[0], &["{\"lines\":[]}"])?;
    assert!(rt; told && left.made == 0);
    Ok(())
}

#[test]
fn a_job_that_somebody_has_is_not_claimed(rt: HostRuntime) -> Result<(), Fail> {
    let alloc = rt.alloc();
    let shared = claimed_board(alloc)?;
    let claim =
        "{\"call\":\"claim\",\"id\":\"584cd1e7-aed6-500d-8055-e04f2efc0be6\",\"owner\":\"bob\"}";
    let left = asked(&rt, alloc, shared, &[claim])?;
    let refused = "{\"refused\":\"claimed by ann\"}";
    let told = is_left(alloc, &left, SessionEnd::Ended, &[3], &[refused])?;
    assert!(rt; told && left.made == 3);
    Ok(())
}

/// What a client asks that posts a job, and its owner claims and trashes it.
const ASKED: [&str; 7] = [
    "{\"call\":\"post\",\"details\":null,\"name\":\"build\",\"priority\":\"NORMAL\"}",
    "{\"call\":\"claim\",\"id\":\"584cd1e7-aed6-500d-8055-e04f2efc0be6\",\"owner\":\"ann\"}",
    "{\"call\":\"owner\",\"id\":\"584cd1e7-aed6-500d-8055-e04f2efc0be6\"}",
    "{\"call\":\"list\"}",
    "{\"call\":\"consume\",\"id\":\"584cd1e7-aed6-500d-8055-e04f2efc0be6\",\"owner\":\"bob\"}",
    "{\"call\":\"trash\",\"id\":\"584cd1e7-aed6-500d-8055-e04f2efc0be6\",\"owner\":\"ann\"}",
    "{\"call\":\"owner\",\"id\":\"584cd1e7-aed6-500d-8055-e04f2efc0be6\"}",
];

/// What it is told.
const TOLD: [&str; 7] = [
    "{\"lines\":[\"posted 584cd1e7-aed6-500d-8055-e04f2efc0be6\"]}",
    "{\"lines\":[\"claimed 584cd1e7-aed6-500d-8055-e04f2efc0be6 ann\"]}",
    "{\"lines\":[\"owner ann\"]}",
    "{\"lines\":[\"NORMAL 1 584cd1e7-aed6-500d-8055-e04f2efc0be6 build CLAIMED ann\"]}",
    "{\"refused\":\"not the owner: ann\"}",
    "{\"lines\":[\"trashed 584cd1e7-aed6-500d-8055-e04f2efc0be6\"]}",
    "{\"refused\":\"job gone: 584cd1e7-aed6-500d-8055-e04f2efc0be6\"}",
];

#[test]
fn a_session_reads_its_own_commands(rt: HostRuntime) -> Result<(), Fail> {
    let alloc = rt.alloc();
    let shared = shared_board(alloc, &[])?;
    let left = asked(&rt, alloc, shared, &ASKED)?;
    let points = [0, 1, 2, 2, 2, 2, 3];
    let told = is_left(alloc, &left, SessionEnd::Ended, &points, &TOLD)?;
    assert!(rt; told && left.made == 3);
    Ok(())
}

/// A board with so many jobs.
fn full_board(alloc: Global, jobs: u64) -> Result<SharedBoard<MemoryDesk>, Fail> {
    let mut shared = shared_board(alloc, &[])?;
    for _ in 0..jobs {
        post(&mut shared, b"job", Priority::Normal, Val::Nothing)?;
    }
    Ok(shared)
}

/// How many quotation marks there are.
fn marks(bytes: &[u8]) -> u64 {
    let mut count = 0u64;
    for byte in bytes {
        if *byte == 34 {
            count = count.saturating_add(1);
        }
    }
    count
}

#[test]
fn a_list_has_at_most_a_thousand_lines(rt: HostRuntime) -> Result<(), Fail> {
    let alloc = rt.alloc();
    let shared = full_board(alloc, 1_001)?;
    let left = asked(&rt, alloc, shared, &[LIST])?;
    // Two quotation marks each, and those of the key.
    assert!(rt; marks(&left.sent) == 2_002 && left.points.as_slice() == [1_001].as_slice());
    Ok(())
}
