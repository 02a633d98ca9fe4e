//! The top call serves a board, and lets a conductor work on one.
use crate::faults::{CLOSED, Faults, NO_FAULTS, TWO_ECHOES, desk, ran_over};
use std::alloc::Global;
use std::sync::Wait;
use std::test::Fail;
use std::thread::Threads;
use tf_desk::MemoryDesk;

/// A request to post a job, and one to claim it.
const POST_AND_CLAIM: &[u8] =
    b"\x00\x00\x00\x41{\"call\":\"post\",\"details\":null,\"name\":\"build\",\"priority\":\"NORMAL\"}\x00\x00\x00\x4a{\"call\":\"claim\",\"id\":\"584cd1e7-aed6-500d-8055-e04f2efc0be6\",\"owner\":\"ann\"}";

/// The board's list after both.
const CLAIMED: &[u8] = b"NORMAL 1 584cd1e7-aed6-500d-8055-e04f2efc0be6 build CLAIMED ann\n";

/// A service of so many sessions over a desk and these links, the last first: the desk, and the status.
fn served<R: Threads + Wait + Sync>(
    rt: &R,
    alloc: Global,
    desk: MemoryDesk,
    links: &[&[u8]],
    sessions: &str,
    faults: &Faults,
) -> Result<(MemoryDesk, u8), Fail> {
    let words = ["board", "serve", "B", "unix:s", "--sessions", sessions];
    ran_over(rt, alloc, desk, TWO_ECHOES, &words, faults, links)
}

/// What is said of three sessions: one that asked well, one with an empty frame, and one whose link ends inside a frame.
const ENDED_BAD_LOST: &[u8] = b"session 1 ended
session 2 bad 0
session 3 lost
";

#[test]
fn a_service_says_how_its_sessions_ended(rt: HostRuntime) -> Result<(), Fail> {
    let alloc = rt.alloc();
    let desk = desk(alloc, &[])?;
    let links = [
        &POST_AND_CLAIM[..9],
        b"\x00\x00\x00\x00".as_slice(),
        POST_AND_CLAIM,
    ];
    let (desk, status) = served(&rt, alloc, desk, &links, "3", &NO_FAULTS)?;
    assert!(rt; status == 0 && desk.shown() == ENDED_BAD_LOST);
    let words = ["board", "list", "B"];
    let (desk, status) = ran_over(&rt, alloc, desk, TWO_ECHOES, &words, &NO_FAULTS, &[])?;
    assert!(rt; status == 0 && desk.shown().ends_with(CLAIMED));
    Ok(())
}

#[test]
fn a_service_that_nobody_comes_to_says_so(rt: HostRuntime) -> Result<(), Fail> {
    let alloc = rt.alloc();
    let desk = desk(alloc, &[])?;
    let (desk, status) = served(&rt, alloc, desk, &[POST_AND_CLAIM], "1", &CLOSED)?;
    assert!(rt; status == 8 && desk.shown() == b"taskflow: cannot listen\n".as_slice());
    Ok(())
}

/// What is said of a job that is posted, and then of a conductor that runs it.
const CONSUMED: &[u8] = b"posted 584cd1e7-aed6-500d-8055-e04f2efc0be6
claimed 584cd1e7-aed6-500d-8055-e04f2efc0be6 ann-0
consumed 584cd1e7-aed6-500d-8055-e04f2efc0be6
";

#[test]
fn a_conductor_runs_the_file_that_a_job_names(rt: HostRuntime) -> Result<(), Fail> {
    let alloc = rt.alloc();
    let desk = desk(alloc, &[])?;
    let words = ["board", "post", "B", "build", "--details", "flow.toml"];
    let (desk, _) = ran_over(&rt, alloc, desk, TWO_ECHOES, &words, &NO_FAULTS, &[])?;
    let words = ["conduct", "B", "ann"];
    let (desk, status) = ran_over(&rt, alloc, desk, TWO_ECHOES, &words, &NO_FAULTS, &[])?;
    assert!(rt; status == 0 && desk.shown() == CONSUMED);
    Ok(())
}
