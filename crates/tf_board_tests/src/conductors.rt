use crate::boards::{post, shared_board};
use crate::owners::{Reader, file, kind, owners};
use std::alloc::Global;
use std::sync::Wait;
use std::test::Fail;
use std::thread::Threads;
use tf_conductor::{Conducted, conduct};
use tf_desk::MemoryDesk;
use tf_shared_board::SharedBoard;
use tf_states::Priority;

/// What one such runner leaves of a board.
pub(crate) fn conducted<T: Threads + Wait + Sync>(
    rt: &T,
    alloc: Global,
    shared: SharedBoard<MemoryDesk>,
) -> Result<Conducted<MemoryDesk>, Fail> {
    let owners = owners(alloc, 1)?;
    let mut runners = Vec::new(alloc);
    runners.push(Reader)?;
    Ok(conduct(rt, alloc, shared, &owners, &mut runners))
}

#[test]
fn the_more_urgent_job_comes_first(rt: HostRuntime) -> Result<(), Fail> {
    let alloc = rt.alloc();
    let mut shared = shared_board(alloc, &[])?;
    post(
        &mut shared,
        b"build",
        Priority::Normal,
        file(alloc, b"ok.toml")?,
    )?;
    post(
        &mut shared,
        b"test",
        Priority::High,
        file(alloc, b"bad.toml")?,
    )?;
    let ended = conducted(&rt, alloc, shared)?;
    assert!(rt; ended.halt.is_none());
    let mut kinds = Vec::new(alloc);
    let mut jobs = Vec::new(alloc);
    for made in ended.shared.made() {
        kinds.push(kind(made))?;
        jobs.push(made.job)?;
    }
    assert_eq!(rt; kinds.as_slice(), [0, 0, 1, 2, 1, 3].as_slice());
    assert_eq!(rt; jobs.as_slice(), [1, 2, 2, 2, 1, 1].as_slice());
    assert_eq!(rt; ended.shared.board().free_job(&[]), Some(2));
    Ok(())
}

#[test]
fn on_an_empty_board_there_is_nothing_to_do(rt: HostRuntime) -> Result<(), Fail> {
    let alloc = rt.alloc();
    let ended = conducted(&rt, alloc, shared_board(alloc, &[])?)?;
    assert!(rt; ended.halt.is_none());
    assert_eq!(rt; ended.shared.made().len(), 0);
    Ok(())
}

#[test]
fn owners_are_named_from_0(rt: HostRuntime) -> Result<(), Fail> {
    let alloc = rt.alloc();
    let owners = owners(alloc, 11)?;
    let [first, .., last] = owners.items() else {
        return Err(Fail::from("too few"));
    };
    assert_eq!(rt; first.bytes(), b"ann-0".as_slice());
    assert_eq!(rt; last.bytes(), b"ann-10".as_slice());
    Ok(())
}
