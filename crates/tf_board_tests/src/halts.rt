use crate::boards::{post, shared_board};
use crate::conductors::conducted;
use crate::owners::file;
use std::test::Fail;
use tf_shared_board::BoardHalt;
use tf_states::Priority;
use tf_values::Val;

#[test]
fn a_runner_without_memory_halts_the_board(rt: HostRuntime) -> Result<(), Fail> {
    let alloc = rt.alloc();
    let mut shared = shared_board(alloc, &[])?;
    post(&mut shared, b"build", Priority::Normal, Val::Nothing)?;
    let ended = conducted(&rt, alloc, shared)?;
    assert!(rt; ended.halt == Some(BoardHalt::Memory));
    assert_eq!(rt; ended.shared.made().len(), 2);
    Ok(())
}

/// The numbers that the desk's calls have by which the end of the job is written.
const ENDS: [u64; 4] = [24, 25, 26, 27];

#[test]
fn an_end_that_is_not_written_halts_the_board(rt: HostRuntime) -> Result<(), Fail> {
    let alloc = rt.alloc();
    let mut shared = shared_board(alloc, &ENDS)?;
    post(
        &mut shared,
        b"build",
        Priority::Normal,
        file(alloc, b"ok.toml")?,
    )?;
    let ended = conducted(&rt, alloc, shared)?;
    assert!(rt; ended.halt == Some(BoardHalt::Disk));
    assert_eq!(rt; ended.shared.made().len(), 2);
    assert_eq!(rt; ended.shared.board().free_job(&[]), None);
    Ok(())
}

#[test]
fn on_a_halted_board_nobody_works(rt: HostRuntime) -> Result<(), Fail> {
    let alloc = rt.alloc();
    let mut shared = shared_board(alloc, &[])?;
    post(
        &mut shared,
        b"build",
        Priority::Normal,
        file(alloc, b"ok.toml")?,
    )?;
    shared.halt_for_memory();
    let ended = conducted(&rt, alloc, shared)?;
    assert!(rt; ended.halt == Some(BoardHalt::Memory));
    assert_eq!(rt; ended.shared.made().len(), 1);
    Ok(())
}
