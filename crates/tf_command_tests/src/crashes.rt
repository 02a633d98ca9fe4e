use crate::calls::{REVERTED_FLOW, went_on};
use crate::faults::{NO_FAULTS, desk, ran_over};
use std::alloc::Global;
use std::sync::Wait;
use std::test::Fail;
use std::thread::Threads;
use tf_desk::{MemoryDesk, Torn};
use tf_report::REVERTED;

/// The desk of a run that nothing met.
fn ran<R: Threads + Wait + Sync>(rt: &R, alloc: Global) -> Result<MemoryDesk, Fail> {
    let desk = desk(alloc, &[])?;
    let words = ["run", "flow.toml", "B"];
    let (desk, _) = ran_over(rt, alloc, desk, REVERTED_FLOW, &words, &NO_FAULTS, &[])?;
    Ok(desk)
}

/// Whether after a crash in this call of the run's desk, torn so, the beginning of what the run says is shown, and the next command
/// ends with a reversion.
fn is_reverted_after_a_crash<R: Threads + Wait + Sync>(
    rt: &R,
    alloc: Global,
    ran: &MemoryDesk,
    call: u64,
    torn: Torn,
) -> Result<bool, Fail> {
    if call < 1 || call > ran.made() {
        return Err(Fail::from("no such call"));
    }
    let desk = ran.crashed(alloc, call, torn)?;
    if !ran.shown().starts_with(desk.shown()) {
        return Ok(false);
    }
    let (desk, status) = went_on(rt, alloc, desk)?;
    Ok(status == REVERTED && desk.shown().ends_with(b"end main REVERTED\n".as_slice()))
}

/// Whether that is so of a crash in each call, torn so.
fn are_reverted_after_crashes<R: Threads + Wait + Sync>(
    rt: &R,
    alloc: Global,
    torn: Torn,
) -> Result<bool, Fail> {
    let ran = ran(rt, alloc)?;
    let calls = ran.made();
    for call in 1..=calls {
        if !is_reverted_after_a_crash(rt, alloc, &ran, call, torn)? {
            return Ok(false);
        }
    }
    Ok(true)
}

#[test]
fn a_flow_is_reverted_after_a_crash_that_leaves_the_old_bytes(rt: HostRuntime) -> Result<(), Fail> {
    assert!(rt; are_reverted_after_crashes(&rt, rt.alloc(), Torn::Old)?);
    Ok(())
}

#[test]
fn a_flow_is_reverted_after_a_crash_that_leaves_the_new_bytes(rt: HostRuntime) -> Result<(), Fail> {
    assert!(rt; are_reverted_after_crashes(&rt, rt.alloc(), Torn::New)?);
    Ok(())
}

#[test]
fn a_flow_is_reverted_after_a_crash_that_leaves_any_bytes(rt: HostRuntime) -> Result<(), Fail> {
    assert!(rt; are_reverted_after_crashes(&rt, rt.alloc(), Torn::Mixed(1))?);
    assert!(rt; are_reverted_after_crashes(&rt, rt.alloc(), Torn::Mixed(2))?);
    Ok(())
}
