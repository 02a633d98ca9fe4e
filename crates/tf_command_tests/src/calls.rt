use crate::faults::{NO_FAULTS, desk, ran_over};
use std::alloc::Global;
use std::sync::Wait;
use std::test::Fail;
use std::thread::Threads;
use tf_desk::MemoryDesk;
use tf_report::{DISK_FAILED, FORBIDDEN, REVERTED, UNSAID};

/// The last of three tasks fails, and the two before it are undone.
pub(crate) const REVERTED_FLOW: &[u8] = br#"name = "main"
kind = "linear"
items = [
    { task = "a", kind = "echo", inject = { value = 1 } },
    { task = "b", kind = "echo", inject = { value = 2 } },
    { task = "c", kind = "fail", inject = { message = "no" } },
]
"#;

/// More calls of its desk than a run of the flow makes.
const CALLS: u64 = 120;

/// Goes on with the flow of a file, or begins it anew where the file holds none: the desk, and the status.
pub(crate) fn went_on<R: Threads + Wait + Sync>(
    rt: &R,
    alloc: Global,
    desk: MemoryDesk,
) -> Result<(MemoryDesk, u8), Fail> {
    let (desk, status) = ran_over(
        rt,
        alloc,
        desk,
        REVERTED_FLOW,
        &["resume", "B"],
        &NO_FAULTS,
        &[],
    )?;
    if status != FORBIDDEN {
        return Ok((desk, status));
    }
    let words = ["run", "flow.toml", "B"];
    ran_over(rt, alloc, desk, REVERTED_FLOW, &words, &NO_FAULTS, &[])
}

/// Whether a run of which this call of the desk fails ends with the status of that fault, and the next command then with a reversion;
/// or with a reversion, where it doesn't make that call or the call asks for a stop.
fn is_reverted_after_a_fault<R: Threads + Wait + Sync>(
    rt: &R,
    alloc: Global,
    call: u64,
) -> Result<bool, Fail> {
    let desk = desk(alloc, &[call])?;
    let words = ["run", "flow.toml", "B"];
    let (desk, status) = ran_over(rt, alloc, desk, REVERTED_FLOW, &words, &NO_FAULTS, &[])?;
    if status == REVERTED {
        return Ok(true);
    }
    if status != DISK_FAILED && status != UNSAID {
        return Ok(false);
    }
    let (desk, status) = went_on(rt, alloc, desk)?;
    Ok(status == REVERTED && desk.shown().ends_with(b"end main REVERTED\n".as_slice()))
}

#[test]
fn a_flow_is_reverted_whatever_call_of_the_desk_fails(rt: HostRuntime) -> Result<(), Fail> {
    let alloc = rt.alloc();
    for call in 1..=CALLS {
        assert!(rt; is_reverted_after_a_fault(&rt, alloc, call)?);
    }
    Ok(())
}
