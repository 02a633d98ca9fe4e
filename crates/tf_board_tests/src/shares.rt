use crate::boards::{named, shared_board};
use crate::calls::id;
use std::test::Fail;
use tf_board::{BoardFault, JobAction, JobCall};
use tf_desk::Desk;
use tf_report::Priority;
use tf_shared_board::{BoardHalt, CallFault, SharedBoard};
use tf_values::{Name, Val};
use uuid::Uuid;

/// A call that posts a job of this name.
fn post(name: Name) -> JobCall {
    JobCall::Post {
        name,
        priority: Priority::Low,
        details: Val::Nothing,
    }
}

/// A claim of the job of that id.
fn claim(id: Uuid, owner: Name) -> JobCall {
    JobCall::Apply {
        action: JobAction::Claim,
        id,
        owner,
    }
}

/// What comes of a call.
fn called<K: Desk>(
    shared: &mut SharedBoard<K>,
    number: u8,
    call: JobCall,
) -> Result<u64, CallFault> {
    shared.call(number, call)
}

/// Whether a call goes to the job of number 1.
fn goes<K: Desk>(shared: &mut SharedBoard<K>, number: u8, call: JobCall) -> bool {
    matches!(called(shared, number, call), Ok(1))
}

/// Whether a call is refused since the job is claimed.
fn is_claimed<K: Desk>(shared: &mut SharedBoard<K>, number: u8, call: JobCall) -> bool {
    matches!(
        called(shared, number, call),
        Err(CallFault::Rule(BoardFault::Claimed(_)))
    )
}

/// Whether a call meets a board that the disk halted.
fn is_halted<K: Desk>(shared: &mut SharedBoard<K>, number: u8, call: JobCall) -> bool {
    matches!(
        called(shared, number, call),
        Err(CallFault::Halted(BoardHalt::Disk))
    )
}

#[test]
fn a_call_that_is_refused_halts_nothing(rt: HostRuntime) -> Result<(), Fail> {
    let alloc = rt.alloc();
    let mut shared = shared_board(alloc, &[])?;
    let name = named(b"build")?;
    let id = id(alloc, 1, name)?;
    assert!(rt; goes(&mut shared, 3, post(name)));
    assert!(rt; goes(&mut shared, 0, claim(id, name)));
    assert!(rt; is_claimed(&mut shared, 1, claim(id, name)));
    assert!(rt; shared.halted().is_none());
    assert!(rt; shared.made().len() == 2);
    Ok(())
}

#[test]
fn a_disk_fault_halts_for_good(rt: HostRuntime) -> Result<(), Fail> {
    let alloc = rt.alloc();
    let name = named(b"build")?;
    let mut shared = shared_board(alloc, &[16, 17, 18, 19])?;
    assert!(rt; is_halted(&mut shared, 0, post(name)));
    assert!(rt; is_halted(&mut shared, 0, post(name)));
    Ok(())
}
