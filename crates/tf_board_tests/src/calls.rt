//! The calls of a board.
use crate::boards::{empty_board, named};
use std::alloc::Global;
use std::process::Abort;
use std::test::Fail;
use tf_board::{Board, Owner, job_id};
use tf_desk::Desk;
use tf_report::Priority;
use tf_values::{Name, Val};
use uuid::Uuid;

/// The id of the job of that number and name.
pub(crate) fn id(alloc: Global, number: u64, name: Name) -> Result<Uuid, Fail> {
    match job_id(alloc, number, &name) {
        Ok(id) => Ok(id),
        Err(_) => Err(Fail::from("no memory")),
    }
}

/// The number of the job that is posted.
fn posted<K: Desk>(
    board: &mut Board<K>,
    name: Name,
    priority: Priority,
    details: Val,
) -> Option<u64> {
    board.post(name, priority, details).ok()
}

/// Whether somebody claims the job of that id.
fn claims<K: Desk>(board: &mut Board<K>, id: Uuid, owner: Name) -> bool {
    board.claim(&id, &owner).is_ok()
}

/// Whether somebody abandons the job of that id.
fn abandons<K: Desk>(board: &mut Board<K>, id: Uuid, owner: Name) -> bool {
    board.abandon(&id, &owner).is_ok()
}

/// Whether somebody consumes the job of that id.
fn consumes<K: Desk>(board: &mut Board<K>, id: Uuid, owner: Name) -> bool {
    board.consume(&id, &owner).is_ok()
}

/// Whether somebody trashes the job of that id.
fn trashes<K: Desk>(board: &mut Board<K>, id: Uuid, owner: Name) -> bool {
    board.trash(&id, &owner).is_ok()
}

/// Whether the job of that id is somebody's.
fn is_of<K: Desk>(board: &Board<K>, id: Uuid, name: Name) -> bool {
    match board.owner(&id) {
        Owner::Of(owner) => owner == name,
        _ => false,
    }
}

/// How many jobs are listed.
fn listed<K: Desk>(board: &Board<K>) -> Result<usize, Fail> {
    match board.list() {
        Ok(list) => Ok(list.len()),
        Err(_) => Err(Fail::from("no memory")),
    }
}

#[test]
fn a_job_is_claimed_abandoned_and_consumed(rt: HostRuntime) -> Result<(), Fail> {
    let alloc = rt.alloc();
    let mut board = empty_board(alloc, &[])?;
    let build = named(b"build")?;
    let ann = named(b"ann")?;
    let id = id(alloc, 1, build)?;
    assert!(rt; posted(&mut board, build, Priority::Low, Val::Nothing) == Some(1));
    assert!(rt; claims(&mut board, id, ann));
    assert!(rt; is_of(&board, id, ann));
    assert!(rt; abandons(&mut board, id, ann));
    assert!(rt; claims(&mut board, id, ann));
    assert!(rt; listed(&board)? == 1);
    assert!(rt; consumes(&mut board, id, ann));
    assert!(rt; listed(&board)? == 0);
    Ok(())
}

#[test]
fn a_claimed_job_is_trashed(rt: HostRuntime) -> Result<(), Fail> {
    let alloc = rt.alloc();
    let mut board = empty_board(alloc, &[])?;
    let build = named(b"build")?;
    let ann = named(b"ann")?;
    let id = id(alloc, 1, build)?;
    assert!(rt; posted(&mut board, build, Priority::Low, Val::Nothing).is_some());
    assert!(rt; claims(&mut board, id, ann));
    assert!(rt; trashes(&mut board, id, ann));
    assert!(rt; listed(&board)? == 0);
    Ok(())
}

#[test]
fn the_first_free_job_of_the_list_is_found(rt: HostRuntime) -> Result<(), Fail> {
    let alloc = rt.alloc();
    let mut board = empty_board(alloc, &[])?;
    let build = named(b"build")?;
    assert!(rt; posted(&mut board, build, Priority::Normal, Val::Int(1)).is_some());
    assert!(rt; posted(&mut board, build, Priority::High, Val::Int(2)).is_some());
    assert!(rt; board.free_job(&[]) == Some(2));
    assert!(rt; board.free_job(&[2]) == Some(1));
    Ok(())
}

/// The first job of a board, which is the only one, has that id, and the number 7 as its details.
fn assert_first<K: Desk>(rt: &impl Abort, board: &Board<K>, id: Uuid) {
    assert!(rt; board.id_of(1) == Some(id));
    assert!(rt; board.number_of(&id) == Some(1));
    assert!(rt; matches!(board.details_of(1), Some(Val::Int(7))));
    assert!(rt; board.count() == 1);
}

#[test]
fn a_job_has_an_id_and_details(rt: HostRuntime) -> Result<(), Fail> {
    let alloc = rt.alloc();
    let mut board = empty_board(alloc, &[])?;
    let build = named(b"build")?;
    assert!(rt; posted(&mut board, build, Priority::Low, Val::Int(7)).is_some());
    let id = id(alloc, 1, build)?;
    assert_first(&rt, &board, id);
    Ok(())
}
