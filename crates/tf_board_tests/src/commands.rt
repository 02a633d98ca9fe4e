//! The command that serves a board.
use crate::boards::desk;
use crate::links::{frames, link};
use std::alloc::Global;
use std::sync::Wait;
use std::test::Fail;
use std::thread::Threads;
use tf_board_service::serve_command;
use tf_desk::MemoryDesk;
use tf_ports::{Address, MemoryDoor, MemoryLink};
use tf_values::Text;

const LIST: &str = "{\"call\":\"list\"}";

const POST: &str =
    "{\"call\":\"post\",\"details\":null,\"name\":\"build\",\"priority\":\"NORMAL\"}";

/// A door that gives two links, whose stated calls fail. The client of the first posts a job, and that of the second
/// sends no request.
fn door(alloc: Global, failing: &[u64]) -> Result<MemoryDoor<MemoryLink>, Fail> {
    let mut links = Vec::new(alloc);
    links.push(link(alloc, frames(alloc, &[LIST, "{\"call\":\"lists\"}"])?))?;
    links.push(link(alloc, frames(alloc, &[POST])?))?;
    Ok(MemoryDoor::make(alloc, links, Vec::from_slice(alloc, failing)?))
}

/// What the command over two links leaves, on a new board, over a desk of whose calls the stated ones fail.
fn commanded<T: Threads + Wait + Sync>(
    rt: &T,
    alloc: Global,
    door: &mut MemoryDoor<MemoryLink>,
    failing: &[u64],
) -> Result<(MemoryDesk, u8), Fail> {
    let desk = desk(alloc, failing)?;
    let name = Text::make(alloc, b"B")?;
    let address = Address::Unix(Text::make(alloc, b"S")?);
    Ok(serve_command(rt, alloc, &name, &address, 2, desk, door))
}

/// How many links a door has back, and what the first of them was sent.
fn back(door: &MemoryDoor<MemoryLink>) -> (usize, &[u8]) {
    match door.returned().first() {
        Some(link) => (door.returned().len(), link.sent()),
        None => (0, &[]),
    }
}

/// What is said of two sessions, over the second of which a frame came that is no request.
const ENDED_AND_BAD: &[u8] = b"session 1 ended\nsession 2 bad 19\n";

#[test]
fn a_line_is_said_for_each_session(rt: HostRuntime) -> Result<(), Fail> {
    let alloc = rt.alloc();
    let mut door = door(alloc, &[])?;
    let (desk, status) = commanded(&rt, alloc, &mut door, &[])?;
    assert!(rt; status == 0 && desk.shown() == ENDED_AND_BAD && door.opened().len() == 1);
    let posted = "{\"lines\":[\"posted 584cd1e7-aed6-500d-8055-e04f2efc0be6\"]}";
    let told = frames(alloc, &[posted])?;
    let (links, sent) = back(&door);
    assert!(rt; links == 2 && sent == told.as_slice());
    Ok(())
}

/// What is said where nobody can be listened to, or a link doesn't come.
const UNLISTENED: &[u8] = b"taskflow: cannot listen\n";

#[test]
fn a_door_that_is_not_opened_is_said(rt: HostRuntime) -> Result<(), Fail> {
    let alloc = rt.alloc();
    let mut door = door(alloc, &[1])?;
    let (desk, status) = commanded(&rt, alloc, &mut door, &[])?;
    assert!(rt; status == 8 && desk.shown() == UNLISTENED && door.returned().len() == 0);
    Ok(())
}

#[test]
fn a_link_that_does_not_come_gives_the_others_back(rt: HostRuntime) -> Result<(), Fail> {
    let alloc = rt.alloc();
    let mut door = door(alloc, &[3])?;
    let (desk, status) = commanded(&rt, alloc, &mut door, &[])?;
    let (links, sent) = back(&door);
    assert!(rt; status == 8 && desk.shown() == UNLISTENED && links == 1 && sent.len() == 0);
    Ok(())
}

#[test]
fn a_disk_that_fails_at_first_is_said(rt: HostRuntime) -> Result<(), Fail> {
    let alloc = rt.alloc();
    let mut door = door(alloc, &[])?;
    let (desk, status) = commanded(&rt, alloc, &mut door, &[1])?;
    let said = desk.shown() == b"taskflow: disk fault\n".as_slice();
    assert!(rt; status == 5 && said && door.opened().len() == 0);
    Ok(())
}
