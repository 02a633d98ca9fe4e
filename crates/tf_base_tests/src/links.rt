ghost use Rattle.std.specs.Prelude.{◌<◌, length};

use crate::lists::{bytes, numbers};
use std::alloc::Global;
use std::process::Abort;
use std::test::Fail;
use tf_ports::*;

/// A link in memory that gives `frame` in pieces of at most three bytes, and whose third call fails.
fn link(alloc: Global) -> Result<MemoryLink, Fail> {
    let frame = bytes(alloc, b"frame")?;
    let failing = numbers(alloc, &[3])?;
    Ok(MemoryLink::make(alloc, frame, 3, failing))
}

/// Takes what comes next over the link.
fn came(link: &mut MemoryLink, buf: &mut [u8]) -> Came
    requires { 0 < length buf.old }
{
    link.recv(buf)
}

/// Whether these bytes are sent over the link.
fn is_sent(link: &mut MemoryLink, bytes: &[u8]) -> bool {
    link.send(bytes).is_ok()
}

/// The link gives its first piece, sends four bytes, and fails to send four more after two of them.
fn assert_fails_at_its_third_call(rt: &impl Abort, link: &mut MemoryLink, buf: &mut [u8])
    requires { 0 < length buf.old }
{
    assert!(rt; came(link, buf) == Came::Bytes(3));
    assert!(rt; is_sent(link, b"abcd"));
    assert!(rt; !is_sent(link, b"efgh"));
}

#[test]
fn a_link_in_memory_gives_pieces_and_then_its_end(rt: HostRuntime) -> Result<(), Fail> {
    let mut link = link(rt.alloc())?;
    let mut buf = [0; 8];
    assert_fails_at_its_third_call(&rt, &mut link, &mut buf);
    assert!(rt; came(&mut link, &mut buf) == Came::Bytes(2));
    assert_eq!(rt; &buf[..3], b"mea".as_slice());
    assert!(rt; came(&mut link, &mut buf) == Came::End);
    assert_eq!(rt; link.sent(), b"abcdef".as_slice());
    Ok(())
}

/// A door in memory of one link, whose third call fails.
fn door(alloc: Global) -> Result<MemoryDoor<MemoryLink>, Fail> {
    let mut links = Vec::new(alloc);
    links.push(link(alloc)?)?;
    let failing = numbers(alloc, &[3])?;
    Ok(MemoryDoor::make(alloc, links, failing))
}

/// Whether the door is opened.
fn is_opened(alloc: Global, door: &mut MemoryDoor<MemoryLink>) -> bool {
    door.listen(alloc, &Address::Tcp(1)).is_ok()
}

/// The link that the door gives.
fn accepted(alloc: Global, door: &mut MemoryDoor<MemoryLink>) -> Option<MemoryLink> {
    door.accept(alloc).ok()
}

/// Whether the door fails to give a link.
fn fails(alloc: Global, door: &mut MemoryDoor<MemoryLink>) -> bool {
    matches!(door.accept(alloc), Err(PortFault::Failed))
}

/// Whether the door gives a link and takes it back.
fn gives(alloc: Global, door: &mut MemoryDoor<MemoryLink>) -> bool {
    let Some(link) = accepted(alloc, door) else {
        return false;
    };
    door.close(link).is_ok()
}

#[test]
fn a_door_in_memory_is_opened_before_it_gives_links(rt: HostRuntime) -> Result<(), Fail> {
    let alloc = rt.alloc();
    let mut door = door(alloc)?;
    assert!(rt; fails(alloc, &mut door));
    assert!(rt; is_opened(alloc, &mut door));
    assert!(rt; fails(alloc, &mut door));
    assert!(rt; gives(alloc, &mut door));
    assert!(rt; door.opened().len() == 1);
    assert!(rt; door.returned().len() == 1);
    assert!(rt; fails(alloc, &mut door));
    Ok(())
}
