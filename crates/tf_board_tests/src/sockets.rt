use crate::links::{claimed_board, frames};
use std::alloc::Global;
use std::sync::Wait;
use std::test::Fail;
use std::thread::Threads;
use std::{fs, thread};
use tf_board_service::{SessionEnd, serve_board};
use tf_desk::MemoryDesk;
use tf_ports::{Address, Came, Dialer, Door, Link, SocketDialer, SocketDoor};
use tf_shared_board::SharedBoard;
use tf_values::Text;

/// The path of the socket, where the test runs.
const PATH: &str = "board.socket";

/// Takes one link at the door and serves it.
fn serve_one<D: Door, T: Threads + Wait + Sync>(
    rt: &T,
    alloc: Global,
    shared: SharedBoard<MemoryDesk>,
    door: &mut D,
) -> Option<SessionEnd> {
    let Ok(link) = door.accept(alloc) else {
        return None;
    };
    let mut links = Vec::new(alloc);
    let Ok(()) = links.push(link) else {
        return None;
    };
    let Ok(served) = serve_board(rt, alloc, shared, &mut links) else {
        return None;
    };
    match served.sessions.items().first() {
        Some(session) => Some(session.end),
        None => None,
    }
}

/// Whether the link is told these bytes once it has sent those.
fn asks<L: Link>(mut link: L, request: &[u8], reply: &[u8]) -> bool {
    if link.send(request).is_err() {
        return false;
    }
    let mut buffer = [0; 256];
    let mut at = 0;
    for _ in 0..256 {
        if at >= reply.len() {
            return true;
        }
        let Came::Bytes(count) = link.recv(&mut buffer) else {
            return false;
        };
        for byte in &buffer[..count] {
            if at >= reply.len() || reply[at] != *byte {
                return false;
            }
            at += 1;
        }
    }
    false
}

#[test]
fn a_client_asks_over_a_unix_socket(rt: HostRuntime) -> Result<(), Fail> {
    let alloc = rt.alloc();
    let _gone = fs::remove_file(&rt, PATH);
    let address = Address::Unix(Text::make(alloc, PATH.as_bytes()).ok().ok_or("no text")?);
    let mut door = SocketDoor::make(rt, 0o600);
    assert!(rt; door.listen(alloc, &address).is_ok());
    let mut dialer = SocketDialer::make(rt, None);
    let link = dialer.dial(alloc, &address).ok().ok_or("no link")?;
    let shared = claimed_board(alloc)?;
    let request = frames(
        alloc,
        &["{\"call\":\"owner\",\"id\":\"584cd1e7-aed6-500d-8055-e04f2efc0be6\"}"],
    )?;
    let reply = frames(alloc, &["{\"lines\":[\"owner ann\"]}"])?;
    let (asked, served) = thread::join(
        &rt,
        || asks(link, &request, &reply),
        || serve_one(&rt, alloc, shared, &mut door),
    );
    assert!(rt; asked);
    assert_eq!(rt; served, Some(SessionEnd::Ended));
    Ok(())
}
