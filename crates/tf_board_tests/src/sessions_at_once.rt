// A link that gives no byte until another was sent its reply.
ghost use Rattle.std.specs.Prelude.{◌≡◌, IfOk, None, vec_len};

use crate::boards::{post, shared_board};
use crate::links::frames;
use crate::waits::comes_to;
use std::alloc::Global;
use std::sync::Arc;
use std::sync::atomic::{AtomicU64, Ordering};
use std::test::Fail;
use tf_board_service::{Session, SessionEnd, serve_board};
use tf_desk::MemoryDesk;
use tf_ports::{Came, Link, LinkFault, MemoryLink};
use tf_shared_board::SharedBoard;
use tf_states::Priority;
use tf_values::Val;

/// A link in memory that waits for so many replies, its own and others', before it gives a byte, and counts those that it
/// was sent.
#[derive(Drop)]
struct WaitingLink {
    link: MemoryLink,
    replies: Arc<AtomicU64, Global>,
    wanted: u64,
}

impl Link for WaitingLink {
    ghost left = { λ _. None };

    ghost transcript = { λ link. link.link.transcript };

    ghost faults = { λ link. link.link.faults };

    ghost ends = { λ link. link.link.ends };

    fn send(&mut self, bytes: &[u8]) -> Result<(), LinkFault> {
        let sent = self.link.send(bytes);
        self.replies.fetch_add(1, Ordering::SeqCst);
        sent
    }

    fn recv(&mut self, buf: &mut [u8]) -> Came {
        let _waited = comes_to(&self.replies, self.wanted);
        self.link.recv(buf)
    }

    fn end(&mut self) {
        self.link.end();
    }
}

/// A link that gives these messages once so many replies were sent.
fn waiting(
    alloc: Global,
    replies: &Arc<AtomicU64, Global>,
    wanted: u64,
    messages: &[&str],
) -> Result<WaitingLink, Fail> {
    let bytes = frames(alloc, messages)?;
    Ok(WaitingLink {
        link: MemoryLink::make(alloc, bytes, 64, Vec::new(alloc)),
        replies: Arc::try_clone(replies)?,
        wanted,
    })
}

/// Two links, of which the first gives its question for an owner once the second was sent the reply to its claim.
fn links(alloc: Global) -> Result<Vec<WaitingLink>, Fail>
    ensures { IfOk result (λ links. vec_len links ≡ 2) }
{
    let replies = Arc::new(alloc, AtomicU64::new(0))?;
    let owner = "{\"call\":\"owner\",\"id\":\"584cd1e7-aed6-500d-8055-e04f2efc0be6\"}";
    let claim =
        "{\"call\":\"claim\",\"id\":\"584cd1e7-aed6-500d-8055-e04f2efc0be6\",\"owner\":\"bob\"}";
    let mut links = Vec::new(alloc);
    links.push(waiting(alloc, &replies, 1, &[owner])?)?;
    links.push(waiting(alloc, &replies, 0, &[claim])?)?;
    Ok(links)
}

/// A board with a job that nobody has.
fn board(alloc: Global) -> Result<SharedBoard<MemoryDesk>, Fail> {
    let mut shared = shared_board(alloc, &[])?;
    post(&mut shared, b"build", Priority::Normal, Val::Nothing)?;
    Ok(shared)
}

/// Whether a session ended well, at this point.
fn ends(session: &Session, point: u64) -> bool {
    session.end == SessionEnd::Ended && session.points.items() == [point].as_slice()
}

#[test]
fn a_session_is_told_what_another_did_before(rt: HostRuntime) -> Result<(), Fail> {
    let alloc = rt.alloc();
    let shared = board(alloc)?;
    let mut links = links(alloc)?;
    let Ok(served) = serve_board(&rt, alloc, shared, &mut links) else {
        return Err(Fail::from("memory"));
    };
    let [first, other] = served.sessions.items() else {
        return Err(Fail::from("not two sessions"));
    };
    assert!(rt; ends(first, 2) && ends(other, 1) && served.shared.made().len() == 2);
    let told = frames(alloc, &["{\"lines\":[\"owner bob\"]}"])?;
    let Some(link) = links.first() else {
        return Err(Fail::from("no link"));
    };
    assert!(rt; link.link.sent() == told.as_slice());
    Ok(())
}
