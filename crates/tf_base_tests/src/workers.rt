use crate::frames::{REPLY, REQUEST};
use crate::lists::{joined, numbers};
use std::alloc::Global;
use std::process::Abort;
use std::test::Fail;
use tf_ports::{MemoryLink, MemorySpawner};
use tf_tasks::LocalHand;
use tf_workers::*;

/// A link that gives these parts one after the other, and whose call of that number fails.
fn link_of(alloc: Global, parts: &[&[u8]], failing: u64) -> Result<MemoryLink, Fail> {
    let bytes = joined(alloc, parts)?;
    let failing = numbers(alloc, &[failing])?;
    Ok(MemoryLink::make(alloc, bytes, 100, failing))
}

/// Serves the link by a hand of this process.
fn serve_link(alloc: Global, link: &mut MemoryLink) -> ServeEnd {
    let mut hand = LocalHand::make(MemorySpawner::make(alloc, Vec::new(alloc), Vec::new(alloc)));
    serve(alloc, link, &mut hand)
}

/// A link of these parts, whose call of that number fails, is lost, and these bytes were sent over it.
fn assert_lost(
    rt: &impl Abort,
    alloc: Global,
    parts: &[&[u8]],
    failing: u64,
    sent: &[u8],
) -> Result<(), Fail> {
    let mut link = link_of(alloc, parts, failing)?;
    assert_eq!(rt; serve_link(alloc, &mut link), ServeEnd::Lost);
    assert_eq!(rt; link.sent(), sent);
    Ok(())
}

#[test]
fn a_link_that_ends_inside_a_frame_or_fails_is_lost(rt: HostRuntime) -> Result<(), Fail> {
    let alloc = rt.alloc();
    assert_lost(&rt, alloc, &[&REQUEST[..10]], 0, b"")?;
    assert_lost(&rt, alloc, &[REQUEST, &REQUEST[..3]], 0, REPLY)?;
    // The second call sends that the order runs.
    assert_lost(&rt, alloc, &[REQUEST], 2, &REPLY[..15])
}
