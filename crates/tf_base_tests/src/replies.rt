ghost use Rattle.tf_actions.specs.Gives.{IsWhole};

use crate::frames::REQUEST;
use crate::lists::{joined, numbers};
use crate::orders::{echo, echo_of_missing};
use std::alloc::Global;
use std::process::Abort;
use std::test::Fail;
use tf_actions::{Order, Outcome};
use tf_ports::{Link, MemoryLink};
use tf_remote::RemoteHand;
use tf_states::Failure;
use tf_values::Val;

/// The frames of the whole reply of an echo of 1.
const RUNNING: &[u8] = b"\x00\x00\x00\x1a{\"id\":1,\"state\":\"RUNNING\"}";

const SUCCESS: &[u8] = b"\x00\x00\x00\x25{\"id\":1,\"result\":1,\"state\":\"SUCCESS\"}";

const OTHER: &[u8] = b"\x00\x00\x00\x25{\"id\":2,\"result\":1,\"state\":\"SUCCESS\"}";

const WRONG: &[u8] = b"\x00\x00\x00\x25{\"id\":1,\"result\":2,\"state\":\"SUCCESS\"}";

/// A hand over a link that gives these parts, one after the other, and whose call of that number fails.
fn hand_over(alloc: Global, parts: &[&[u8]], failing: u64) -> Result<RemoteHand<MemoryLink>, Fail> {
    let bytes = joined(alloc, parts)?;
    let failing = numbers(alloc, &[failing])?;
    Ok(RemoteHand::make(MemoryLink::make(alloc, bytes, 7, failing)))
}

/// What an order comes to.
fn obeyed<L: Link>(alloc: Global, hand: &mut RemoteHand<L>, order: &Order) -> Result<Outcome, Fail>
    requires { IsWhole order.now }
{
    match hand.obey(alloc, order) {
        Ok(outcome) => Ok(outcome),
        Err(_) => Err(Fail::from("no memory")),
    }
}

/// What an echo of 1 comes to.
fn echoed<L: Link>(alloc: Global, hand: &mut RemoteHand<L>) -> Result<Outcome, Fail> {
    let order = echo(alloc, Val::Int(1))?;
    obeyed(alloc, hand, &order)
}

/// What an echo of a symbol that is missing comes to.
fn echoed_missing<L: Link>(alloc: Global, hand: &mut RemoteHand<L>) -> Result<Outcome, Fail> {
    let order = echo_of_missing(alloc)?;
    obeyed(alloc, hand, &order)
}

/// What an echo of 1 comes to over a link that gives these parts.
fn asked(alloc: Global, parts: &[&[u8]]) -> Result<Outcome, Fail> {
    let mut hand = hand_over(alloc, parts, 0)?;
    echoed(alloc, &mut hand)
}

/// Two requests were sent over the link, of which the first is the request of an echo of 1.
fn assert_sent_twice(rt: &impl Abort, link: &MemoryLink) {
    let sent = link.sent();
    assert!(rt; sent.starts_with(REQUEST));
    assert!(rt; sent.len() == 2 * REQUEST.len());
}

#[test]
fn the_outcome_of_a_whole_reply_is_taken(rt: HostRuntime) -> Result<(), Fail> {
    let alloc = rt.alloc();
    let mut hand = hand_over(alloc, &[RUNNING, SUCCESS], 0)?;
    assert!(rt; matches!(echoed(alloc, &mut hand)?, Outcome::Gave(Val::Int(1))));
    assert!(rt; matches!(echoed(alloc, &mut hand)?, Outcome::Failed(Failure::Lost)));
    assert_sent_twice(&rt, &hand.link());
    Ok(())
}

/// Whether an echo of 1 is lost over a link that gives this alone.
fn is_lost(alloc: Global, part: &[u8]) -> Result<bool, Fail> {
    let outcome = asked(alloc, &[part])?;
    Ok(matches!(outcome, Outcome::Failed(Failure::Lost)))
}

#[test]
fn a_reply_that_is_cut_short_is_lost(rt: HostRuntime) -> Result<(), Fail> {
    let alloc = rt.alloc();
    for part in [&RUNNING[..0], &RUNNING[..10], RUNNING] {
        assert!(rt; is_lost(alloc, part)?);
    }
    Ok(())
}

/// Whether an echo of 1 comes to a bad reply at that place, over a link that gives these parts.
fn is_bad(alloc: Global, parts: &[&[u8]], place: u32) -> Result<bool, Fail> {
    match asked(alloc, parts)? {
        Outcome::Failed(Failure::BadReply(at)) => Ok(at == place),
        _ => Ok(false),
    }
}

#[test]
fn a_frame_that_no_worker_sends_is_a_bad_reply(rt: HostRuntime) -> Result<(), Fail> {
    let alloc = rt.alloc();
    for second in [OTHER, WRONG, RUNNING, &[0, 0, 0, 0]] {
        assert!(rt; is_bad(alloc, &[RUNNING, second], 30)?);
    }
    assert!(rt; is_bad(alloc, &[SUCCESS], 0)?);
    Ok(())
}

#[test]
fn an_order_with_a_missing_symbol_is_not_sent(rt: HostRuntime) -> Result<(), Fail> {
    let alloc = rt.alloc();
    // The first call over the link would fail.
    let mut hand = hand_over(alloc, &[], 1)?;
    assert!(rt;
        matches!(
            echoed_missing(alloc, &mut hand)?,
            Outcome::Failed(Failure::Lookup(_))
        )
    );
    assert!(rt; matches!(echoed(alloc, &mut hand)?, Outcome::Failed(Failure::Lost)));
    assert!(rt; hand.link().sent() == &REQUEST[..38]);
    Ok(())
}
