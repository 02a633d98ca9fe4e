ghost use Rattle.std.specs.Prelude.{◌≤◌, length, IfOk};

use crate::frames::{REPLY, REQUEST};
use crate::orders::args;
use std::alloc::Global;
use std::process::Abort;
use std::test::Fail;
use tf_actions::Action;
use tf_flow::TaskKind;
use tf_states::Failure;
use tf_values::{Name, Text, Texts, Val};
use tf_wire::{Frames, Request, Response, WireFault, print_request, print_response, read_response};

/// The request of an echo of 1.
fn echo_of_one(alloc: Global) -> Result<Request, Fail>
    ensures words { IfOk result (λ request. length request.words ≤ 64) }
    ensures args { IfOk result (λ request. length request.args ≤ 64) }
{
    let args = args(alloc, Val::Int(1))?;
    Ok(Request {
        id: 1,
        action: Action::Execute,
        kind: TaskKind::Echo,
        words: Texts::make(Vec::new(alloc)),
        args,
    })
}

/// The bytes of the request of an echo of 1.
fn printed_request(alloc: Global) -> Result<Vec<u8>, Fail> {
    let request = echo_of_one(alloc)?;
    let mut out = Vec::new(alloc);
    match print_request(alloc, &request, &mut out) {
        Ok(()) => Ok(out),
        Err(_) => Err(Fail::from("no memory")),
    }
}

/// Adds the bytes of a response.
fn print(alloc: Global, response: &Response, out: &mut Vec<u8>) -> Result<(), Fail> {
    match print_response(alloc, response, out) {
        Ok(()) => Ok(()),
        Err(_) => Err(Fail::from("no memory")),
    }
}

/// The bytes of a response.
fn printed(alloc: Global, response: &Response) -> Result<Vec<u8>, Fail> {
    let mut out = Vec::new(alloc);
    print(alloc, response, &mut out)?;
    Ok(out)
}

#[test]
fn prints_a_request_and_its_reply(rt: HostRuntime) -> Result<(), Fail> {
    let alloc = rt.alloc();
    let request = printed_request(alloc)?;
    assert!(rt; request.as_slice() == REQUEST);
    let mut reply = printed(alloc, &Response::Running(1))?;
    print(alloc, &Response::Success(1, Val::Int(1)), &mut reply)?;
    assert!(rt; reply.as_slice() == REPLY);
    Ok(())
}

/// Feeds bytes that come over a link.
fn feed(alloc: Global, frames: &mut Frames, bytes: &[u8]) -> Result<(), WireFault> {
    frames.feed(alloc, bytes)
}

/// Feeds the reply byte by byte.
fn feed_reply(alloc: Global, frames: &mut Frames) -> bool {
    for byte in REPLY {
        if feed(alloc, frames, &[*byte]).is_err() {
            return false;
        }
    }
    true
}

/// The response of a frame.
fn read(alloc: Global, frame: &[u8]) -> Result<Response, Fail> {
    match read_response(alloc, frame) {
        Ok(response) => Ok(response),
        Err(_) => Err(Fail::from("the frame is refused")),
    }
}

/// The response of the next frame.
fn taken(alloc: Global, frames: &mut Frames) -> Result<Response, Fail> {
    match frames.take_frame() {
        Some(frame) => read(alloc, &frame),
        None => Err(Fail::from("no frame")),
    }
}

/// The frames hold the two responses of the reply, and no more.
fn assert_hold_the_reply(rt: &impl Abort, alloc: Global, frames: &mut Frames) -> Result<(), Fail> {
    assert!(rt; matches!(taken(alloc, frames)?, Response::Running(1)));
    assert!(rt; matches!(taken(alloc, frames)?, Response::Success(1, Val::Int(1))));
    assert!(rt; frames.take_frame().is_none());
    Ok(())
}

#[test]
fn takes_frames_of_pieces_up_to_a_bad_length(rt: HostRuntime) -> Result<(), Fail> {
    let alloc = rt.alloc();
    let mut frames = Frames::make(alloc);
    assert!(rt; feed_reply(alloc, &mut frames));
    let bad = Err(WireFault::Bad { at: 71 });
    assert!(rt; feed(alloc, &mut frames, b"\x00\x00\x00\x00more") == bad);
    assert!(rt; feed(alloc, &mut frames, REPLY) == bad);
    assert_hold_the_reply(&rt, alloc, &mut frames)
}

/// Whether a failure comes back from its frame: what is read of it is printed the same.
fn comes_back(alloc: Global, failure: Failure) -> Result<bool, Fail> {
    let out = printed(alloc, &Response::Failure(3, failure))?;
    if out.len() < 4 {
        return Err(Fail::from("no frame"));
    }
    let read = read(alloc, &out[4..])?;
    let again = printed(alloc, &read)?;
    Ok(out.as_slice() == again.as_slice())
}

#[test]
fn failures_come_back_from_their_frames(rt: HostRuntime) -> Result<(), Fail> {
    let alloc = rt.alloc();
    let text = Text::make(alloc, b"\"no\"\n").ok().ok_or("no text")?;
    assert!(rt; comes_back(alloc, Failure::Raised(text))?);
    let name = Name::make(b"x").ok_or("no name")?;
    assert!(rt; comes_back(alloc, Failure::WrongKind(name))?);
    assert!(rt; comes_back(alloc, Failure::Exit(-1))?);
    assert!(rt; comes_back(alloc, Failure::BadReply(4_294_967_295))?);
    assert!(rt; comes_back(alloc, Failure::Exhausted)?);
    Ok(())
}
