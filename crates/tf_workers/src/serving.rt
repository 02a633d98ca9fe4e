ghost use Rattle.std.specs.Prelude.{MatchResult};
ghost use Rattle.tf_workers.specs.Progress.{HasAnsweredAll};
ghost use Rattle.tf_workers.specs.Session.{Seen, seen, Serves};

use crate::answering::{Stop, answer};
use std::alloc::Global;
use tf_actions::Performer;
use tf_ports::Link;
use tf_sessions::{Incoming, ServeEnd};

/// Serves the requests that come over the link, in order, until it ends: says that an order runs, has the hand
/// perform it, and says the outcome.
pub fn serve<L: Link, P: Performer>(alloc: Global, link: &mut L, hand: &mut P) -> ServeEnd
    ensures { Serves P.gives (seen L.left L.transcript L.faults L.ends P.did link.old hand.old)
        (seen L.left L.transcript L.faults L.ends P.did link.new hand.new) result }
{
    let mut incoming = Incoming::make(alloc);
    for _ in 0..u64::MAX {
        if let Err(end) = go_on(alloc, &mut incoming, link, hand) {
            return end;
        }
    }
    // No session has so many frames and pieces.
    ServeEnd::Memory
}

/// Answers the first frame that waits, or else takes in what comes next.
fn go_on<L: Link, P: Performer>(
    alloc: Global,
    incoming: &mut Incoming,
    link: &mut L,
    hand: &mut P,
) -> Result<(), ServeEnd>
    ensures { (before : Seen)
        → HasAnsweredAll P.gives before
        (seen L.left L.transcript L.faults L.ends P.did link.old hand.old)
        incoming.old
        → MatchResult result
        (λ _. HasAnsweredAll P.gives before
        (seen L.left L.transcript L.faults L.ends P.did link.new hand.new) incoming.new)
        (Serves P.gives before (seen L.left L.transcript L.faults L.ends P.did link.new hand.new)) }
{
    let Some(frame) = incoming.frames.take_frame() else {
        return incoming.receive(alloc, link);
    };
    match answer(alloc, &frame, link, hand) {
        Ok(()) => {
            incoming.pass(frame.len());
            Ok(())
        }
        Err(Stop::Bad) => Err(ServeEnd::Bad { at: incoming.place }),
        Err(Stop::Lost) => Err(ServeEnd::Lost),
        Err(Stop::Memory) => Err(ServeEnd::Memory),
    }
}
