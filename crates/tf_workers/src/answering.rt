ghost use Rattle.std.specs.Prelude.{◌≡◌, ◌≢◌, Err, OnOk, OnErr, IfErr, IsErrOf};
ghost use Rattle.tf_numbers.specs.Numbers.{Rises};
ghost use Rattle.tf_ports.specs.Ports.{seen_link};
ghost use Rattle.tf_sessions.specs.Talks.{SendsAll, SendsPart};
ghost use Rattle.tf_workers.specs.Session.{spoken, told as told_by, seen};
ghost use Rattle.tf_workers.specs.Progress.{Answers, StopsFor};

use std::alloc::Global;
use tf_actions::{Outcome, Performer};
use tf_ports::Link;
use tf_wire::{Response, WireFault, print_response, read_request};

/// Why a frame wasn't answered.
#[derive(Clone, Copy, Debug, PartialEq, Eq)]
pub enum Stop {
    /// It spells no request.
    Bad,
    /// The link couldn't send.
    Lost,
    /// Memory ran out.
    Memory,
}

/// Reads the request that a frame spells, says that its order runs, has the hand perform it, and says the
/// outcome.
pub fn answer<L: Link, P: Performer>(
    alloc: Global,
    frame: &[u8],
    link: &mut L,
    hand: &mut P,
) -> Result<(), Stop>
    ensures answered { OnOk result (Answers P.gives frame.now
        (seen L.left L.transcript L.faults L.ends P.did link.old hand.old)
        (seen L.left L.transcript L.faults L.ends P.did link.new hand.new)) }
    ensures stopped { IfErr result (StopsFor P.gives frame.now
        (seen L.left L.transcript L.faults L.ends P.did link.old hand.old)
        (seen L.left L.transcript L.faults L.ends P.did link.new hand.new)) }
{
    let request = match read_request(alloc, frame) {
        Ok(request) => request,
        Err(WireFault::Bad { .. }) => return Err(Stop::Bad),
        Err(WireFault::Memory) => return Err(Stop::Memory),
    };
    let id = request.id;
    if let Err(stop) = say(alloc, &Response::Running(id), link) {
        return Err(stop);
    }
    let Ok(order) = request.order(alloc) else {
        return Err(Stop::Memory);
    };
    let Ok(outcome) = hand.perform(alloc, &order) else {
        return Err(Stop::Memory);
    };
    if let Err(stop) = say(alloc, &told(id, outcome), link) {
        return Err(stop);
    }
    Ok(())
}

/// The response that tells the outcome of an order.
fn told(id: u64, outcome: Outcome) -> Response
    ensures { result ≡ told_by id outcome }
{
    match outcome {
        Outcome::Gave(value) => Response::Success(id, value),
        Outcome::Failed(fault) => Response::Failure(id, fault),
    }
}

/// Sends a response as its frame.
fn say<L: Link>(alloc: Global, response: &Response, link: &mut L) -> Result<(), Stop>
    ensures said { OnOk result (SendsAll (spoken response.now) (seen_link L.left L.transcript L.faults L.ends link.old)
        (seen_link L.left L.transcript L.faults L.ends link.new)) }
    ensures cut { OnErr result (SendsPart (spoken response.now) (seen_link L.left L.transcript L.faults L.ends link.old)
        (seen_link L.left L.transcript L.faults L.ends link.new)) }
    ensures lost { IsErrOf result Stop.Lost → Rises (L.faults link.old) (L.faults link.new) }
    ensures not_bad { result ≢ Err Stop.Bad }
{
    let mut frame = Vec::new(alloc);
    let Ok(()) = print_response(alloc, response, &mut frame) else {
        return Err(Stop::Memory);
    };
    match link.send(&frame) {
        Ok(()) => Ok(()),
        Err(_) => Err(Stop::Lost),
    }
}
