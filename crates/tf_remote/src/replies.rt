ghost use Rattle.std.specs.Prelude.{◌≡◌, IfOk, IfErr, MatchResult};
ghost use Rattle.tf_actions.specs.Gives.{IsWhole};
ghost use Rattle.tf_ports.specs.Ports.{seen_link};
ghost use Rattle.tf_remote.specs.Received.{StopsFrame, BringsSome, BringsAny, IsPart};
ghost use Rattle.tf_remote.specs.Stopped.{IsStopTaken, IsUnread};
ghost use Rattle.tf_wire.specs.Grammar.{AreResponse};
ghost use Rattle.tf_wire.specs.Stream.{IsFrame};
ghost use Rattle.tf_wire.specs.declared.messages.Response.{Response as Message};
ghost use Rattle.tf_remote.specs.Replies.{TellsRunning, TellsOutcome, TellsAny, IsFrameRefused, IsFirstFrame, IsOutcomeFrame, TakesFor};

use crate::allowing::allows;
use crate::receiving::{Stop, receive};
use std::alloc::Global;
use tf_actions::{Order, Outcome};
use tf_ports::Link;
use tf_states::Failure;
use tf_values::Memory;
use tf_wire::{Response, WireFault, read_response};

/// The reply to the request of that id, and what it is taken for.
pub fn receive_reply<L: Link>(
    alloc: Global,
    link: &mut L,
    id: u64,
    order: &Order,
) -> Result<Outcome, Memory>
    requires { IsWhole order.now }
    ensures came { IfOk result (TakesFor order.now id (seen_link L.left L.transcript L.faults L.ends link.old)
        (seen_link L.left L.transcript L.faults L.ends link.new)) }
    ensures memory { IfErr result (λ _. BringsAny (seen_link L.left L.transcript L.faults L.ends link.old)
        (seen_link L.left L.transcript L.faults L.ends link.new)) }
{
    let count = match receive_running(alloc, link, id) {
        Ok(count) => count,
        Err(stop) => return taken_for(stop, 0),
    };
    match receive_outcome(alloc, link, id, order) {
        Ok(outcome) => Ok(outcome),
        Err(stop) => taken_for(stop, count),
    }
}

/// The outcome of an order whose reply stopped behind so many bytes.
fn taken_for(stop: Stop, count: u32) -> Result<Outcome, Memory>
    ensures { MatchResult result (IsStopTaken stop count) (λ _. stop ≡ Stop.Memory) }
{
    match stop {
        Stop::Refused => Ok(Outcome::Failed(Failure::BadReply(count))),
        Stop::Lost => Ok(Outcome::Failed(Failure::Lost)),
        Stop::Memory => Err(Memory),
    }
}

/// Takes the frame that tells that the order of that id runs, and answers how many bytes it has in the stream.
fn receive_running<L: Link>(alloc: Global, link: &mut L, id: u64) -> Result<u32, Stop>
    ensures { MatchResult result
        (λ count. BringsSome (IsFirstFrame id count) (seen_link L.left L.transcript L.faults L.ends link.old)
        (seen_link L.left L.transcript L.faults L.ends link.new))
        (StopsFrame IsPart (IsFrameRefused (TellsRunning id)) (seen_link L.left L.transcript L.faults L.ends link.old)
        (seen_link L.left L.transcript L.faults L.ends link.new)) }
{
    let frame = match receive(alloc, link) {
        Ok(frame) => frame,
        Err(stop) => return Err(stop),
    };
    match read(alloc, &frame) {
        Ok(Response::Running(other)) if other == id => Ok(4 + frame.len() as u32),
        Ok(_) => Err(Stop::Refused),
        Err(stop) => Err(stop),
    }
}

/// Takes the frame that tells the outcome of the order of that id.
fn receive_outcome<L: Link>(
    alloc: Global,
    link: &mut L,
    id: u64,
    order: &Order,
) -> Result<Outcome, Stop>
    requires { IsWhole order.now }
    ensures { MatchResult result
        (λ outcome. BringsSome (IsOutcomeFrame order.now id outcome)
        (seen_link L.left L.transcript L.faults L.ends link.old)
        (seen_link L.left L.transcript L.faults L.ends link.new))
        (StopsFrame IsPart (IsFrameRefused (TellsAny order.now id))
        (seen_link L.left L.transcript L.faults L.ends link.old)
        (seen_link L.left L.transcript L.faults L.ends link.new)) }
{
    let frame = match receive(alloc, link) {
        Ok(frame) => frame,
        Err(stop) => return Err(stop),
    };
    outcome_in(alloc, &frame, id, order)
}

/// The outcome that a frame tells of the order of that id, which the order may have.
fn outcome_in(alloc: Global, frame: &[u8], id: u64, order: &Order) -> Result<Outcome, Stop>
    requires whole { IsWhole order.now }
    requires frame { IsFrame frame.now }
    ensures { MatchResult result (λ outcome. TellsOutcome order.now id outcome frame.now)
        (IsUnread (¬ (TellsAny order.now id frame.now))) }
{
    let (other, outcome) = match read(alloc, frame) {
        Ok(Response::Success(other, value)) => (other, Outcome::Gave(value)),
        Ok(Response::Failure(other, fault)) => (other, Outcome::Failed(fault)),
        Ok(Response::Running(_)) => return Err(Stop::Refused),
        Err(stop) => return Err(stop),
    };
    if other != id {
        return Err(Stop::Refused);
    }
    match allows(alloc, order, &outcome) {
        Ok(true) => Ok(outcome),
        Ok(false) => Err(Stop::Refused),
        Err(Memory) => Err(Stop::Memory),
    }
}

/// The response that a frame spells.
fn read(alloc: Global, frame: &[u8]) -> Result<Response, Stop>
    ensures { MatchResult result (AreResponse frame.now)
        (IsUnread ((response : Message) → ¬ (AreResponse frame.now response))) }
{
    match read_response(alloc, frame) {
        Ok(response) => Ok(response),
        Err(WireFault::Bad { .. }) => Err(Stop::Refused),
        Err(WireFault::Memory) => Err(Stop::Memory),
    }
}
