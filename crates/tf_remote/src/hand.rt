ghost use Rattle.std.specs.Prelude.{◌≡◌, ◌<◌, ◌≤◌, ◌+◌, ◌^◌, [], true, false, Some, IfOk, OnOk, MatchResult};
ghost use Rattle.tf_ports.specs.Noted.{noted};
ghost use Rattle.tf_actions.specs.Gives.{GivesFar, is_sent as goes_far, IsWhole};
ghost use Rattle.tf_remote.specs.Asking.{AsksWorker, IsLostOnTheWay, RunsOutAsking, IsRequestBack, NamesOrder, TakesReply, TakesServed};
ghost use Rattle.tf_remote.specs.FarLaws.{far_looks_up, far_reverts};
ghost use Rattle.tf_ports.specs.Ports.{seen_link};
ghost use Rattle.tf_remote.specs.Requests.{next_id, frame_for};

use crate::replies::receive_reply;
use crate::requests::frame_of;
use std::alloc::Global;
use tf_actions::{Order, Outcome, Performer};
use tf_log::Log;
use tf_ports::Link;
use tf_states::Failure;
use tf_tasks::value_of;
use tf_values::Memory;

/// The greatest id of a request: a reader takes numbers of 63 bits.
const LAST_ID: u64 = 9_223_372_036_854_775_807;

/// A hand that asks a worker at the other end of its link. An order that needs no worker it answers itself: an
/// execution for which a symbol is missing, and a revert that runs no program. It keeps nothing of what came
/// over the link. It notes each order with the outcome that it gave, and tells its orders.
#[derive(Drop)]
pub struct RemoteHand<L> {
    link: L,
    next: u64,
    done: Log<Order, Outcome>,
    ghost is_id: { next < 2 ^ 63 },
}

impl<L> RemoteHand<L> {
    /// A hand that asks over this link, and has no order yet. Its requests are counted from 1.
    pub fn make(link: L) -> RemoteHand<L>
        ensures link { result.link ≡ link }
        ensures next { result.next ≡ 1 }
        ensures fresh { result.done.items ≡ [] }
    {
        RemoteHand {
            link,
            next: 1,
            done: Log::new(),
        }
    }

    /// The link back.
    pub fn link(self) -> L
        ensures { result ≡ self.link }
    {
        self.link
    }
}

impl<L: Link> RemoteHand<L> {
    /// The outcome of an order. An order that is asked of the worker is sent as one request, whose id counts the
    /// hand's requests, and its outcome is the reply's; or `lost`, where the link failed or ended before the whole
    /// reply came; or `bad-reply N`, where behind N bytes a frame came that no worker sends that serves. Every
    /// other order leaves the hand as it was.
    pub fn obey(&mut self, alloc: Global, order: &Order) -> Result<Outcome, Memory>
        requires whole { IsWhole order.now }
        ensures gives { IfOk result (λ outcome. GivesFar order.now outcome) }
        ensures kept { goes_far order.now ≡ false → self.new ≡ self.old }
        ensures unnoted { self.new.done.items ≡ self.old.done.items }
        ensures no_fall { (L.faults self.old.link ≤ L.faults self.new.link)
            × (L.ends self.old.link ≤ L.ends self.new.link) }
        ensures asked { goes_far order.now ≡ true → MatchResult result
            (AsksWorker order.now self.old.next (seen_link L.left L.transcript L.faults L.ends self.old.link)
            (seen_link L.left L.transcript L.faults L.ends self.new.link))
            (λ _. RunsOutAsking order.now self.old.next (seen_link L.left L.transcript L.faults L.ends self.old.link)
            (seen_link L.left L.transcript L.faults L.ends self.new.link)) }
        ensures counted { goes_far order.now ≡ true → OnOk result (self.new.next ≡ next_id self.old.next) }
        ensures names { goes_far order.now ≡ true → NamesOrder order.now self.old.next }
        ensures read_back { goes_far order.now ≡ true → OnOk result (IsRequestBack order.now self.old.next) }
        ensures replied { goes_far order.now ≡ true → TakesReply order.now self.old.next
            (seen_link L.left L.transcript L.faults L.ends self.old.link)
            (seen_link L.left L.transcript L.faults L.ends self.new.link) result }
        ensures served { goes_far order.now ≡ true → TakesServed order.now self.old.next
            (seen_link L.left L.transcript L.faults L.ends self.old.link)
            (seen_link L.left L.transcript L.faults L.ends self.new.link) result }
    {
        if !order.is_sent() {
            return value_of(alloc, order);
        }
        let id = self.next;
        let frame = match frame_of(alloc, id, order) {
            Ok(frame) => frame,
            Err(fault) => return Err(fault),
        };
        self.next = following(id);
        ask(alloc, &mut self.link, &frame, id, order)
    }
}

/// The id of the next request.
fn following(id: u64) -> u64
    ensures { result ≡ next_id id }
{
    if id < LAST_ID { id + 1 } else { LAST_ID }
}

/// Sends the frame of the request of that id, and takes the reply.
fn ask<L: Link>(
    alloc: Global,
    link: &mut L,
    frame: &[u8],
    id: u64,
    order: &Order,
) -> Result<Outcome, Memory>
    requires whole { IsWhole order.now }
    requires frame { frame.now ≡ frame_for order.now id }
    ensures { MatchResult result (AsksWorker order.now id (seen_link L.left L.transcript L.faults L.ends link.old)
        (seen_link L.left L.transcript L.faults L.ends link.new))
        (λ _. RunsOutAsking order.now id (seen_link L.left L.transcript L.faults L.ends link.old)
        (seen_link L.left L.transcript L.faults L.ends link.new)) }
{
    match link.send(frame) {
        Ok(()) => receive_reply(alloc, link, id, order),
        Err(_) => Ok(Outcome::Failed(Failure::Lost)),
    }
}

impl<L: Link> Performer for RemoteHand<L> {
    ghost did = { λ hand. Some (noted hand.done.items) };

    ghost gives = { GivesFar };

    ghost faults = { λ hand. L.faults hand.link + L.ends hand.link };

    ghost of_fault = { IsLostOnTheWay };

    ghost looks_up = { far_looks_up };

    ghost reverts_to_nothing = { far_reverts };

    fn perform(&mut self, alloc: Global, order: &Order) -> Result<Outcome, Memory> {
        let outcome = self.obey(alloc, order)?;
        self.done = self.done.and(order, &outcome);
        Ok(outcome)
    }
}
