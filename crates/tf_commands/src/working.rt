//! A worker: it serves the requests of remote hands that come to an address, one session after the other.

ghost use Rattle.std.specs.Prelude.{◌≡◌, ◌≤◌, ◌+◌, ◌++◌, ◌⊎◌, ℕ, OnOk, IfErr};
ghost use Rattle.tf_numbers.specs.Numbers.{Rises};
ghost use Rattle.tf_commands.specs.Messages.{end_word, session_line, SaysSession, CutsSession, SaysNext, StopsNext, HasStopCause, HasServeCause, HiresHere, ServesAll, Works};
ghost use Rattle.tf_commands.specs.Books.{OnlySays};
ghost use Rattle.tf_commands.specs.Behaviour.{HiresAtMost};
ghost use Rattle.tf_ports.specs.Ports.{CrewTold, IsFresh};
ghost use Rattle.tf_ports.specs.declared.crews.Want.TheVariants as want;

use std::alloc::Global;
use tf_actions::Performer;
use tf_desk::Desk;
use tf_ports::{Address, Crew, Door, Hands, PortFault, Want};
use tf_report::{
    CANNOT_HIRE, CANNOT_LISTEN, OUT_OF_MEMORY, SUCCEEDED, UNHIRED, UNSAID, append, append_counted,
    close,
};
use tf_values::Memory;
use tf_workers::{ServeEnd, serve};

/// Hires a hand of this process, opens the door at the address, and serves so many sessions with the hand, one
/// after the other. Says how each ended.
#[tactic(auto, using(crate::proofs::WantLemmas::near_count, crate::proofs::WantLemmas::none_far))]
pub fn work<K: Desk, W: Crew, D: Door>(
    alloc: Global,
    address: &Address,
    sessions: u32,
    desk: &mut K,
    crew: &mut W,
    door: &mut D,
) -> u8
    ensures works { Works W.Hand.gives (W.told crew.old) (W.told crew.new) (D.told door.old) (D.told door.new)
        (K.state desk.old).shown (K.state desk.new).shown address.now sessions result }
    ensures says { OnlySays (K.state desk.old) (K.state desk.new) }
    ensures hires { HiresAtMost (want.Local 1) (W.told crew.old) (W.told crew.new) }
    ensures unhired { result ≡ UNHIRED
        → Rises (W.faults crew.old) (W.faults crew.new) ⊎ Rises (D.faults door.old) (D.faults door.new) }
    ensures unsaid { result ≡ UNSAID → Rises (K.state desk.old).out_faults (K.state desk.new).out_faults }
    ensures status { (result ≡ SUCCEEDED) ⊎ (result ≡ OUT_OF_MEMORY) ⊎ (result ≡ UNHIRED) ⊎ (result ≡ UNSAID) }
    ensures crew_stands { W.faults crew.old ≤ W.faults crew.new }
    ensures door_stands { D.faults door.old ≤ D.faults door.new }
{
    match crew.hire(alloc, &Want::Local(1)) {
        Ok(Hands::Local(mut hands)) => {
            let Some(mut hand) = hands.pop() else {
                unreachable!();
            };
            let status = listen_and_serve(alloc, address, sessions, desk, &mut hand, door);
            hands.push_reserved(hand);
            crew.dismiss(Hands::Local(hands));
            status
        }
        Ok(Hands::Remote(_)) => unreachable!(),
        Err(PortFault::Failed) => close(CANNOT_HIRE, UNHIRED, desk),
        Err(PortFault::Memory) => OUT_OF_MEMORY,
    }
}

/// Opens the door at the address, and serves so many sessions.
fn listen_and_serve<K: Desk, P: Performer, D: Door>(
    alloc: Global,
    address: &Address,
    sessions: u32,
    desk: &mut K,
    hand: &mut P,
    door: &mut D,
) -> u8
    ensures works { (crew crew_after : CrewTold) → IsFresh (P.did hand.old)
        → HiresHere crew crew_after (P.did hand.new)
        → Works P.gives crew crew_after (D.told door.old) (D.told door.new) (K.state desk.old).shown
        (K.state desk.new).shown address.now sessions result }
    ensures says { OnlySays (K.state desk.old) (K.state desk.new) }
    ensures causes { HasServeCause (K.state desk.old) (K.state desk.new)
        (D.faults door.old) (D.faults door.new) result }
    ensures door { D.faults door.old ≤ D.faults door.new }
{
    match door.listen(alloc, address) {
        Ok(()) => serve_all(alloc, sessions, desk, hand, door),
        Err(PortFault::Failed) => close(CANNOT_LISTEN, UNHIRED, desk),
        Err(PortFault::Memory) => OUT_OF_MEMORY,
    }
}

/// Serves so many sessions.
fn serve_all<K: Desk, P: Performer, D: Door>(
    alloc: Global,
    sessions: u32,
    desk: &mut K,
    hand: &mut P,
    door: &mut D,
) -> u8
    ensures serves { ServesAll P.gives (P.did hand.old) (P.did hand.new)
        (D.told door.old) (D.told door.new) (K.state desk.old).shown (K.state desk.new).shown sessions result }
    ensures says { OnlySays (K.state desk.old) (K.state desk.new) }
    ensures causes { HasServeCause (K.state desk.old) (K.state desk.new)
        (D.faults door.old) (D.faults door.new) result }
    ensures door { D.faults door.old ≤ D.faults door.new }
{
    for number in 0..sessions {
        if let Err(status) = serve_next(alloc, number, desk, hand, door) {
            return status;
        }
    }
    SUCCEEDED
}

/// Takes the next link, serves it, gives it back, and says how the session ended: the one of this number, from 0.
fn serve_next<K: Desk, P: Performer, D: Door>(
    alloc: Global,
    number: u32,
    desk: &mut K,
    hand: &mut P,
    door: &mut D,
) -> Result<(), u8>
    ensures next { OnOk result (SaysNext P.gives (P.did hand.old) (P.did hand.new) (D.told door.old) (D.told door.new)
        (K.state desk.old).shown (K.state desk.new).shown (number + 1)) }
    ensures stopped { IfErr result (StopsNext P.gives (P.did hand.old) (P.did hand.new) (D.told door.old)
        (D.told door.new) (K.state desk.old).shown (K.state desk.new).shown (number + 1)) }
    ensures causes { IfErr result (HasStopCause (K.state desk.old) (K.state desk.new)
        (D.faults door.old) (D.faults door.new)) }
    ensures says { OnlySays (K.state desk.old) (K.state desk.new) }
    ensures door { D.faults door.old ≤ D.faults door.new }
{
    let mut link = match door.accept(alloc) {
        Ok(link) => link,
        Err(PortFault::Failed) => return Err(close(CANNOT_LISTEN, UNHIRED, desk)),
        Err(PortFault::Memory) => return Err(OUT_OF_MEMORY),
    };
    let end = serve(alloc, &mut link, hand);
    match door.close(link) {
        Ok(()) => say_end(alloc, number, end, desk),
        Err(_) => Err(OUT_OF_MEMORY),
    }
}

/// Says how the session of this number, from 0, ended; unless memory ended it, or runs out.
fn say_end<K: Desk>(alloc: Global, number: u32, end: ServeEnd, desk: &mut K) -> Result<(), u8>
    ensures next { OnOk result (SaysSession (K.state desk.old).shown (K.state desk.new).shown (number + 1) end) }
    ensures stopped { IfErr result (CutsSession (K.state desk.old).shown (K.state desk.new).shown (number + 1) end) }
    ensures causes { (door : ℕ)
        → IfErr result (HasStopCause (K.state desk.old) (K.state desk.new) door door) }
    ensures says { OnlySays (K.state desk.old) (K.state desk.new) }
{
    if let ServeEnd::Memory = end {
        return Err(OUT_OF_MEMORY);
    }
    let mut line = Vec::new(alloc);
    let Ok(()) = append_line(u64::from(number) + 1, end, &mut line) else {
        return Err(OUT_OF_MEMORY);
    };
    match desk.say(&line) {
        Ok(()) => Ok(()),
        Err(_) => Err(UNSAID),
    }
}

/// Appends the line of a session of this number.
#[tactic(auto, unfolding(crate::specs::Messages::session_line))]
fn append_line(number: u64, end: ServeEnd, out: &mut Vec<u8>) -> Result<(), Memory>
    ensures { OnOk result (out.new.items ≡ out.old.items ++ session_line number end) }
{
    append_counted(b"session ", number, out)?;
    append_end(end, out)
}

/// Appends how a session ended.
fn append_end(end: ServeEnd, out: &mut Vec<u8>) -> Result<(), Memory>
    ensures { OnOk result (out.new.items ≡ out.old.items ++ end_word end) }
{
    match end {
        ServeEnd::Ended => append(b" ended\n", out),
        ServeEnd::Lost => append(b" lost\n", out),
        ServeEnd::Bad { at } => {
            append_counted(b" bad ", at, out)?;
            append(b"\n", out)
        }
        ServeEnd::Memory => Ok(()),
    }
}
