ghost use Rattle.tf_actions.specs.Gives.{IsWhole};

use crate::dialers::address_of;
use crate::orders::{echo, undo};
use std::alloc::Global;
use std::test::Fail;
use std::{fs, thread};
use tf_actions::{Order, Outcome, Performer};
use tf_ports::{Address, Dialer, Door, MemorySpawner, SocketDialer, SocketDoor};
use tf_remote::RemoteHand;
use tf_states::Failure;
use tf_tasks::LocalHand;
use tf_values::Val;
use tf_workers::{ServeEnd, serve};

/// The path of the socket, where the test runs.
const PATH: &str = "worker.socket";

/// Takes one link at the door and serves it.
fn serve_one<D: Door>(alloc: Global, door: &mut D) -> Option<ServeEnd> {
    let Ok(mut link) = door.accept(alloc) else {
        return None;
    };
    let mut hand = LocalHand::make(MemorySpawner::make(alloc, Vec::new(alloc), Vec::new(alloc)));
    Some(serve(alloc, &mut link, &mut hand))
}

/// What an order comes to.
fn performed<P: Performer>(alloc: Global, hand: &mut P, order: &Order) -> Result<Outcome, Fail>
    requires { IsWhole order.now }
{
    match hand.perform(alloc, order) {
        Ok(outcome) => Ok(outcome),
        Err(_) => Err(Fail::from("no memory")),
    }
}

/// Whether the hand has an echo done.
fn has_echoed<P: Performer>(alloc: Global, hand: &mut P) -> Result<bool, Fail> {
    let order = echo(alloc, Val::Int(1))?;
    let outcome = performed(alloc, hand, &order)?;
    Ok(matches!(outcome, Outcome::Gave(Val::Int(1))))
}

/// Whether an undo fails whose program isn't there.
fn fails_to_undo<P: Performer>(alloc: Global, hand: &mut P) -> Result<bool, Fail> {
    let order = undo(alloc, b"umount")?;
    let outcome = performed(alloc, hand, &order)?;
    Ok(matches!(outcome, Outcome::Failed(Failure::Spawn)))
}

/// Whether the hand has an echo done, and an undo whose program isn't there fails.
fn asks<P: Performer>(alloc: Global, mut hand: P) -> Result<bool, Fail> {
    let is_echoed = has_echoed(alloc, &mut hand)?;
    let is_undone = fails_to_undo(alloc, &mut hand)?;
    Ok(is_echoed && is_undone)
}

/// A hand over the link that the dialer makes.
fn hand_by<D: Dialer>(
    alloc: Global,
    dialer: &mut D,
    address: &Address,
) -> Result<RemoteHand<D::Made>, Fail> {
    match dialer.dial(alloc, address) {
        Ok(link) => Ok(RemoteHand::make(link)),
        Err(_) => Err(Fail::from("no link")),
    }
}

#[test]
fn a_hand_asks_a_worker_over_a_unix_socket(rt: HostRuntime) -> Result<(), Fail> {
    let alloc = rt.alloc();
    let _gone = fs::remove_file(&rt, PATH);
    let address = address_of(alloc, PATH)?;
    let mut door = SocketDoor::make(rt, 0o600);
    assert!(rt; door.listen(alloc, &address).is_ok());
    let mut dialer = SocketDialer::make(rt, None);
    let hand = hand_by(alloc, &mut dialer, &address)?;
    let (asked, served) = thread::join(&rt, || asks(alloc, hand), || serve_one(alloc, &mut door));
    assert!(rt; asked?);
    assert_eq!(rt; served, Some(ServeEnd::Ended));
    Ok(())
}
