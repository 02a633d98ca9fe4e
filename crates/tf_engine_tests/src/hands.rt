ghost use Rattle.std.specs.Prelude.{◌≡◌, None, IfOk, vec_len};
ghost use Rattle.tf_actions.specs.Gives.{Gives};
ghost use Rattle.tf_tasks.specs.GivesLaws.{gives_looks_up, gives_reverts};

use crate::books::{ONE_TASK, ONE_TASK_BOOK, TWO_ECHOES, desk, opened, run_of};
use crate::crews::{Hand, local_hand};
use std::alloc::Global;
use std::sync::atomic::{AtomicU64, Ordering};
use std::sync::{Arc, Wait};
use std::test::Fail;
use std::thread;
use std::thread::Threads;
use tf_actions::{Order, Outcome, Performer};
use tf_book::{Book, Halt};
use tf_desk::{Desk, MemoryDesk};
use tf_engines::{How, RunEnd, parallel};
use tf_states::FlowState;
use tf_values::Memory;

/// How many turns a hand waits at most for another one.
const TURNS: u64 = 1_000_000_000;

/// A hand that performs its first order once so many hands were given one. Where that takes more turns than it waits
/// it answers for want of memory.
#[derive(Drop)]
struct Meeting {
    hand: Hand,
    begun: Arc<AtomicU64, Global>,
    wanted: u64,
    turns: u64,
    has_begun: bool,
}

impl Meeting {
    fn meets(&mut self) -> bool {
        if self.has_begun {
            return true;
        }
        self.has_begun = true;
        self.begun.fetch_add(1, Ordering::SeqCst);
        for _ in 0..self.turns {
            if self.begun.load(Ordering::SeqCst) >= self.wanted {
                return true;
            }
            thread::yield_now();
        }
        false
    }
}

impl Performer for Meeting {
    ghost did = { λ _. None };

    ghost gives = { Gives };

    ghost faults = { λ _. 0 };

    ghost of_fault = { λ _ _. ⊥ };

    ghost looks_up = { gives_looks_up };

    ghost reverts_to_nothing = { gives_reverts };

    fn perform(&mut self, alloc: Global, order: &Order) -> Result<Outcome, Memory> {
        if !self.meets() {
            return Err(Memory);
        }
        self.hand.perform(alloc, order)
    }
}

fn hand(
    alloc: Global,
    begun: &Arc<AtomicU64, Global>,
    wanted: u64,
    turns: u64,
) -> Result<Meeting, Fail> {
    Ok(Meeting {
        hand: local_hand(alloc),
        begun: Arc::try_clone(begun)?,
        wanted,
        turns,
        has_begun: false,
    })
}

/// Two hands of which each performs its first order once so many were given one.
fn two_hands(alloc: Global, wanted: u64, turns: u64) -> Result<Vec<Meeting>, Fail>
    ensures { IfOk result (λ hands. vec_len hands ≡ 2) }
{
    let begun = Arc::new(alloc, AtomicU64::new(0))?;
    let mut hands = Vec::new(alloc);
    hands.push(hand(alloc, &begun, wanted, turns)?)?;
    hands.push(hand(alloc, &begun, wanted, turns)?)?;
    Ok(hands)
}

/// The end of a run of a book by two hands.
fn run_by<K: Desk + Send, P: Performer + Send, R: Threads + Wait + Sync>(
    rt: &R,
    alloc: Global,
    book: Book<K>,
    hands: Vec<P>,
) -> RunEnd<K>
    requires { vec_len hands ≡ 2 }
{
    let mut hands = hands;
    parallel(rt, alloc, book, &mut hands, None)
}

/// How a run of a book by two such hands stopped, and its book.
fn ran<R: Threads + Wait + Sync>(
    rt: &R,
    alloc: Global,
    book: Book<MemoryDesk>,
    wanted: u64,
    turns: u64,
) -> Result<(How, Book<MemoryDesk>), Fail> {
    let hands = two_hands(alloc, wanted, turns)?;
    let RunEnd { book, how } = run_by(rt, alloc, book, hands);
    Ok((how, book))
}

#[test]
fn two_hands_are_at_work_at_once(rt: HostRuntime) -> Result<(), Fail> {
    let alloc = rt.alloc();
    let book = run_of(alloc, TWO_ECHOES)?;
    let (how, book) = ran(&rt, alloc, book, 2, TURNS)?;
    assert!(rt; how == How::Ended(FlowState::Success));
    assert_eq!(rt; book.count(), 6);
    Ok(())
}

#[test]
fn a_hand_without_memory_halts_the_book(rt: HostRuntime) -> Result<(), Fail> {
    let alloc = rt.alloc();
    let book = run_of(alloc, ONE_TASK)?;
    let (how, book) = ran(&rt, alloc, book, 3, 0)?;
    assert!(rt; how == How::Halted(Halt::Memory));
    assert_eq!(rt; book.count(), 2);
    Ok(())
}

/// The numbers that the desk's call has which writes the end of the task: where the other hand takes a turn meanwhile,
/// it asks before whether to stop.
const ENDS: [u64; 2] = [24, 25];

#[test]
fn an_end_that_is_not_written_halts_the_book(rt: HostRuntime) -> Result<(), Fail> {
    let alloc = rt.alloc();
    let desk = desk(alloc, &ENDS)?;
    let book = opened(alloc, desk, ONE_TASK_BOOK)?;
    let (how, book) = ran(&rt, alloc, book, 1, 1)?;
    assert!(rt; how == How::Halted(Halt::Disk));
    assert_eq!(rt; book.count(), 2);
    Ok(())
}
