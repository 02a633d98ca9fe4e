ghost use Rattle.std.specs.Prelude.{◌≡◌, ◌<◌, true, false, IsSome, IfOk, vec_len};
ghost use Rattle.tf_book.specs.Book.{flow_state, moment, outline};
ghost use Rattle.tf_book.specs.Turns.{is_entered};
ghost use Rattle.tf_hands.specs.Hands.{task_of};
ghost use Rattle.tf_model.specs.Steps.{is_free};

use crate::books::{RETRIED, run_of};
use crate::crews::{Hand, local_hand};
use std::alloc::Global;
use std::process::Abort;
use std::test::Fail;
use tf_actions::{Outcome, Performer};
use tf_book::{Book, Entered, Turn};
use tf_desk::{Desk, MemoryDesk};
use tf_engines::{How, RunEnd, interleaved};
use tf_hands::hands_are_free_or_have_a_task;
use tf_states::{Failure, FlowState};
use tf_values::{Text, Val};

/// Whether the book's session was entered.
fn was_entered<K: Desk>(book: &Book<K>) -> bool
    ensures { result ≡ true → is_entered (flow_state book.now) ≡ true }
{
    let state = book.state();
    !matches!(state, FlowState::Pending | FlowState::Resuming)
}

/// Whether a hand has a task in flight.
fn has_task<K: Desk>(book: &Book<K>, hand: u8) -> bool
    ensures busy { result ≡ true → IsSome (task_of (outline book.now) (moment book.now) hand) }
    ensures free { result ≡ false → is_free (outline book.now) (moment book.now) hand ≡ true }
{
    hands_are_free_or_have_a_task();
    book.machine().in_flight(hand).is_some()
}

/// Enters the session by hand 0.
fn enter<K: Desk>(book: &mut Book<K>) -> Result<(), Fail> {
    match book.enter(0, None) {
        Ok(Entered::Running) => Ok(()),
        _ => Err(Fail::from("the session isn't entered")),
    }
}

/// The next turn of a free hand.
fn next<K: Desk>(book: &mut Book<K>, hand: u8) -> Result<Turn, Fail>
    requires hand { hand < 64 }
    requires free { is_free (outline book.old) (moment book.old) hand ≡ true }
    requires entered { is_entered (flow_state book.old) ≡ true }
{
    match book.next(hand) {
        Ok(turn) => Ok(turn),
        Err(_) => Err(Fail::from("the turn is refused")),
    }
}

/// The next turn of a hand with nothing in flight.
fn turn<K: Desk>(book: &mut Book<K>, hand: u8) -> Result<Turn, Fail>
    requires { hand < 64 }
{
    if !was_entered(book) {
        return Err(Fail::from("the session wasn't entered"));
    }
    if has_task(book, hand) {
        return Err(Fail::from("the hand has a task in flight"));
    }
    next(book, hand)
}

/// The end of the task that the hand has in flight.
fn finish<K: Desk>(book: &mut Book<K>, hand: u8, outcome: Outcome) -> Result<(), Fail>
    requires hand { hand < 64 }
    requires task { IsSome (task_of (outline book.old) (moment book.old) hand) }
{
    match book.finish(hand, outcome) {
        Ok(()) => Ok(()),
        Err(_) => Err(Fail::from("the end is refused")),
    }
}

/// The end of the task that a hand has in flight, if it has one.
fn end<K: Desk>(book: &mut Book<K>, hand: u8, outcome: Outcome) -> Result<(), Fail>
    requires { hand < 64 }
{
    if !has_task(book, hand) {
        return Err(Fail::from("the hand has nothing in flight"));
    }
    finish(book, hand, outcome)
}

/// What a hand is told at its turn.
#[derive(Clone, Copy, PartialEq, Eq)]
enum Told {
    Starts,
    Waits,
    Ends,
    Suspends,
}

/// What came of a hand's task.
#[derive(Clone, Copy)]
enum Came {
    Two,
    Nothing,
    Failure,
}

/// What a hand does: it takes its turn and is told that, or it ends its task so.
#[derive(Clone, Copy)]
enum Act {
    Turn(Told),
    End(Came),
}

fn told_by(turn: Turn) -> Told {
    match turn {
        Turn::Start(order) => {
            drop(order);
            Told::Starts
        }
        Turn::Idle => Told::Waits,
        Turn::Ended(_) => Told::Ends,
        Turn::Suspended => Told::Suspends,
    }
}

/// Whether a hand is told that at its next turn.
fn is_told<K: Desk>(book: &mut Book<K>, hand: u8, wanted: Told) -> Result<bool, Fail>
    requires { hand < 64 }
{
    let turn = turn(book, hand)?;
    Ok(told_by(turn) == wanted)
}

/// The failure of a task that was given 1.
fn below(alloc: Global) -> Result<Outcome, Fail> {
    match Text::make(alloc, b"1 below 2") {
        Ok(text) => Ok(Outcome::Failed(Failure::Raised(text))),
        Err(_) => Err(Fail::from("there is no text")),
    }
}

fn outcome(alloc: Global, came: Came) -> Result<Outcome, Fail> {
    match came {
        Came::Two => Ok(Outcome::Gave(Val::Int(2))),
        Came::Nothing => Ok(Outcome::Gave(Val::Nothing)),
        Came::Failure => below(alloc),
    }
}

/// Ends the task of a hand.
fn ends<K: Desk>(alloc: Global, book: &mut Book<K>, hand: u8, came: Came) -> Result<bool, Fail>
    requires { hand < 64 }
{
    let outcome = outcome(alloc, came)?;
    end(book, hand, outcome)?;
    Ok(true)
}

/// Whether a hand is told so at its next turn, or whether the end of its task is recorded.
fn does<K: Desk>(alloc: Global, book: &mut Book<K>, hand: u8, act: Act) -> Result<bool, Fail> {
    if hand >= 64 {
        return Err(Fail::from("there is no such hand"));
    }
    match act {
        Act::Turn(wanted) => is_told(book, hand, wanted),
        Act::End(came) => ends(alloc, book, hand, came),
    }
}

/// Has these acts done, all of which go so.
fn do_all<K: Desk>(alloc: Global, book: &mut Book<K>, acts: &[(u8, Act)]) -> Result<(), Fail> {
    for (hand, act) in acts {
        if !does(alloc, book, *hand, *act)? {
            return Err(Fail::from("a hand is told otherwise"));
        }
    }
    Ok(())
}

/// Two hands fail in the first attempt, revert, and give 2 in the second.
const ACTS: [(u8, Act); 15] = [
    (0, Act::Turn(Told::Starts)),
    (1, Act::Turn(Told::Starts)),
    (0, Act::End(Came::Failure)),
    (0, Act::Turn(Told::Starts)),
    (1, Act::End(Came::Failure)),
    (1, Act::Turn(Told::Starts)),
    (0, Act::End(Came::Nothing)),
    (0, Act::Turn(Told::Waits)),
    (1, Act::End(Came::Nothing)),
    (1, Act::Turn(Told::Starts)),
    (0, Act::Turn(Told::Starts)),
    (1, Act::End(Came::Two)),
    (1, Act::Turn(Told::Waits)),
    (0, Act::End(Came::Two)),
    (0, Act::Turn(Told::Ends)),
];

/// What is recorded: one resolution covers both failures.
const LINES: &[u8] =
    b"1 0 flow main RUNNING\n2 0 retry r RUNNING\n3 0 retry r SUCCESS 1\n4 0 task t1 RUNNING\n5 1 task t2 RUNNING\n6 0 task t1 FAILURE raised \"1 below 2\"\n7 0 resolve main RETRY\n8 0 task t1 REVERTING\n9 1 task t2 FAILURE raised \"1 below 2\"\n10 1 task t2 REVERTING\n11 0 task t1 REVERTED\n12 1 task t2 REVERTED\n13 1 retry r RETRYING\n14 1 task t1 PENDING\n15 1 task t2 PENDING\n16 1 retry r RUNNING\n17 1 retry r SUCCESS 2\n18 1 task t1 RUNNING\n19 0 task t2 RUNNING\n20 1 task t1 SUCCESS 2\n21 0 task t2 SUCCESS 2\n22 0 flow main SUCCESS\n";

/// The book recorded so many entries, and its desk shows these lines.
fn assert_recorded(rt: &impl Abort, book: Book<MemoryDesk>, count: u64, lines: &[u8]) {
    assert_eq!(rt; book.count(), count);
    let desk = book.close();
    assert!(rt; desk.shown() == lines);
}

#[test]
fn one_resolution_covers_the_failures_of_two_hands(rt: HostRuntime) -> Result<(), Fail> {
    let alloc = rt.alloc();
    let mut book = run_of(alloc, RETRIED)?;
    enter(&mut book)?;
    do_all(alloc, &mut book, &ACTS)?;
    assert_recorded(&rt, book, 22, LINES);
    Ok(())
}

/// Two hands of this process.
fn two_hands(alloc: Global) -> Result<Vec<Hand>, Fail>
    ensures { IfOk result (λ hands. vec_len hands ≡ 2) }
{
    let mut hands = Vec::new(alloc);
    hands.push(local_hand(alloc))?;
    hands.push(local_hand(alloc))?;
    Ok(hands)
}

/// Whose turns these acts are.
const PICKS: [u8; 15] = [0, 1, 0, 0, 1, 1, 0, 0, 1, 1, 0, 1, 1, 0, 0];

/// The end of a run of a book by two hands whose turns are told.
fn run_by<K: Desk, P: Performer>(
    alloc: Global,
    book: Book<K>,
    hands: Vec<P>,
    picks: &[u8],
) -> RunEnd<K>
    requires { vec_len hands ≡ 2 }
{
    let mut hands = hands;
    interleaved(alloc, book, &mut hands, picks, None)
}

/// How such a run of a book stopped, and its book.
fn ran(
    alloc: Global,
    book: Book<MemoryDesk>,
    picks: &[u8],
) -> Result<(How, Book<MemoryDesk>), Fail> {
    let hands = two_hands(alloc)?;
    let RunEnd { book, how } = run_by(alloc, book, hands, picks);
    Ok((how, book))
}

#[test]
fn the_same_comes_of_two_hands_whose_turns_are_told(rt: HostRuntime) -> Result<(), Fail> {
    let alloc = rt.alloc();
    let book = run_of(alloc, RETRIED)?;
    let (how, book) = ran(alloc, book, &PICKS)?;
    assert!(rt; how == How::Ended(FlowState::Success));
    assert_recorded(&rt, book, 22, LINES);
    Ok(())
}
