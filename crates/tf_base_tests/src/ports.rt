use crate::lists::{bytes, numbers, text};
use crate::orders::echo;
use std::alloc::Global;
use std::process::Abort;
use std::test::Fail;
use tf_ports::*;
use tf_states::Failure;
use tf_values::{Text, Texts, Val};

/// A crew in memory of one hand, whose second order fails. Its first hiring fails.
fn crew(alloc: Global) -> Result<MemoryCrew<MemoryPerformer>, Fail> {
    let failing = numbers(alloc, &[2])?;
    let mut waiting = Vec::new(alloc);
    waiting.push(MemoryPerformer::make(alloc, failing))?;
    let failing = numbers(alloc, &[1])?;
    Ok(MemoryCrew::make(alloc, waiting, failing))
}

/// Whether the crew has no hand for hire.
fn refuses(alloc: Global, crew: &mut MemoryCrew<MemoryPerformer>) -> bool {
    matches!(crew.hire(alloc, &Want::Local(1)), Err(PortFault::Failed))
}

/// The hands that the crew hires out.
fn hands(
    alloc: Global,
    crew: &mut MemoryCrew<MemoryPerformer>,
) -> Result<Vec<MemoryPerformer>, Fail> {
    match crew.hire(alloc, &Want::Local(1)) {
        Ok(Hands::Local(hands)) => Ok(hands),
        _ => Err(Fail::from("no hand")),
    }
}

/// What the hand gives for an order.
fn given(alloc: Global, hand: &mut MemoryPerformer) -> Result<Outcome, Fail> {
    let order = echo(alloc, Val::Int(1))?;
    let outcome = hand.perform(alloc, &order)?;
    Ok(outcome)
}

/// The hand does its first order, and its second one is lost.
fn assert_obeys(rt: &impl Abort, alloc: Global, hand: &mut MemoryPerformer) -> Result<(), Fail> {
    assert!(rt; matches!(given(alloc, hand)?, Outcome::Gave(Val::Nothing)));
    assert!(rt; matches!(given(alloc, hand)?, Outcome::Failed(Failure::Lost)));
    assert!(rt; hand.did().len() == 2);
    Ok(())
}

/// The hand that stands last among these obeys.
fn assert_last_obeys(
    rt: &impl Abort,
    alloc: Global,
    hands: &mut Vec<MemoryPerformer>,
) -> Result<(), Fail> {
    let Some(mut hand) = hands.pop() else {
        return Err(Fail::from("no hand"));
    };
    assert_obeys(rt, alloc, &mut hand)?;
    hands.push(hand)?;
    Ok(())
}

/// The crew was given back one hand, which keeps its two orders.
fn assert_is_given_back(rt: &impl Abort, crew: &MemoryCrew<MemoryPerformer>) -> Result<(), Fail> {
    let Some(Hands::Local(back)) = crew.back() else {
        return Err(Fail::from("no hand was given back"));
    };
    assert_eq!(rt; back.len(), 1);
    assert_eq!(rt; back[0].did().len(), 2);
    Ok(())
}

#[test]
fn a_crew_in_memory_hires_performers_that_keep_their_orders(rt: HostRuntime) -> Result<(), Fail> {
    let alloc = rt.alloc();
    let mut crew = crew(alloc)?;
    assert!(rt; refuses(alloc, &mut crew));
    let mut hands = hands(alloc, &mut crew)?;
    assert!(rt; refuses(alloc, &mut crew));
    assert!(rt; crew.hired().len() == 1);
    assert_last_obeys(&rt, alloc, &mut hands)?;
    assert!(rt; crew.back().is_none());
    crew.dismiss(Hands::Local(hands));
    assert_is_given_back(&rt, &crew)?;
    assert!(rt; refuses(alloc, &mut crew));
    Ok(())
}

/// A program `echo` that ends well and says `hi`.
fn program(alloc: Global) -> Result<MemoryProgram, Fail> {
    let name = text(alloc, b"echo")?;
    let out = bytes(alloc, b"hi")?;
    Ok(MemoryProgram {
        name,
        ends: Done {
            status: 0,
            out: Output::make(out),
        },
    })
}

/// A spawner in memory of that program, whose second run fails.
fn spawner(alloc: Global) -> Result<MemorySpawner, Fail> {
    let mut programs = Vec::new(alloc);
    programs.push(program(alloc)?)?;
    let failing = numbers(alloc, &[2])?;
    Ok(MemorySpawner::make(alloc, programs, failing))
}

/// What the program of that name says where it is run without arguments.
fn said(alloc: Global, spawner: &mut MemorySpawner, name: &Text) -> Result<Output, SpawnFault> {
    let args = Texts::make(Vec::new(alloc));
    let done = spawner.run(alloc, name, &args)?;
    Ok(done.out)
}

/// Whether the program of that name fails to run.
fn fails(alloc: Global, spawner: &mut MemorySpawner, name: &Text) -> bool {
    matches!(said(alloc, spawner, name), Err(SpawnFault::Failed))
}

/// Whether the program of that name says `hi`.
fn says_hi(alloc: Global, spawner: &mut MemorySpawner, name: &Text) -> bool {
    match said(alloc, spawner, name) {
        Ok(out) => out.items() == b"hi".as_slice(),
        Err(_) => false,
    }
}

/// The spawner keeps one run, of the program of that name.
fn assert_ran_once(rt: &impl Abort, spawner: &MemorySpawner, name: &[u8]) {
    let ran = spawner.ran();
    assert_eq!(rt; ran.len(), 1);
    assert_eq!(rt; ran[0].program.bytes(), name);
}

#[test]
fn a_spawner_in_memory_runs_its_programs(rt: HostRuntime) -> Result<(), Fail> {
    let alloc = rt.alloc();
    let mut spawner = spawner(alloc)?;
    let known = text(alloc, b"echo")?;
    let absent = text(alloc, b"cat")?;
    assert!(rt; says_hi(alloc, &mut spawner, &known));
    assert!(rt; fails(alloc, &mut spawner, &known));
    assert!(rt; fails(alloc, &mut spawner, &absent));
    assert_ran_once(&rt, &spawner, b"echo");
    Ok(())
}
