ghost use Rattle.std.specs.Prelude.{◌≤◌};

use crate::boards::{posted, sources};
use crate::books::desk;
use crate::crews::{Hand, crew};
use std::alloc::Global;
use std::sync::Wait;
use std::test::Fail;
use std::thread::Threads;
use tf_desk::MemoryDesk;
use tf_ports::{Hands, MemoryCrew, MemorySources};
use tf_runner::conduct_command;
use tf_states::Priority;
use tf_values::{Name, Text};

/// Conductors of ann with so many hands on the board of a desk: the desk, and the status.
fn conducted<T: Threads + Wait + Sync>(
    rt: &T,
    alloc: Global,
    desk: MemoryDesk,
    hands: u8,
    sources: &mut MemorySources,
    crew: &mut MemoryCrew<Hand>,
) -> Result<(MemoryDesk, u8), Fail>
    requires { (1 ≤ hands) × (hands ≤ 64) }
{
    let board = Text::make(alloc, b"B")?;
    let Some(word) = Name::make(b"ann") else {
        return Err(Fail::from("no name"));
    };
    Ok(conduct_command(rt, alloc, &board, &word, hands, desk, sources, crew))
}

/// How many hands a crew has back.
fn back(crew: &MemoryCrew<Hand>) -> usize {
    match crew.back() {
        Some(Hands::Local(hands)) => hands.len(),
        _ => 0,
    }
}

/// What is said of a job whose flow fails, and of one whose flow doesn't.
const LEFT_AND_DONE: &[u8] = b"claimed baf06c29-01b3-5083-a254-f0297b72a100 ann-0
abandoned baf06c29-01b3-5083-a254-f0297b72a100
claimed 584cd1e7-aed6-500d-8055-e04f2efc0be6 ann-0
consumed 584cd1e7-aed6-500d-8055-e04f2efc0be6
";

#[test]
fn a_job_is_consumed_where_its_flow_succeeds_and_else_left(rt: HostRuntime) -> Result<(), Fail> {
    let alloc = rt.alloc();
    let desk = desk(alloc, &[])?;
    let desk = posted(alloc, desk, b"build", Priority::Normal, b"ok.toml")?;
    let desk = posted(alloc, desk, b"test", Priority::High, b"bad.toml")?;
    let mut sources = sources(alloc, &[])?;
    let mut crew = crew(alloc, &[])?;
    let (desk, status) = conducted(&rt, alloc, desk, 1, &mut sources, &mut crew)?;
    assert!(rt; status == 0 && desk.shown() == LEFT_AND_DONE);
    assert!(rt; crew.hired().len() == 1 && back(&crew) == 1);
    Ok(())
}

#[test]
fn of_an_empty_board_nothing_is_said(rt: HostRuntime) -> Result<(), Fail> {
    let alloc = rt.alloc();
    let desk = desk(alloc, &[])?;
    let mut sources = sources(alloc, &[])?;
    let mut crew = crew(alloc, &[])?;
    let (desk, status) = conducted(&rt, alloc, desk, 2, &mut sources, &mut crew)?;
    assert!(rt; status == 0 && desk.shown() == b"".as_slice());
    assert!(rt; crew.hired().len() == 1 && back(&crew) == 2);
    Ok(())
}

#[test]
fn a_file_that_is_not_read_is_said_before_anyone_is_hired(rt: HostRuntime) -> Result<(), Fail> {
    let alloc = rt.alloc();
    let desk = desk(alloc, &[])?;
    let desk = posted(alloc, desk, b"build", Priority::Normal, b"none.toml")?;
    let mut sources = sources(alloc, &[])?;
    let mut crew = crew(alloc, &[])?;
    let (desk, status) = conducted(&rt, alloc, desk, 1, &mut sources, &mut crew)?;
    assert!(rt; status == 3 && desk.shown() == b"taskflow: cannot read\n".as_slice());
    assert!(rt; crew.hired().len() == 0);
    Ok(())
}

#[test]
fn hands_that_are_not_hired_are_said(rt: HostRuntime) -> Result<(), Fail> {
    let alloc = rt.alloc();
    let desk = desk(alloc, &[])?;
    let mut sources = sources(alloc, &[])?;
    let mut crew = crew(alloc, &[1])?;
    let (desk, status) = conducted(&rt, alloc, desk, 1, &mut sources, &mut crew)?;
    assert!(rt; status == 8 && desk.shown() == b"taskflow: cannot hire\n".as_slice());
    Ok(())
}
