use crate::faults::{NO_FAULTS, TWO_ECHOES, desk, ran_over};
use std::alloc::Global;
use std::sync::Wait;
use std::test::Fail;
use std::thread::Threads;
use tf_desk::MemoryDesk;
use tf_report::{FORBIDDEN, SUCCEEDED};

/// Another flow, for the same book.
const ANOTHER: &[u8] = br#"name = "two"
kind = "linear"
items = [
    { task = "a", kind = "echo", inject = { value = 1 } },
]
"#;

/// The desk after these words, which end with this status and of which this is said last.
fn said_last<R: Threads + Wait + Sync>(
    rt: &R,
    alloc: Global,
    desk: MemoryDesk,
    flow: &[u8],
    words: &[&str],
    wanted: u8,
    last: &[u8],
) -> Result<MemoryDesk, Fail> {
    let (desk, status) = ran_over(rt, alloc, desk, flow, words, &NO_FAULTS, &[])?;
    if status != wanted || !desk.shown().ends_with(last) {
        return Err(Fail::from("it ended otherwise"));
    }
    Ok(desk)
}

/// The desk with a book of two flows, of which each ran once.
fn two_runs<R: Threads + Wait + Sync>(rt: &R, alloc: Global) -> Result<MemoryDesk, Fail> {
    let run = ["run", "flow.toml", "B"];
    let desk = desk(alloc, &[])?;
    let desk = said_last(
        rt,
        alloc,
        desk,
        TWO_ECHOES,
        &run,
        SUCCEEDED,
        b"end main SUCCESS\n",
    )?;
    said_last(
        rt,
        alloc,
        desk,
        ANOTHER,
        &run,
        SUCCEEDED,
        b"end two SUCCESS\n",
    )
}

#[test]
fn a_book_keeps_each_flow_once(rt: HostRuntime) -> Result<(), Fail> {
    let alloc = rt.alloc();
    let run = ["run", "flow.toml", "B"];
    let forbids = b"taskflow: state forbids: main SUCCESS\n";
    let desk = two_runs(&rt, alloc)?;
    let _ = said_last(&rt, alloc, desk, TWO_ECHOES, &run, FORBIDDEN, forbids)?;
    Ok(())
}

#[test]
fn the_flows_of_a_book_are_listed(rt: HostRuntime) -> Result<(), Fail> {
    let alloc = rt.alloc();
    let lines = b"end two SUCCESS\n0 main SUCCESS\n1 two SUCCESS\n";
    let desk = two_runs(&rt, alloc)?;
    let _ = said_last(
        &rt,
        alloc,
        desk,
        ANOTHER,
        &["details", "B"],
        SUCCEEDED,
        lines,
    )?;
    Ok(())
}

#[test]
fn nothing_is_listed_of_an_unborn_file(rt: HostRuntime) -> Result<(), Fail> {
    let alloc = rt.alloc();
    let desk = desk(alloc, &[])?;
    let desk = said_last(&rt, alloc, desk, ANOTHER, &["details", "B"], SUCCEEDED, b"")?;
    assert!(rt; desk.shown().is_empty());
    Ok(())
}

#[test]
fn a_flow_is_asked_for_by_its_name(rt: HostRuntime) -> Result<(), Fail> {
    let alloc = rt.alloc();
    let none = b"taskflow: no flow: three\n";
    let desk = two_runs(&rt, alloc)?;
    let desk = said_last(
        &rt,
        alloc,
        desk,
        ANOTHER,
        &["resume", "B", "main"],
        0,
        b"end main SUCCESS\n",
    )?;
    let desk = said_last(
        &rt,
        alloc,
        desk,
        ANOTHER,
        &["resume", "B"],
        0,
        b"end two SUCCESS\n",
    )?;
    let _ = said_last(
        &rt,
        alloc,
        desk,
        ANOTHER,
        &["show", "B", "three"],
        FORBIDDEN,
        none,
    )?;
    Ok(())
}
