use std::alloc::Global;
use std::sync::Wait;
use std::test::Fail;
use std::thread::Threads;
use tf_commands::{Ended, Outside, taskflow};
use tf_desk::MemoryDesk;
use tf_ports::{MemoryCrew, MemoryDoor, MemoryLink, MemorySource, MemorySources, MemorySpawner};
use tf_tasks::LocalHand;
use tf_values::Text;
use tf_words::Word;

pub(crate) const TWO_ECHOES: &[u8] = br#"name = "main"
kind = "linear"
items = [
    { task = "a", kind = "echo", inject = { value = 1 } },
    { task = "b", kind = "echo", inject = { value = "two" } },
]
"#;

/// The calls of the sources, of the crew and of the door that fail.
pub(crate) struct Faults {
    sources: &'static [u64],
    crew: &'static [u64],
    door: &'static [u64],
}

pub(crate) const NO_FAULTS: Faults = Faults {
    sources: &[],
    crew: &[],
    door: &[],
};

/// Runs the words over a desk, a source of this flow, a crew of one hand, and a door that gives links of these bytes, the
/// last first: the desk, and the status.
pub(crate) fn ran_over<R: Threads + Wait + Sync>(
    rt: &R,
    alloc: Global,
    desk: MemoryDesk,
    flow: &[u8],
    words: &[&str],
    faults: &Faults,
    links: &[&[u8]],
) -> Result<(MemoryDesk, u8), Fail> {
    let mut made = Vec::new(alloc);
    for word in words {
        made.push(Word::make(String::from_str(alloc, word)?))?;
    }
    let mut sources = Vec::new(alloc);
    sources.push(MemorySource {
        name: Text::make(alloc, b"flow.toml")?,
        bytes: Vec::from_slice(alloc, flow)?,
    })?;
    let spawner = MemorySpawner::make(alloc, Vec::new(alloc), Vec::new(alloc));
    let mut hands = Vec::new(alloc);
    hands.push(LocalHand::make(spawner))?;
    let outside = Outside {
        desk,
        sources: MemorySources::make(sources, Vec::from_slice(alloc, faults.sources)?),
        crew: MemoryCrew::make(alloc, hands, Vec::from_slice(alloc, faults.crew)?),
        door: MemoryDoor::make(
            alloc,
            links_of(alloc, links)?,
            Vec::from_slice(alloc, faults.door)?,
        ),
    };
    let Ended { outside, status } = taskflow(rt, alloc, &made, outside);
    let Outside { desk, .. } = outside;
    Ok((desk, status))
}

pub(crate) fn links_of(alloc: Global, links: &[&[u8]]) -> Result<Vec<MemoryLink>, Fail> {
    let mut made = Vec::new(alloc);
    for bytes in links {
        let bytes = Vec::from_slice(alloc, bytes)?;
        made.push(MemoryLink::make(alloc, bytes, 100, Vec::new(alloc)))?;
    }
    Ok(made)
}

/// A desk of whose calls the stated ones fail.
pub(crate) fn desk(alloc: Global, failing: &[u64]) -> Result<MemoryDesk, Fail> {
    let failing = Vec::from_slice(alloc, failing)?;
    let desk = MemoryDesk::make(alloc, 65_536, 1_000, failing, Vec::new(alloc))?;
    Ok(desk)
}

/// Whether a trial says this and ends with this status, where the stated calls of the desk fail, and those of the rest.
fn tries<R: Threads + Wait + Sync>(
    rt: &R,
    alloc: Global,
    failing: &[u64],
    faults: &Faults,
    says: &[u8],
    wanted: u8,
) -> Result<bool, Fail> {
    let desk = desk(alloc, failing)?;
    let (desk, status) = ran_over(
        rt,
        alloc,
        desk,
        TWO_ECHOES,
        &["try", "flow.toml"],
        faults,
        &[],
    )?;
    Ok(status == wanted && desk.shown() == says)
}

/// What is said of a trial whose output fails at its third line.
const CUT_IN_A_LINE: &[u8] = b"1 0 flow main RUNNING
2 0 task a RUNNING
3 0 task a";

/// The same where it fails at the report.
const CUT_IN_THE_REPORT: &[u8] = b"1 0 flow main RUNNING
2 0 task a RUNNING
3 0 task a SUCCESS 1
4 0 task b RUNNING
5 0 task b SUCCESS \"two\"
6 0 flow main SUCCESS
end main";

#[test]
fn a_trial_ends_by_the_fault_of_its_output(rt: HostRuntime) -> Result<(), Fail> {
    let alloc = rt.alloc();
    assert!(rt; tries(&rt, alloc, &[4], &NO_FAULTS, CUT_IN_A_LINE, 7)?);
    assert!(rt; tries(&rt, alloc, &[10], &NO_FAULTS, CUT_IN_THE_REPORT, 7)?);
    Ok(())
}

const UNREAD: Faults = Faults {
    sources: &[1],
    crew: &[],
    door: &[],
};

const UNHIRED: Faults = Faults {
    sources: &[],
    crew: &[1],
    door: &[],
};

#[test]
fn a_trial_ends_by_the_fault_of_its_source_or_its_crew(rt: HostRuntime) -> Result<(), Fail> {
    let alloc = rt.alloc();
    assert!(rt; tries(&rt, alloc, &[], &UNREAD, b"taskflow: cannot read\n", 3)?);
    assert!(rt; tries(&rt, alloc, &[], &UNHIRED, b"taskflow: cannot hire\n", 8)?);
    Ok(())
}

/// Whether a run of which this call of the desk fails ends with this status, and a resume goes on to its end.
fn goes_on<R: Threads + Wait + Sync>(
    rt: &R,
    alloc: Global,
    call: u64,
    wanted: u8,
) -> Result<bool, Fail> {
    let desk = desk(alloc, &[call])?;
    let words = ["run", "flow.toml", "B"];
    let (desk, status) = ran_over(rt, alloc, desk, TWO_ECHOES, &words, &NO_FAULTS, &[])?;
    if status != wanted {
        return Ok(false);
    }
    let (desk, status) = ran_over(
        rt,
        alloc,
        desk,
        TWO_ECHOES,
        &["resume", "B"],
        &NO_FAULTS,
        &[],
    )?;
    Ok(status == 0 && desk.shown().ends_with(b"end main SUCCESS\n".as_slice()))
}

#[test]
fn a_run_goes_on_after_a_fault_of_the_desk(rt: HostRuntime) -> Result<(), Fail> {
    let alloc = rt.alloc();
    assert!(rt; goes_on(&rt, alloc, 30, 5)?);
    assert!(rt; goes_on(&rt, alloc, 28, 7)?);
    Ok(())
}

/// The frame of the request of an echo of 1.
const REQUEST: &[u8] =
    b"\x00\x00\x00\x49{\"action\":\"execute\",\"args\":[[\"value\",1]],\"id\":1,\"kind\":\"echo\",\"words\":[]}";

/// Whether a worker says this of so many sessions of these links, the last first, and ends with this status.
fn serves<R: Threads + Wait + Sync>(
    rt: &R,
    alloc: Global,
    links: &[&[u8]],
    sessions: &str,
    faults: &Faults,
    says: &[u8],
    wanted: u8,
) -> Result<bool, Fail> {
    let desk = desk(alloc, &[])?;
    let words = ["worker", "unix:w", "--sessions", sessions];
    let (desk, status) = ran_over(rt, alloc, desk, TWO_ECHOES, &words, faults, links)?;
    Ok(status == wanted && desk.shown() == says)
}

/// What is said of three sessions: one that is closed after its answer, one with an empty frame, and one whose link ends
/// within a frame.
const ENDED_BAD_LOST: &[u8] = b"session 1 ended
session 2 bad 0
session 3 lost
";

/// What is said of one session where no link comes after it.
const ENDED_AND_NO_MORE: &[u8] = b"session 1 ended
taskflow: cannot listen
";

#[test]
fn a_worker_says_how_its_sessions_ended(rt: HostRuntime) -> Result<(), Fail> {
    let alloc = rt.alloc();
    let links = [&REQUEST[..10], b"\x00\x00\x00\x00".as_slice(), REQUEST];
    assert!(rt; serves(&rt, alloc, &links, "3", &NO_FAULTS, ENDED_BAD_LOST, 0)?);
    assert!(rt;
        serves(
            &rt,
            alloc,
            &[REQUEST],
            "2",
            &NO_FAULTS,
            ENDED_AND_NO_MORE,
            8
        )?
    );
    Ok(())
}

pub(crate) const CLOSED: Faults = Faults {
    sources: &[],
    crew: &[],
    door: &[1],
};

#[test]
fn a_worker_whose_door_fails_says_so(rt: HostRuntime) -> Result<(), Fail> {
    let alloc = rt.alloc();
    assert!(rt;
        serves(
            &rt,
            alloc,
            &[REQUEST],
            "1",
            &CLOSED,
            b"taskflow: cannot listen\n",
            8
        )?
    );
    Ok(())
}
