use crate::faults::desk;
use std::alloc::Global;
use std::test::Fail;
use tf_commands::{Ended, Outside, ProgramCrew, taskflow};
use tf_desk::MemoryDesk;
use tf_ports::{Address, MemoryDialer, MemoryDoor, MemoryLink, MemorySource, MemorySources};
use tf_report::{REVERTED, SUCCEEDED, UNHIRED};
use tf_values::Text;
use tf_words::Word;

const ONE_ECHO: &[u8] = br#"name = "main"
kind = "linear"
items = [{ task = "b", kind = "echo", inject = { value = 1 } }]
"#;

/// The frames of the whole reply, and the second one with another id.
const RUNNING: &[u8] = b"\x00\x00\x00\x1a{\"id\":1,\"state\":\"RUNNING\"}";

const SUCCESS: &[u8] = b"\x00\x00\x00\x25{\"id\":1,\"result\":1,\"state\":\"SUCCESS\"}";

const OTHER: &[u8] = b"\x00\x00\x00\x25{\"id\":2,\"result\":1,\"state\":\"SUCCESS\"}";

/// What a run of one task says first, and what it says of one that is undone.
const BEGIN: &[u8] = b"1 0 flow main RUNNING
2 0 task b RUNNING
3 0 task b ";

const UNDONE: &[u8] = b"
4 0 resolve main REVERT_ALL
5 0 task b REVERTING
6 0 task b REVERTED
7 0 flow main REVERTED
end main REVERTED
";

/// The outside of a command: a desk, a source of the flow, and no door; its crew is the program's, over this dialer.
fn outside_of(
    rt: HostRuntime,
    alloc: Global,
    dialer: MemoryDialer<MemoryLink>,
) -> Result<
    Outside<
        MemoryDesk,
        MemorySources,
        ProgramCrew<HostRuntime, MemoryDialer<MemoryLink>>,
        MemoryDoor<MemoryLink>,
    >,
    Fail,
> {
    let mut sources = Vec::new(alloc);
    sources.push(MemorySource {
        name: Text::make(alloc, b"flow.toml")?,
        bytes: Vec::from_slice(alloc, ONE_ECHO)?,
    })?;
    Ok(Outside {
        desk: desk(alloc, &[])?,
        sources: MemorySources::make(sources, Vec::new(alloc)),
        crew: ProgramCrew::make(rt, dialer),
        door: MemoryDoor::make(alloc, Vec::new(alloc), Vec::new(alloc)),
    })
}

/// A dialer of so many links, over each of which these bytes come; the call of this number fails.
fn dialer_of(
    alloc: Global,
    count: usize,
    bytes: &[u8],
    failing: u64,
) -> Result<MemoryDialer<MemoryLink>, Fail> {
    let mut links = Vec::new(alloc);
    for _link in 0..count {
        let bytes = Vec::from_slice(alloc, bytes)?;
        links.push(MemoryLink::make(alloc, bytes, 7, Vec::new(alloc)))?;
    }
    Ok(MemoryDialer::make(alloc, links, vec![in alloc; failing]?))
}

/// The words of a trial by these workers.
fn trial_by(alloc: Global, workers: &str) -> Result<Vec<Word>, Fail> {
    let mut made = Vec::new(alloc);
    for word in &["try", "flow.toml", "--worker", workers] {
        made.push(Word::make(String::from_str(alloc, word)?))?;
    }
    Ok(made)
}

/// These parts, one after another.
fn joined(alloc: Global, parts: &[&[u8]]) -> Result<Vec<u8>, Fail> {
    let mut bytes = Vec::new(alloc);
    for part in parts {
        bytes.extend_from_slice(part)?;
    }
    Ok(bytes)
}

const ONE_WORKER: &str = "tcp:127.0.0.1:7001";

#[test]
fn a_remote_hand_runs_a_flow(rt: HostRuntime) -> Result<(), Fail> {
    let alloc = rt.alloc();
    let words = trial_by(alloc, ONE_WORKER)?;
    let dialer = dialer_of(alloc, 1, &joined(alloc, &[RUNNING, SUCCESS])?, 0)?;
    let outside = outside_of(rt, alloc, dialer)?;
    let Ended { outside, status } = taskflow(&rt, alloc, &words, outside);
    assert_eq!(rt; status, SUCCEEDED);
    let says = b"SUCCESS 1\n4 0 flow main SUCCESS\nend main SUCCESS\n";
    let wanted = joined(alloc, &[BEGIN, says])?;
    assert_eq!(rt; outside.desk.shown(), wanted.as_slice());
    Ok(())
}

#[test]
fn a_flow_whose_worker_is_lost_is_undone(rt: HostRuntime) -> Result<(), Fail> {
    let alloc = rt.alloc();
    let words = trial_by(alloc, ONE_WORKER)?;
    let outside = outside_of(rt, alloc, dialer_of(alloc, 1, &RUNNING[..10], 0)?)?;
    let Ended { outside, status } = taskflow(&rt, alloc, &words, outside);
    assert_eq!(rt; status, REVERTED);
    let wanted = joined(alloc, &[BEGIN, b"FAILURE lost", UNDONE])?;
    assert_eq!(rt; outside.desk.shown(), wanted.as_slice());
    Ok(())
}

#[test]
fn a_flow_whose_worker_answers_another_is_undone(rt: HostRuntime) -> Result<(), Fail> {
    let alloc = rt.alloc();
    let words = trial_by(alloc, ONE_WORKER)?;
    let dialer = dialer_of(alloc, 1, &joined(alloc, &[RUNNING, OTHER])?, 0)?;
    let outside = outside_of(rt, alloc, dialer)?;
    let Ended { outside, status } = taskflow(&rt, alloc, &words, outside);
    assert_eq!(rt; status, REVERTED);
    let wanted = joined(alloc, &[BEGIN, b"FAILURE bad-reply 30", UNDONE])?;
    assert_eq!(rt; outside.desk.shown(), wanted.as_slice());
    Ok(())
}

const THREE_WORKERS: &str = "tcp:127.0.0.1:7002,tcp:127.0.0.1:7001,tcp:127.0.0.1:7003";

#[test]
fn hands_are_hired_at_the_addresses_in_order(rt: HostRuntime) -> Result<(), Fail> {
    let alloc = rt.alloc();
    let words = trial_by(alloc, THREE_WORKERS)?;
    let outside = outside_of(rt, alloc, dialer_of(alloc, 3, b"", 3)?)?;
    let Ended { outside, status } = taskflow(&rt, alloc, &words, outside);
    assert_eq!(rt; status, UNHIRED);
    assert_eq!(rt; outside.desk.shown(), b"taskflow: cannot hire\n".as_slice());
    let dialled = outside.crew.dialer().dialled();
    assert!(rt; matches!(dialled, [Address::Tcp(7002), Address::Tcp(7001)]));
    Ok(())
}
