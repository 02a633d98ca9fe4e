//! The board on which conductors work, and the flow files of its jobs.
use std::alloc::Global;
use std::test::Fail;
use tf_board::open;
use tf_desk::MemoryDesk;
use tf_ports::{MemorySource, MemorySources};
use tf_states::Priority;
use tf_values::{Name, Text, Val};

/// A flow of two tasks, both of which give what they are given.
const TWO_ECHOES: &[u8] = br#"name = "main"
kind = "linear"
items = [
    { task = "a", kind = "echo", inject = { value = 1 } },
    { task = "b", kind = "echo", inject = { value = "two" } },
]
"#;

/// A flow whose second task fails.
const ONE_FAILS: &[u8] = br#"name = "main"
kind = "linear"
items = [
    { task = "a", kind = "echo", inject = { value = 1 } },
    { task = "b", kind = "fail", inject = { message = "no" } },
]
"#;

/// The desk, on whose board a job more stands, whose details name a file.
pub(crate) fn posted(
    alloc: Global,
    desk: MemoryDesk,
    name: &[u8],
    priority: Priority,
    file: &[u8],
) -> Result<MemoryDesk, Fail> {
    let board = Text::make(alloc, b"B")?;
    let Ok(mut board) = open(alloc, desk, &board) else {
        return Err(Fail::from("not opened"));
    };
    let name = Name::make(name).ok_or("no name")?;
    let details = Val::Text(Text::make(alloc, file)?);
    if board.post(name, priority, details).is_err() {
        return Err(Fail::from("not posted"));
    }
    Ok(board.close())
}

/// A source more, of this name.
fn add(
    alloc: Global,
    sources: &mut Vec<MemorySource>,
    name: &[u8],
    bytes: &[u8],
) -> Result<(), Fail> {
    let name = Text::make(alloc, name)?;
    let bytes = Vec::from_slice(alloc, bytes)?;
    sources.push(MemorySource { name, bytes })?;
    Ok(())
}

/// The sources of both flows, whose stated calls fail.
pub(crate) fn sources(alloc: Global, failing: &[u64]) -> Result<MemorySources, Fail> {
    let mut sources = Vec::new(alloc);
    add(alloc, &mut sources, b"ok.toml", TWO_ECHOES)?;
    add(alloc, &mut sources, b"bad.toml", ONE_FAILS)?;
    let failing = Vec::from_slice(alloc, failing)?;
    Ok(MemorySources::make(sources, failing))
}
