//! A board that is served, and the links over which.
use crate::boards::{call, named, post, shared_board};
use std::alloc::Global;
use std::test::Fail;
use tf_board::{JobAction, JobCall, parse_id};
use tf_desk::MemoryDesk;
use tf_ports::MemoryLink;
use tf_shared_board::SharedBoard;
use tf_states::Priority;
use tf_values::Val;
use uuid::Uuid;

/// The id of the first job of a board, where it is named `build`.
pub(crate) const BUILD: &str = "584cd1e7-aed6-500d-8055-e04f2efc0be6";

/// The id of this text.
pub(crate) fn id(text: &str) -> Result<Uuid, Fail> {
    Ok(parse_id(text).ok_or("no id")?)
}

/// Two jobs, of which ann has the first.
pub(crate) fn claimed_board(alloc: Global) -> Result<SharedBoard<MemoryDesk>, Fail> {
    let mut shared = shared_board(alloc, &[])?;
    post(&mut shared, b"build", Priority::Normal, Val::Nothing)?;
    post(&mut shared, b"test", Priority::High, Val::Nothing)?;
    let owner = named(b"ann")?;
    call(
        &mut shared,
        JobCall::Apply {
            action: JobAction::Claim,
            id: id(BUILD)?,
            owner,
        },
    )?;
    Ok(shared)
}

/// Appends a message as a frame.
pub(crate) fn frame(message: &str, out: &mut Vec<u8>) -> Result<(), Fail> {
    let bytes = message.as_bytes();
    let Ok(length) = u32::try_from(bytes.len()) else {
        return Err(Fail::from("a frame is too long"));
    };
    out.extend_from_slice(&length.to_be_bytes())?;
    out.extend_from_slice(bytes)?;
    Ok(())
}

/// These messages as frames.
pub(crate) fn frames(alloc: Global, messages: &[&str]) -> Result<Vec<u8>, Fail> {
    let mut bytes = Vec::new(alloc);
    for message in messages {
        frame(message, &mut bytes)?;
    }
    Ok(bytes)
}

/// A link that gives these bytes, three at once.
pub(crate) fn link(alloc: Global, bytes: Vec<u8>) -> MemoryLink {
    MemoryLink::make(alloc, bytes, 3, Vec::new(alloc))
}
