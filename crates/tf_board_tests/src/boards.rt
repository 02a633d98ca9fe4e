//! Boards in memory, and the jobs on them.
ghost use Rattle.std.specs.Prelude.{◌≡◌, false, IfOk};

use std::alloc::Global;
use std::test::Fail;
use tf_board::{Board, JobCall};
use tf_desk::{Desk, MemoryDesk};
use tf_shared_board::SharedBoard;
use tf_states::Priority;
use tf_values::{Name, Text, Val};

/// The name of these bytes.
pub(crate) fn named(bytes: &[u8]) -> Result<Name, Fail>
    ensures { IfOk result (λ name. name ≡ bytes.now) }
{
    Ok(Name::make(bytes).ok_or("no name")?)
}

/// A desk of whose calls the stated ones fail.
pub(crate) fn desk(alloc: Global, failing: &[u64]) -> Result<MemoryDesk, Fail> {
    let failing = Vec::from_slice(alloc, failing)?;
    let desk = MemoryDesk::make(alloc, 262_144, 100_000, failing, Vec::new(alloc))?;
    Ok(desk)
}

/// Picks the file `B`.
fn pick<K: Desk>(alloc: Global, desk: &mut K) -> Result<(), Fail> {
    let name = Text::make(alloc, b"B")?;
    match desk.pick(alloc, &name) {
        Ok(()) => Ok(()),
        Err(_) => Err(Fail::from("the file isn't there")),
    }
}

/// The board that the picked file of this desk is.
fn loaded<K: Desk>(alloc: Global, desk: K) -> Result<Board<K>, Fail>
    ensures { IfOk result (λ board. board.journal.halted ≡ false) }
{
    match Board::load(alloc, desk) {
        Ok(board) => Ok(board),
        Err(_) => Err(Fail::from("not loaded")),
    }
}

/// A board in memory without a job, over a desk of whose calls the stated ones fail.
pub(crate) fn empty_board(alloc: Global, failing: &[u64]) -> Result<Board<MemoryDesk>, Fail>
    ensures { IfOk result (λ board. board.journal.halted ≡ false) }
{
    let mut desk = desk(alloc, failing)?;
    pick(alloc, &mut desk)?;
    loaded(alloc, desk)
}

/// Such a board that is shared.
pub(crate) fn shared_board(
    alloc: Global,
    failing: &[u64],
) -> Result<SharedBoard<MemoryDesk>, Fail> {
    let board = empty_board(alloc, failing)?;
    Ok(SharedBoard::make(alloc, board))
}

/// A call more, made by nobody of those who work.
pub(crate) fn call(shared: &mut SharedBoard<MemoryDesk>, call: JobCall) -> Result<(), Fail> {
    if shared.call(63, call).is_err() {
        return Err(Fail::from("not made"));
    }
    Ok(())
}

/// A job more.
pub(crate) fn post(
    shared: &mut SharedBoard<MemoryDesk>,
    name: &[u8],
    priority: Priority,
    details: Val,
) -> Result<(), Fail> {
    let name = named(name)?;
    call(
        shared,
        JobCall::Post {
            name,
            priority,
            details,
        },
    )
}
