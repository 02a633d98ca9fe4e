ghost use Rattle.std.specs.Prelude.{◌≡◌, ◌≢◌, ◌++◌, ◌∷◌, [], codes, IfOk, IsErr};
ghost use Rattle.std.specs.List.{flat_map};
ghost use Rattle.tf_report.specs.Lines.{job_line, owner_text};
ghost use Rattle.tf_board.specs.Does.{call_text, fault_text, fault_status, posted_text, applied_text, kept_text};
ghost use Rattle.tf_report.specs.Closing.{not_a_book, book_full};
ghost use Rattle.tf_board.specs.Board.{id_of, listed};
ghost use Rattle.tf_board.specs.declared.faults.BoardFault.{BoardFault};

use crate::board::Board;
use crate::calls::JobCall;
use crate::commands::JobAction;
use crate::faults::BoardFault;
use crate::ids::{id_text, job_id};
use std::alloc::Global;
use tf_desk::Desk;
use tf_report::{
    BOARD_REFUSED, DISK_FAILED, DISK_FAULT, FULL, OUT_OF_MEMORY, append, append_book_full,
    append_not_a_book, append_pair, jobs,
};
use tf_values::{Memory, Name};
use uuid::Uuid;

/// The message for a file that is no board: the offset and the byte that show it, or the file's end.
pub fn not_a_book_text(alloc: Global, offset: u64, byte: Option<u8>) -> Result<Vec<u8>, Memory>
    ensures { IfOk result (λ text. text.items ≡ not_a_book offset byte) }
{
    let mut out = Vec::new(alloc);
    append_not_a_book(offset, byte, &mut out)?;
    Ok(out)
}

/// The message for a board that is full: its size, and how many bytes more were asked for.
fn book_full_text(alloc: Global, size: u64, need: u64) -> Result<Vec<u8>, Memory>
    ensures { IfOk result (λ text. text.items ≡ book_full size need) }
{
    let mut out = Vec::new(alloc);
    append_book_full(size, need, &mut out)?;
    Ok(out)
}

/// A head, a name, and the end of the line.
pub fn line(alloc: Global, head: &[u8], name: &[u8]) -> Result<Vec<u8>, Memory>
    ensures { IfOk result (λ text. text.items ≡ head.now ++ name.now ++ 10 ∷ []) }
{
    let mut out = Vec::new(alloc);
    append_pair(head, name, &mut out)?;
    append(b"\n", &mut out)?;
    Ok(out)
}

/// A text that is always the same.
fn fixed(alloc: Global, text: &[u8]) -> Result<Vec<u8>, Memory>
    ensures { IfOk result (λ copy. copy.items ≡ text.now) }
{
    let mut out = Vec::new(alloc);
    append(text, &mut out)?;
    Ok(out)
}

/// The message for a call that did nothing. `Memory` is answered for want of memory, of the call or here.
#[tactic(auto, unfolding(crate::specs::Does::fault_text))]
pub fn fault_line(alloc: Global, fault: BoardFault) -> Result<Vec<u8>, Memory>
    requires { fault ≢ BoardFault.Halted }
    ensures line { IfOk result (λ text. text.items ≡ fault_text fault) }
    ensures stopped { fault ≡ BoardFault.Memory → IsErr result }
{
    match fault {
        BoardFault::NoJob(id) => line(alloc, b"taskflow: no job: ", id.bytes()),
        BoardFault::Gone(id) => line(alloc, b"taskflow: job gone: ", id.bytes()),
        BoardFault::Claimed(owner) => line(alloc, b"taskflow: claimed by ", owner.bytes()),
        BoardFault::NotOwner(owner) => owner_line(alloc, b"taskflow: not the owner: ", owner),
        BoardFault::Full { size, need } => book_full_text(alloc, size, need),
        BoardFault::Disk => fixed(alloc, DISK_FAULT),
        BoardFault::Halted => unreachable!(),
        BoardFault::Memory => Err(Memory),
    }
}

/// The status of a call that did nothing.
pub fn status_of(fault: &BoardFault) -> u8
    ensures { result ≡ fault_status fault.now }
{
    match fault {
        BoardFault::NoJob(_)
        | BoardFault::Gone(_)
        | BoardFault::Claimed(_)
        | BoardFault::NotOwner(_) => BOARD_REFUSED,
        BoardFault::Full { .. } => FULL,
        BoardFault::Disk => DISK_FAILED,
        BoardFault::Halted | BoardFault::Memory => OUT_OF_MEMORY,
    }
}

/// The lines of a board's jobs.
pub fn jobs_text<K: Desk>(alloc: Global, board: &Board<K>) -> Result<Vec<u8>, Memory>
    ensures { IfOk result (λ text. text.items ≡ flat_map job_line (listed board.now.past)) }
{
    let lines = board.list()?;
    let mut out = Vec::new(alloc);
    jobs(&lines, &mut out)?;
    Ok(out)
}

/// A head, and who has a job.
fn owner_line(alloc: Global, head: &[u8], owner: Option<Name>) -> Result<Vec<u8>, Memory>
    ensures { IfOk result (λ text. text.items ≡ head.now ++ owner_text owner ++ 10 ∷ []) }
{
    match owner {
        Some(owner) => line(alloc, head, owner.bytes()),
        None => line(alloc, head, b"-"),
    }
}

/// What is said of who has a job.
#[tactic(auto, unfolding(crate::specs::Does::kept_text))]
pub fn kept_line(alloc: Global, owner: Option<Name>) -> Result<Vec<u8>, Memory>
    ensures { IfOk result (λ text. text.items ≡ kept_text owner) }
{
    owner_line(alloc, b"owner ", owner)
}

/// What is said of the job that was posted with this number.
#[tactic(auto, unfolding(crate::specs::Does::posted_text))]
pub fn posted_line(alloc: Global, number: u64, name: &Name) -> Result<Vec<u8>, Memory>
    ensures { IfOk result (λ text. text.items ≡ posted_text (id_of number name.now)) }
{
    let id = job_id(alloc, number, name)?;
    let id = id_text(alloc, &id)?;
    line(alloc, b"posted ", id.bytes())
}

/// What is said of what an owner did with a job.
#[tactic(auto, unfolding(crate::specs::Does::applied_text))]
pub fn applied_line(
    alloc: Global,
    action: JobAction,
    id: &Uuid,
    owner: &Name,
) -> Result<Vec<u8>, Memory>
    ensures { IfOk result (λ text. text.items ≡ applied_text action id.now owner.now) }
{
    let id = id_text(alloc, id)?;
    match action {
        JobAction::Claim => claimed_line(alloc, id.bytes(), owner.bytes()),
        JobAction::Abandon => line(alloc, b"abandoned ", id.bytes()),
        JobAction::Consume => line(alloc, b"consumed ", id.bytes()),
        JobAction::Trash => line(alloc, b"trashed ", id.bytes()),
    }
}

/// What is said of a call that was made about the job of this number.
pub fn call_line(alloc: Global, call: &JobCall, job: u64) -> Result<Vec<u8>, Memory>
    ensures { IfOk result (λ text. text.items ≡ call_text call.now job) }
{
    match call {
        JobCall::Post {
            name,
            priority: _,
            details: _,
        } => posted_line(alloc, job, name),
        JobCall::Apply { action, id, owner } => applied_line(alloc, *action, id, owner),
    }
}

/// What is said of a job that an owner took, of whose id this is the text.
fn claimed_line(alloc: Global, id: &[u8], owner: &[u8]) -> Result<Vec<u8>, Memory>
    ensures { IfOk result (λ text. text.items ≡ codes "claimed " ++ id.now ++ 32 ∷ owner.now ++ 10 ∷ []) }
{
    let mut out = Vec::new(alloc);
    append_pair(b"claimed ", id, &mut out)?;
    append_pair(b" ", owner, &mut out)?;
    append(b"\n", &mut out)?;
    Ok(out)
}
