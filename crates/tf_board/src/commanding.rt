//! A whole command on a board.
ghost use Rattle.std.specs.Prelude.{◌≡◌, ◌≢◌, ℕ, List, IsTrue};
ghost use Rattle.tf_numbers.specs.Numbers.{Rises};
ghost use Rattle.tf_desk.specs.State.{told_as};
ghost use Rattle.tf_journal.specs.Start.{file_of};
ghost use Rattle.tf_board.specs.Does.{fault_text, fault_status, Reached, Ends, Does, Concludes, HasCauses, IsAllowed, IsBoardComplete};
ghost use Rattle.tf_board.specs.Board.{board_in};
ghost use Rattle.tf_board.specs.declared.commands.Command.{Command};

use crate::board::{Owner, fault_of};
use crate::calls::{BoardRequest, JobCall};
use crate::commands::JobAction;
use crate::ending::{end_unopened, end_with_text};
use crate::faults::BoardFault;
use crate::messages::{applied_line, fault_line, jobs_text, kept_line, posted_line, status_of};
use crate::opening::open;
use crate::rules::Refusal;
use std::alloc::Global;
use tf_desk::Desk;
use tf_report::{DISK_FAILED, OUT_OF_MEMORY, SUCCEEDED};
use tf_states::Priority;
use tf_values::{Name, Text, Val};
use uuid::Uuid;

/// Says why a call did nothing, unless memory ran out.
fn fail<K: Desk>(alloc: Global, desk: K, fault: BoardFault) -> (K, u8)
    requires sound { fault ≢ BoardFault.Halted }
    ensures ends { (name : List ℕ) (past pending after : List Command) (entry seen : K)
        → Reached name past pending after (told_as (K.state seen) (K.state entry)) (K.state desk)
        → Ends name past pending after (told_as (K.state seen) (K.state entry)) (K.state result.0)
        (fault_text fault) (fault_status fault) result.1 }
    ensures stopped { fault ≡ BoardFault.Memory → result.1 ≡ OUT_OF_MEMORY }
    ensures concludes { Concludes (K.state desk) (K.state result.0) result.1 }
    ensures failed { result.1 ≡ DISK_FAILED → fault ≡ BoardFault.Disk }
{
    let status = status_of(&fault);
    let text = fault_line(alloc, fault);
    end_with_text(desk, text, status)
}

/// Posts a job.
fn post<K: Desk>(
    alloc: Global,
    desk: K,
    file: &Text,
    name: Name,
    priority: Priority,
    details: Val,
) -> (K, u8)
    ensures does { Does (BoardRequest.Call (JobCall.Post name priority details)) file.now
        (told_as (K.state result.0) (K.state desk)) (K.state result.0) result.1 }
    ensures causes { HasCauses (told_as (K.state result.0) (K.state desk)) (K.state result.0) result.1 }
    ensures falls { IsTrue (K.state result.0).tells → IsTrue (K.state desk).tells }
{
    let mut board = match open(alloc, desk, file) {
        Ok(board) => board,
        Err((desk, fault)) => return end_unopened(alloc, desk, fault),
    };
    match board.post(name, priority, details) {
        Ok(number) => {
            let text = posted_line(alloc, number, &name);
            end_with_text(board.close(), text, SUCCEEDED)
        }
        Err(fault) => fail(alloc, board.close(), fault),
    }
}

/// Does that with a job for an owner.
fn act<K: Desk>(
    alloc: Global,
    desk: K,
    file: &Text,
    action: JobAction,
    id: &Uuid,
    owner: &Name,
) -> (K, u8)
    ensures does { Does (BoardRequest.Call (JobCall.Apply action id.now owner.now)) file.now
        (told_as (K.state result.0) (K.state desk)) (K.state result.0) result.1 }
    ensures causes { HasCauses (told_as (K.state result.0) (K.state desk)) (K.state result.0) result.1 }
    ensures falls { IsTrue (K.state result.0).tells → IsTrue (K.state desk).tells }
{
    let mut board = match open(alloc, desk, file) {
        Ok(board) => board,
        Err((desk, fault)) => return end_unopened(alloc, desk, fault),
    };
    match board.act(action, id, owner) {
        Ok(()) => {
            let text = applied_line(alloc, action, id, owner);
            end_with_text(board.close(), text, SUCCEEDED)
        }
        Err(fault) => fail(alloc, board.close(), fault),
    }
}

/// Says who has a job.
fn owner<K: Desk>(alloc: Global, desk: K, file: &Text, id: &Uuid) -> (K, u8)
    ensures does { Does (BoardRequest.Owner id.now) file.now
        (told_as (K.state result.0) (K.state desk)) (K.state result.0) result.1 }
    ensures causes { HasCauses (told_as (K.state result.0) (K.state desk)) (K.state result.0) result.1 }
    ensures falls { IsTrue (K.state result.0).tells → IsTrue (K.state desk).tells }
{
    let board = match open(alloc, desk, file) {
        Ok(board) => board,
        Err((desk, fault)) => return end_unopened(alloc, desk, fault),
    };
    match board.owner(id) {
        Owner::NoJob => fail(alloc, board.close(), fault_of(alloc, Refusal::NoJob, id)),
        Owner::Gone => fail(alloc, board.close(), fault_of(alloc, Refusal::Gone, id)),
        Owner::Free => {
            let text = kept_line(alloc, None);
            end_with_text(board.close(), text, SUCCEEDED)
        }
        Owner::Of(owner) => {
            let text = kept_line(alloc, Some(owner));
            end_with_text(board.close(), text, SUCCEEDED)
        }
    }
}

/// Says which jobs there are.
fn list<K: Desk>(alloc: Global, desk: K, file: &Text) -> (K, u8)
    ensures does { Does BoardRequest.List file.now
        (told_as (K.state result.0) (K.state desk)) (K.state result.0) result.1 }
    ensures causes { HasCauses (told_as (K.state result.0) (K.state desk)) (K.state result.0) result.1 }
    ensures falls { IsTrue (K.state result.0).tells → IsTrue (K.state desk).tells }
{
    let board = match open(alloc, desk, file) {
        Ok(board) => board,
        Err((desk, fault)) => return end_unopened(alloc, desk, fault),
    };
    let text = jobs_text(alloc, &board);
    end_with_text(board.close(), text, SUCCEEDED)
}

/// Makes a call.
fn make<K: Desk>(alloc: Global, desk: K, file: &Text, call: JobCall) -> (K, u8)
    ensures does { Does (BoardRequest.Call call) file.now
        (told_as (K.state result.0) (K.state desk)) (K.state result.0) result.1 }
    ensures causes { HasCauses (told_as (K.state result.0) (K.state desk)) (K.state result.0) result.1 }
    ensures falls { IsTrue (K.state result.0).tells → IsTrue (K.state desk).tells }
{
    match call {
        JobCall::Post {
            name,
            priority,
            details,
        } => post(alloc, desk, file, name, priority, details),
        JobCall::Apply { action, id, owner } => act(alloc, desk, file, action, &id, &owner),
    }
}

/// Does what is asked.
fn answer<K: Desk>(alloc: Global, desk: K, file: &Text, request: BoardRequest) -> (K, u8)
    ensures does { Does request file.now (told_as (K.state result.0) (K.state desk)) (K.state result.0) result.1 }
    ensures causes { HasCauses (told_as (K.state result.0) (K.state desk)) (K.state result.0) result.1 }
    ensures falls { IsTrue (K.state result.0).tells → IsTrue (K.state desk).tells }
{
    match request {
        BoardRequest::Call(call) => make(alloc, desk, file, call),
        BoardRequest::Owner { id } => owner(alloc, desk, file, &id),
        BoardRequest::List => list(alloc, desk, file),
    }
}

/// Does what is asked of the board of a file. The file of that name is picked and read as a board; one that is unborn
/// becomes a board without a command, and one that is no board isn't changed. What the request comes to on the board's
/// commands is recorded and then said. A crash since the call's start leaves the commands from before, or those from
/// after. What is told of the file, and what a crash leaves, is told as far as the desk tells after the call, and it
/// tells then only where it told before.
pub fn board_command<K: Desk>(
    alloc: Global,
    board: &Text,
    request: BoardRequest,
    desk: K,
) -> (K, u8)
    ensures does { Does request board.now (told_as (K.state result.0) (K.state desk)) (K.state result.0) result.1 }
    ensures complete { IsTrue (K.state result.0).tells
        → IsAllowed request (board_in (file_of (K.state desk) board.now))
        → ¬ (Rises (K.state desk).disk_faults (K.state result.0).disk_faults)
        → ¬ (Rises (K.state desk).out_faults (K.state result.0).out_faults)
        → IsBoardComplete result.1 }
    ensures causes { HasCauses (told_as (K.state result.0) (K.state desk)) (K.state result.0) result.1 }
    ensures falls { IsTrue (K.state result.0).tells → IsTrue (K.state desk).tells }
{
    answer(alloc, desk, board, request)
}
