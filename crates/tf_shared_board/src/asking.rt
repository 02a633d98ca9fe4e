// A call of a shared board, as it is asked of the board itself.
ghost use Rattle.std.specs.Prelude.{◌≢◌};
ghost use Rattle.tf_board.specs.Board.{refuses_id};
ghost use Rattle.tf_board.specs.Does.{number_of, applied};
ghost use Rattle.tf_shared_board.specs.Shared.{AsksFor, Asks, Sorts};

use crate::calls::BoardHalt;
use std::alloc::Global;
use tf_board::{Board, BoardFault, JobAction, JobCall};
use tf_desk::Desk;
use tf_states::Priority;
use tf_values::{Name, Val};
use uuid::Uuid;

/// Posts a job, and answers its number.
fn post<K: Desk>(
    alloc: Global,
    board: &mut Board<K>,
    name: &Name,
    priority: Priority,
    details: &Val,
) -> Result<u64, BoardFault>
    ensures { Asks K.state (JobCall.Post name.now priority details.now) board.old board.new result }
{
    let Ok(details) = details.copy(alloc) else {
        return Err(BoardFault::Memory);
    };
    board.post(*name, priority, details)
}

/// Does that with the job that the id names, and answers its number.
fn act<K: Desk>(
    board: &mut Board<K>,
    action: JobAction,
    id: &Uuid,
    owner: &Name,
) -> Result<u64, BoardFault>
    ensures { AsksFor K.state (refuses_id board.old.past action id.now owner.now) id.now
        (number_of board.old.past id.now) (applied board.old.past action id.now owner.now) board.old board.new result }
{
    let number = board.number_of(id);
    match board.act_on(number, action, id, owner) {
        Ok(()) => Ok(number.unwrap_or(0)),
        Err(fault) => Err(fault),
    }
}

/// Makes the call, and answers the number of its job.
pub(crate) fn ask<K: Desk>(
    alloc: Global,
    board: &mut Board<K>,
    call: &JobCall,
) -> Result<u64, BoardFault>
    ensures { Asks K.state call.now board.old board.new result }
{
    match call {
        JobCall::Post {
            name,
            priority,
            details,
        } => post(alloc, board, name, *priority, details),
        JobCall::Apply { action, id, owner } => act(board, *action, id, owner),
    }
}

/// The fault by which a call is refused, or else why the board doesn't go on.
pub(crate) fn sort(fault: BoardFault) -> Result<BoardFault, BoardHalt>
    requires { fault ≢ BoardFault.Halted }
    ensures { Sorts fault result }
{
    match fault {
        BoardFault::Disk => Err(BoardHalt::Disk),
        BoardFault::Full { size, need } => Err(BoardHalt::Full { size, need }),
        BoardFault::Memory => Err(BoardHalt::Memory),
        BoardFault::Halted => unreachable!(),
        BoardFault::NoJob(_)
        | BoardFault::Gone(_)
        | BoardFault::Claimed(_)
        | BoardFault::NotOwner(_) => Ok(fault),
    }
}
