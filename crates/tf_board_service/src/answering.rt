// How a request is answered from a shared board.
ghost use Rattle.std.specs.Prelude.{◌≡◌, ◌≢◌, ◌<◌, ◌≤◌, ◌+◌, ◌++◌, ◌∷◌, List, [], IfOk, length, map, take};
ghost use Rattle.tf_board.specs.Does.{call_text, fault_text};
ghost use Rattle.tf_board.specs.Board.{owner_of, listed};
ghost use Rattle.tf_shared_board.specs.Shared.{IsRule};
ghost use Rattle.tf_shared_board.specs.declared.calls.Made.{Made};
ghost use Rattle.tf_board_service.specs.Sessions.{Answers, CallsSo, OrHalts, says, owner_reply, first_lines, list_line, without_name};

use crate::lines::{line_text, message_text};
use crate::replies::BoardReply;
use std::alloc::Global;
use tf_board::{
    Board, BoardFault, BoardRequest, JobCall, Owner, call_line, fault_line, id_text, kept_line,
};
use tf_desk::Desk;
use tf_report::{JobLine, jobs};
use tf_shared_board::{CallFault, SharedBoard};
use tf_values::{Memory, Text, Texts};
use uuid::Uuid;

/// The most lines of a reply.
const MOST_LINES: usize = 1_000;

/// A reply of one line.
fn one_line(alloc: Global, line: &[u8]) -> Result<BoardReply, Memory>
    ensures { IfOk result (λ reply. reply ≡ says line.now) }
{
    let text = line_text(alloc, line)?;
    let mut lines = Vec::new(alloc);
    lines.push(text)?;
    Ok(BoardReply::Lines(Texts::make(lines)))
}

/// The reply to the last call of a shared board, which was made about the job of this number.
fn made_reply<K: Desk>(
    alloc: Global,
    shared: &SharedBoard<K>,
    job: u64,
) -> Result<BoardReply, Memory>
    requires some { shared.now.made ≢ [] }
    ensures { (before : List Made) (m : Made) → shared.now.made ≡ before ++ m ∷ []
        → IfOk result (λ reply. reply ≡ says (call_text m.call job)) }
{
    let Some(made) = shared.made().last() else {
        unreachable!()
    };
    let line = call_line(alloc, &made.call, job)?;
    one_line(alloc, &line)
}

/// The reply to a request that is refused.
fn refusal(alloc: Global, fault: BoardFault) -> Result<BoardReply, Memory>
    requires rule { IsRule fault }
    ensures { IfOk result (λ reply. reply ≡ BoardReply.Refused (without_name (fault_text fault))) }
{
    let message = fault_line(alloc, fault)?;
    Ok(BoardReply::Refused(message_text(alloc, &message)?))
}

/// Who has the job of an id.
fn owner_reply_of<K: Desk>(alloc: Global, board: &Board<K>, id: &Uuid) -> Result<BoardReply, Memory>
    ensures { IfOk result (λ reply. reply ≡ owner_reply (owner_of board.now.past id.now) id.now) }
{
    let owner = match board.owner(id) {
        Owner::NoJob => return refusal(alloc, BoardFault::NoJob(id_text(alloc, id)?)),
        Owner::Gone => return refusal(alloc, BoardFault::Gone(id_text(alloc, id)?)),
        Owner::Free => None,
        Owner::Of(owner) => Some(owner),
    };
    let line = kept_line(alloc, owner)?;
    one_line(alloc, &line)
}

/// The text of the line of the job that is listed at this place.
#[tactic(auto, using(crate::proofs::AnswerLemmas::line_more))]
fn job_text(alloc: Global, list: &[JobLine], at: usize) -> Result<Text, Memory>
    requires below { at < length list.now }
    ensures { IfOk result (λ text. map list_line (take (at + 1) list.now)
        ≡ map list_line (take at list.now) ++ text ∷ []) }
{
    let mut line = Vec::new(alloc);
    jobs(&list[at..at + 1], &mut line)?;
    line_text(alloc, &line)
}

/// How many lines of a list with so many jobs a reply has.
fn line_count(jobs: usize) -> usize
    ensures few { (result ≤ 1000) × (result ≤ jobs) }
    ensures ends { result < 1000 → jobs ≤ result }
{
    if jobs < MOST_LINES {
        return jobs;
    }
    MOST_LINES
}

/// The first lines of the list.
#[tactic(auto, using(crate::proofs::AnswerLemmas::first_are))]
fn list_reply<K: Desk>(alloc: Global, board: &Board<K>) -> Result<BoardReply, Memory>
    ensures { IfOk result (λ reply. reply ≡ BoardReply.Lines (first_lines (listed board.now.past))) }
{
    let list = board.list()?;
    let mut lines = Vec::new(alloc);
    let count = line_count(list.len());
    for at in 0..count {
        let text = job_text(alloc, &list, at)?;
        lines.push(text)?;
    }
    Ok(BoardReply::Lines(Texts::make(lines)))
}

/// Makes a call under a number, and answers what is to be replied; none where the shared board is halted or memory ran
/// out.
fn call_reply<K: Desk>(
    alloc: Global,
    shared: &mut SharedBoard<K>,
    number: u8,
    call: JobCall,
) -> Result<BoardReply, Memory>
    ensures { CallsSo K.state number call shared.old shared.new result }
{
    match shared.call(number, call) {
        Ok(job) => made_reply(alloc, shared, job),
        Err(CallFault::Rule(fault)) => refusal(alloc, fault),
        Err(CallFault::Halted(_)) => Err(Memory),
    }
}

/// The reply. None for want of memory, which halts the shared board.
fn or_halt<K: Desk>(
    shared: &mut SharedBoard<K>,
    reply: Result<BoardReply, Memory>,
) -> Option<BoardReply>
    ensures { OrHalts reply shared.old shared.new result }
{
    match reply {
        Ok(reply) => Some(reply),
        Err(_) => {
            shared.halt_for_memory();
            None
        }
    }
}

/// Answers a request under a number. None where the shared board is halted, before or by the request, or for want of
/// memory for the reply.
pub(crate) fn answer<K: Desk>(
    alloc: Global,
    shared: &mut SharedBoard<K>,
    number: u8,
    request: BoardRequest,
) -> Option<BoardReply>
    ensures { Answers K.state number request shared.old shared.new result }
{
    if shared.halted().is_some() {
        return None;
    }
    match request {
        BoardRequest::Call(call) => {
            let reply = call_reply(alloc, shared, number, call);
            or_halt(shared, reply)
        }
        BoardRequest::Owner { id } => {
            let reply = owner_reply_of(alloc, shared.board(), &id);
            or_halt(shared, reply)
        }
        BoardRequest::List => {
            let reply = list_reply(alloc, shared.board());
            or_halt(shared, reply)
        }
    }
}
