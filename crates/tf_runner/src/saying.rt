//! What is said of the calls of conductors, and the end of their command.
ghost use Rattle.std.specs.Prelude.{◌≡◌, ◌≢◌, ℕ, List, Option, Some, IfOk};
ghost use Rattle.tf_desk.specs.State.{told_as};
ghost use Rattle.tf_board.specs.Does.{Concludes};
ghost use Rattle.tf_board.specs.declared.commands.Command.{Command};
ghost use Rattle.tf_report.specs.declared.statuses.TheConstants.{DISK_FAILED, UNHIRED, UNREAD, UNSAID};
ghost use Rattle.tf_shared_board.specs.declared.calls.BoardHalt.{BoardHalt as AHalt};
ghost use Rattle.tf_shared_board.specs.declared.calls.BoardHalt.TheVariants.{Disk as DiskHalt};
ghost use Rattle.tf_shared_board.specs.declared.calls.Made.{Made as AMade};
ghost use Rattle.tf_shared_board.specs.Shared.{IsShared, halt_status as status_of_halt};
ghost use Rattle.tf_runner.specs.Conducts.{EndsCalls, calls_text as calls_said, closing_text};
ghost use Rattle.tf_runner.specs.Working.{HasCalled};

use std::alloc::Global;
use tf_board::call_line;
use tf_conductor::Conducted;
use tf_desk::Desk;
use tf_report::{OUT_OF_MEMORY, append, close};
use tf_shared_board::{BoardHalt, Made, append_halt, halt_status};
use tf_values::Memory;

/// The lines of calls, in their order.
fn calls_text(alloc: Global, made: &[Made]) -> Result<Vec<u8>, Memory>
    ensures { IfOk result (λ text. text.items ≡ calls_said made.now) }
{
    let mut text = Vec::new(alloc);
    for call in made {
        append(&call_line(alloc, &call.call, call.job)?, &mut text)?;
    }
    Ok(text)
}

/// What is said where conductors are done, and the status.
fn closing(alloc: Global, made: &[Made], halt: Option<BoardHalt>) -> Result<(Vec<u8>, u8), Memory>
    ensures { IfOk result (λ said. (said.0.items ≡ closing_text made.now halt) × (said.1 ≡ status_of_halt halt)) }
{
    let mut text = calls_text(alloc, made)?;
    append_halt(halt, &mut text)?;
    Ok((text, halt_status(halt)))
}

/// Says a text, which may be empty, and answers the status: the one that belongs to it, or that of a failed output.
fn say_all<K: Desk>(mut desk: K, text: &[u8], status: u8) -> (K, u8)
    requires apart { status ≢ UNSAID }
    ensures ends { (name word : List ℕ) (count : ℕ) (past : List Command) (made : List AMade) (halted : Option AHalt)
        (entry seen : K) → text.now ≡ closing_text made halted → status ≡ status_of_halt halted
        → HasCalled name word count past made halted (told_as (K.state seen) (K.state entry)) (K.state desk)
        → EndsCalls name word count past made halted (told_as (K.state seen) (K.state entry))
        (K.state result.0) result.1 }
    ensures concludes { Concludes (K.state desk) (K.state result.0) result.1 }
    ensures status { result.1 ≢ UNSAID → result.1 ≡ status }
{
    if text.is_empty() {
        return (desk, status);
    }
    let status = close(text, status, &mut desk);
    (desk, status)
}

/// Says the lines of the calls that conductors made, and then why the board doesn't go on, if it doesn't.
pub(crate) fn conclude<K: Desk>(alloc: Global, ended: Conducted<K>) -> (K, u8)
    ensures ends { (name word : List ℕ) (count : ℕ) (past : List Command) (entry seen : K)
        → HasCalled name word count past ended.shared.made ended.halt (told_as (K.state seen) (K.state entry))
        (K.state ended.shared.board.journal.desk)
        → EndsCalls name word count past ended.shared.made ended.halt (told_as (K.state seen) (K.state entry))
        (K.state result.0) result.1 }
    ensures shared { IsShared K.state ended.shared }
    ensures concludes { Concludes (K.state ended.shared.board.journal.desk) (K.state result.0) result.1 }
    ensures failed { result.1 ≡ DISK_FAILED → ended.halt ≡ Some DiskHalt }
    ensures apart { (result.1 ≢ UNREAD) × (result.1 ≢ UNHIRED) }
{
    let Conducted { shared, halt } = ended;
    let said = closing(alloc, shared.made(), halt);
    let desk = shared.close().close();
    match said {
        Ok((text, status)) => say_all(desk, &text, status),
        Err(_) => (desk, OUT_OF_MEMORY),
    }
}
