// What is said of sessions.
ghost use Rattle.std.specs.Prelude.{◌≡◌, ◌++◌, IfOk, OnOk};
ghost use Rattle.tf_board_service.specs.Sessions.{end_word, service_text, session_line, session_lines};

use crate::sessions::{Session, SessionEnd};
use std::alloc::Global;
use tf_report::{append, append_counted};
use tf_shared_board::{BoardHalt, append_halt};
use tf_values::Memory;

/// What is said where sessions are over.
pub(crate) fn closing(
    alloc: Global,
    sessions: &[Session],
    halt: Option<BoardHalt>,
) -> Result<Vec<u8>, Memory>
    ensures { IfOk result (λ text. text.items ≡ service_text sessions.now halt) }
{
    let mut text = Vec::new(alloc);
    append_sessions(sessions, &mut text)?;
    append_halt(halt, &mut text)?;
    Ok(text)
}

/// Appends the lines of sessions.
fn append_sessions(sessions: &[Session], out: &mut Vec<u8>) -> Result<(), Memory>
    ensures { OnOk result (out.new.items ≡ out.old.items ++ session_lines 1 sessions.now) }
{
    let mut number: u64 = 1;
    for session in sessions {
        append_line(number, session.end, out)?;
        number += 1;
    }
    Ok(())
}

/// Appends the line of a session of this number.
#[tactic(auto, unfolding(crate::specs::Sessions::session_line))]
fn append_line(number: u64, end: SessionEnd, out: &mut Vec<u8>) -> Result<(), Memory>
    ensures { OnOk result (out.new.items ≡ out.old.items ++ session_line number end) }
{
    append_counted(b"session ", number, out)?;
    append_end(end, out)
}

/// Appends how a session ended.
fn append_end(end: SessionEnd, out: &mut Vec<u8>) -> Result<(), Memory>
    ensures { OnOk result (out.new.items ≡ out.old.items ++ end_word end) }
{
    match end {
        SessionEnd::Ended => append(b" ended\n", out),
        SessionEnd::Lost => append(b" lost\n", out),
        SessionEnd::Bad { at } => {
            append_counted(b" bad ", at, out)?;
            append(b"\n", out)
        }
        SessionEnd::Halted => append(b" halted\n", out),
    }
}
