//! How a command on a board ends: by what it says last.
ghost use Rattle.std.specs.Prelude.{◌≡◌, ◌≢◌, ◌⊎◌, ℕ, List, IfOk, IsErr};
ghost use Rattle.tf_desk.specs.State.{told_as, Says};
ghost use Rattle.tf_journal.specs.declared.faults.LoadFault.{LoadFault as ALoadFault};
ghost use Rattle.tf_board.specs.Board.{IsUnopened};
ghost use Rattle.tf_board.specs.Does.{Reached, Ends, EndsUnmade, EndsUnopened, Concludes};
ghost use Rattle.tf_board.specs.declared.commands.Command.{Command};
ghost use Rattle.tf_report.specs.Closing.{ClosesWith};
ghost use Rattle.tf_report.specs.declared.statuses.TheConstants.{UNHIRED, UNREAD};

use crate::messages::not_a_book_text;
use std::alloc::Global;
use tf_desk::Desk;
use tf_journal::LoadFault;
use tf_report::{DISK_FAILED, DISK_FAULT, NO_BOOK, OUT_OF_MEMORY, UNSAID, close};
use tf_values::Memory;

/// Says a message, with which the command is over, and answers the desk and the status: the one that belongs to the
/// message, or that of a failed output.
pub fn end_with<K: Desk>(mut desk: K, message: &[u8], status: u8) -> (K, u8)
    requires apart { status ≢ UNSAID }
    ensures closes { ClosesWith (K.state desk).shown message.now status (K.state result.0).shown result.1 }
    ensures says { Says message.now (K.state desk) (K.state result.0) }
    ensures reached { (name : List ℕ) (past pending after : List Command) (entry seen : K)
        → Reached name past pending after (told_as (K.state seen) (K.state entry)) (K.state desk)
        → Ends name past pending after (told_as (K.state seen) (K.state entry)) (K.state result.0)
        message.now status result.1 }
    ensures unopened { (name : List ℕ) (fault : ALoadFault) (entry seen : K)
        → IsUnopened name fault (told_as (K.state seen) (K.state entry)) (K.state desk)
        → EndsUnmade name (told_as (K.state seen) (K.state entry)) (K.state result.0) message.now status result.1 }
    ensures concludes { Concludes (K.state desk) (K.state result.0) result.1 }
    ensures status { result.1 ≢ UNSAID → result.1 ≡ status }
{
    let status = close(message, status, &mut desk);
    (desk, status)
}

/// Says a text, with which the command is over, unless memory ran out for it: then nothing is said.
pub fn end_with_text<K: Desk>(desk: K, text: Result<Vec<u8>, Memory>, status: u8) -> (K, u8)
    requires apart { status ≢ UNSAID }
    ensures reached { (message : List ℕ) → IfOk text (λ t. t.items ≡ message)
        → (name : List ℕ) (past pending after : List Command) (entry seen : K)
        → Reached name past pending after (told_as (K.state seen) (K.state entry)) (K.state desk)
        → Ends name past pending after (told_as (K.state seen) (K.state entry)) (K.state result.0)
        message status result.1 }
    ensures unopened { (message : List ℕ) → IfOk text (λ t. t.items ≡ message)
        → (name : List ℕ) (fault : ALoadFault) (entry seen : K)
        → IsUnopened name fault (told_as (K.state seen) (K.state entry)) (K.state desk)
        → EndsUnmade name (told_as (K.state seen) (K.state entry)) (K.state result.0) message status result.1 }
    ensures stopped { IsErr text → result.1 ≡ OUT_OF_MEMORY }
    ensures concludes { Concludes (K.state desk) (K.state result.0) result.1 }
    ensures status { result.1 ≢ UNSAID → (result.1 ≡ status) ⊎ (result.1 ≡ OUT_OF_MEMORY) }
{
    match text {
        Ok(text) => end_with(desk, &text, status),
        Err(_) => (desk, OUT_OF_MEMORY),
    }
}

/// Says why a board couldn't be opened, unless memory ran out.
pub fn end_unopened<K: Desk>(alloc: Global, desk: K, fault: LoadFault) -> (K, u8)
    requires new_format { fault ≢ LoadFault.Old }
    ensures ends { (name : List ℕ) (entry seen : K)
        → IsUnopened name fault (told_as (K.state seen) (K.state entry)) (K.state desk)
        → EndsUnopened name (told_as (K.state seen) (K.state entry)) (K.state result.0) result.1 }
    ensures concludes { Concludes (K.state desk) (K.state result.0) result.1 }
    ensures failed { result.1 ≡ DISK_FAILED → fault ≡ LoadFault.Disk }
    ensures apart { (result.1 ≢ UNREAD) × (result.1 ≢ UNHIRED) }
{
    match fault {
        LoadFault::Disk => end_with(desk, DISK_FAULT, DISK_FAILED),
        LoadFault::NotABook { offset, byte } => {
            let text = not_a_book_text(alloc, offset, byte);
            end_with_text(desk, text, NO_BOOK)
        }
        LoadFault::Memory => (desk, OUT_OF_MEMORY),
        LoadFault::Old => unreachable!(),
    }
}
