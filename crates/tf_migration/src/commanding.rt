//! A whole migration.
ghost use Rattle.std.specs.Prelude.{◌≡◌, ◌≢◌, ◌⊎◌, ℕ, List, IsTrue, IfOk};
ghost use Rattle.tf_numbers.specs.Numbers.{Rises};
ghost use Rattle.tf_desk.specs.State.{told_as};
ghost use Rattle.tf_journal.specs.Format.{unborn};
ghost use Rattle.tf_migration.specs.Migrates.{Migrates, HasCauses, Concludes, IsBookOfFlow, IsComplete, old_at, new_at};
ghost use Rattle.tf_migration.specs.Reading.{IsUnread, IsRead};
ghost use Rattle.tf_migration.specs.Writing.{FailsToMake};

use crate::bodies::Body;
use crate::messages::{EXISTS, NO_FLOW, book_full_text, migrated_text, not_a_book_text};
use crate::reading::{OldFault, read_flow};
use crate::writing::{NewFault, make_book};
use std::alloc::Global;
use tf_desk::Desk;
use tf_report::{
    DISK_FAILED, DISK_FAULT, FORBIDDEN, FULL, NO_BOOK, OUT_OF_MEMORY, SUCCEEDED, UNSAID, close,
};
use tf_values::{Memory, Text};

/// Says a message, with which the command is over.
fn say<K: Desk>(mut desk: K, message: &[u8], status: u8) -> (K, u8)
    requires apart { status ≢ UNSAID }
    ensures concludes { Concludes message.now status (K.state desk) (K.state result.0) result.1 }
    ensures status { (result.1 ≡ status) ⊎ (result.1 ≡ UNSAID) }
{
    let status = close(message, status, &mut desk);
    (desk, status)
}

/// Says a text, with which the command is over, unless memory ran out for it.
fn say_text<K: Desk>(desk: K, text: Result<Vec<u8>, Memory>, status: u8) -> (K, u8)
    requires apart { status ≢ UNSAID }
    ensures { (message : List ℕ) → IfOk text (λ t. t.items ≡ message)
        → Concludes message status (K.state desk) (K.state result.0) result.1 }
{
    match text {
        Ok(text) => say(desk, &text, status),
        Err(_) => (desk, OUT_OF_MEMORY),
    }
}

/// Says why the old book gave no flow, unless memory ran out.
fn refuse_old<K: Desk>(alloc: Global, desk: K, fault: OldFault) -> (K, u8)
    ensures migrates { (old new : List ℕ) (entry seen : K) → IsUnread old fault
        (told_as (K.state seen) (K.state entry)) (K.state desk)
        → Migrates old new (told_as (K.state seen) (K.state entry)) (K.state result.0) result.1 }
    ensures causes { (old : List ℕ) (entry seen : K) → IsUnread old fault (told_as (K.state seen) (K.state entry))
        (K.state desk)
        → HasCauses (told_as (K.state seen) (K.state entry)) (K.state result.0) result.1 }
    ensures tells { (K.state result.0).tells ≡ (K.state desk).tells }
{
    match fault {
        OldFault::Disk => say(desk, DISK_FAULT, DISK_FAILED),
        OldFault::NotABook { offset, byte } => {
            let text = not_a_book_text(alloc, offset, byte);
            say_text(desk, text, NO_BOOK)
        }
        OldFault::NoFlow => say(desk, NO_FLOW, FORBIDDEN),
        OldFault::Memory => (desk, OUT_OF_MEMORY),
    }
}

/// Says why the new book wasn't made, unless memory ran out.
fn refuse_new<K: Desk>(alloc: Global, desk: K, fault: NewFault) -> (K, u8)
    ensures migrates { (old new : List ℕ) (kept : List (List ℕ)) (entry mid seen : K)
        → IsRead old kept (told_as (K.state seen) (K.state entry)) (told_as (K.state seen) (K.state mid))
        → FailsToMake new kept fault (told_as (K.state seen) (K.state mid)) (K.state desk)
        → Migrates old new (told_as (K.state seen) (K.state entry)) (K.state result.0) result.1 }
    ensures causes { (old new : List ℕ) (kept : List (List ℕ)) (entry mid seen : K)
        → IsRead old kept (told_as (K.state seen) (K.state entry)) (told_as (K.state seen) (K.state mid))
        → FailsToMake new kept fault (told_as (K.state seen) (K.state mid)) (K.state desk)
        → HasCauses (told_as (K.state seen) (K.state entry)) (K.state result.0) result.1 }
    ensures tells { (K.state result.0).tells ≡ (K.state desk).tells }
{
    match fault {
        NewFault::Disk => say(desk, DISK_FAULT, DISK_FAILED),
        NewFault::Exists => say(desk, EXISTS, FORBIDDEN),
        NewFault::Full { size, need } => {
            let text = book_full_text(alloc, size, need);
            say_text(desk, text, FULL)
        }
        NewFault::Memory => (desk, OUT_OF_MEMORY),
    }
}

/// Makes the new book of the bodies of a flow that was read, and says how many entries it has. The message is made
/// first: where memory runs out for it, nothing was written.
fn carry_over<K: Desk>(alloc: Global, desk: K, new: &Text, bodies: &[Body]) -> (K, u8)
    ensures migrates { (old : List ℕ) (entry seen : K) → IsRead old bodies.now
        (told_as (K.state seen) (K.state entry)) (K.state desk)
        → Migrates old new.now (told_as (K.state result.0) (K.state entry)) (K.state result.0) result.1 }
    ensures causes { (old : List ℕ) (entry seen : K) → IsRead old bodies.now (told_as (K.state seen) (K.state entry))
        (K.state desk)
        → HasCauses (told_as (K.state result.0) (K.state entry)) (K.state result.0) result.1 }
    ensures falls { IsTrue (K.state result.0).tells → IsTrue (K.state desk).tells }
{
    let entries = bodies.len().saturating_sub(1) as u64;
    let Ok(text) = migrated_text(alloc, entries) else {
        return (desk, OUT_OF_MEMORY);
    };
    match make_book(alloc, desk, new, bodies) {
        Ok(desk) => say(desk, &text, SUCCEEDED),
        Err((desk, fault)) => refuse_new(alloc, desk, fault),
    }
}

/// Carries the flow of the old book over into a new one, which is a book of several flows: its detail 0 has the plan
/// and each entry of the history. The old book is picked first and read; it is never written. Then the new one is picked;
/// where its file isn't unborn it stays too. Else it is drafted, filled and published: a crash since its first sync
/// leaves it unborn, or with all that was carried over, and with status 0 so does every later crash.
pub fn migrate_command<K: Desk>(alloc: Global, old: &Text, new: &Text, desk: K) -> (K, u8)
    ensures migrates { Migrates old.now new.now (told_as (K.state result.0) (K.state desk)) (K.state result.0)
        result.1 }
    ensures causes { HasCauses (told_as (K.state result.0) (K.state desk)) (K.state result.0) result.1 }
    ensures falls { IsTrue (K.state result.0).tells → IsTrue (K.state desk).tells }
    ensures complete { IsTrue (K.state result.0).tells → IsBookOfFlow (old_at (K.state desk) old.now)
        → new_at (K.state desk) new.now ≡ unborn
        → ¬ (Rises (K.state desk).disk_faults (K.state result.0).disk_faults)
        → ¬ (Rises (K.state desk).out_faults (K.state result.0).out_faults)
        → IsComplete result.1 }
{
    match read_flow(alloc, desk, old) {
        Ok((desk, bodies)) => carry_over(alloc, desk, new, &bodies),
        Err((desk, fault)) => refuse_old(alloc, desk, fault),
    }
}
