//! How the flow of the file of a name is read, to be carried over.
ghost use Rattle.std.specs.Prelude.{◌≡◌, ◌≢◌, ℕ, List, false, IsTrue, IfOk, IfErr};
ghost use Rattle.tf_numbers.specs.Numbers.{Rises};
ghost use Rattle.tf_desk.specs.State.{bytes_now, Trusts, Rests};
ghost use Rattle.tf_journal.specs.Answers.{RefusesFile};
ghost use Rattle.tf_journal.specs.Format.{HasSynced, IsSynced, Recovered, bodies as held_bodies};
ghost use Rattle.tf_journal.specs.Reading.{HasBodies};
ghost use Rattle.tf_journal.specs.declared.faults.JournalFault.{JournalFault as AJournalFault};
ghost use Rattle.tf_journal.specs.declared.faults.LoadFault.{LoadFault as ALoadFault};
ghost use Rattle.tf_journal.specs.declared.title.Title.TheVariants.{Book as old_title};
ghost use Rattle.tf_records.specs.Refusing.{RefusesBodies};
ghost use Rattle.tf_migration.specs.Migrates.{old_in, CannotFollow};
ghost use Rattle.tf_migration.specs.Reading.{desk_read, HasReadAllOf, HasFlow, RefusesOld, IsUnread, IsRead};

use crate::bodies::Body;
use crate::flows::{Flow, OldBook};
use std::alloc::Global;
use tf_desk::{Desk, DeskFault};
use tf_journal::{Journal, JournalFault, LoadFault, Title};
use tf_records::read_back;
use tf_values::Text;

/// Why nothing was read to carry over: the disk failed, the file is no book, which the byte at that offset shows or
/// the file's end, it holds no flow, or memory ran out.
#[derive(Clone, Copy, Debug, PartialEq, Eq)]
pub enum OldFault {
    Disk,
    NotABook { offset: u64, byte: Option<u8> },
    NoFlow,
    Memory,
}

/// Why nothing is carried over from a journal whose bodies weren't read back.
fn unread(fault: LoadFault) -> OldFault
    requires new_format { fault ≢ ALoadFault.Old }
    ensures refused { (held : List (List ℕ)) → RefusesBodies old_title CannotFollow fault held
        → RefusesOld result (held_bodies held) }
    ensures disk { result ≡ OldFault.Disk → fault ≡ ALoadFault.Disk }
{
    match fault {
        LoadFault::Disk => OldFault::Disk,
        LoadFault::NotABook { offset, byte } => OldFault::NotABook { offset, byte },
        LoadFault::Memory => OldFault::Memory,
        LoadFault::Old => unreachable!(),
    }
}

/// Why nothing is carried over from a file that wasn't read as a journal.
fn unloaded(fault: JournalFault) -> OldFault
    requires new_format { fault ≢ AJournalFault.Old }
    ensures refused { (found : Recovered) → RefusesFile fault found → RefusesOld result found }
    ensures disk { result ≡ OldFault.Disk → fault ≡ AJournalFault.Disk }
{
    match fault {
        JournalFault::Disk => OldFault::Disk,
        JournalFault::NotABook { offset, byte } => OldFault::NotABook { offset, byte },
        JournalFault::Unborn => OldFault::NoFlow,
        JournalFault::Memory => OldFault::Memory,
        JournalFault::Old => unreachable!(),
    }
}

/// Reads the bodies of a journal that was loaded.
fn read<K: Desk>(alloc: Global, mut journal: Journal<K>) -> Result<(K, Vec<Body>), (K, OldFault)>
    requires in_file { journal.volatile ≡ false }
    requires title { journal.title ≡ old_title }
    ensures flow { IfOk result (λ found. HasReadAllOf K.state journal found.0 found.1.items) }
    ensures refused { IfErr result (λ back. IsTrue (K.state back.0).tells → (held : List (List ℕ))
        → HasBodies K.state journal held → RefusesOld back.1 (held_bodies held)) }
    ensures cause { IfErr result (λ back. back.1 ≡ OldFault.Disk
        → Rises (K.state journal.desk).disk_faults (K.state back.0).disk_faults) }
    ensures rests { Trusts Rests (K.state journal.desk) (K.state (desk_read result)) }
{
    let mut book = OldBook::Empty;
    match read_back(alloc, &mut journal, &mut book) {
        Ok(()) => match book {
            OldBook::Empty => Err((journal.into_desk(), OldFault::NoFlow)),
            OldBook::Of(flow) => {
                let Flow { details: _, bodies } = flow;
                Ok((journal.into_desk(), bodies))
            }
        },
        Err(fault) => {
            drop(book);
            Err((journal.into_desk(), unread(fault)))
        }
    }
}

/// Reads the flow of the picked file.
fn load<K: Desk>(alloc: Global, desk: K) -> Result<(K, Vec<Body>), (K, OldFault)>
    ensures flow { IfOk result (λ found. HasFlow (IsTrue (K.state found.0).tells)
        (old_in (bytes_now (K.state desk))) found.1.items) }
    ensures refused { IfErr result (λ back. IsTrue (K.state back.0).tells
        → RefusesOld back.1 (old_in (bytes_now (K.state desk)))) }
    ensures cause { IfErr result (λ back. back.1 ≡ OldFault.Disk
        → Rises (K.state desk).disk_faults (K.state back.0).disk_faults) }
    ensures rests { Trusts Rests (K.state desk) (K.state (desk_read result)) }
    ensures synced { IsTrue (K.state (desk_read result)).tells
        → IsSynced (K.state desk) (K.state (desk_read result)) }
    ensures at_sync { IfOk result (λ found. IsTrue (K.state found.0).tells
        → HasSynced (K.state desk) (K.state found.0)) }
{
    match Journal::load(alloc, desk, Title::Book) {
        Ok(journal) => read(alloc, journal),
        Err((desk, fault)) => Err((desk, unloaded(fault))),
    }
}

/// Picks the file of that name, and reads the flow that it holds as a book of one flow, body by body. No file is
/// written. `NotABook` comes only where the file is no journal of a book of one flow, or where one of its bodies can't
/// come after those before it; `NoFlow` only where the file is unborn or has no body; `Disk` only where the count of
/// disk faults rose.
pub fn read_flow<K: Desk>(
    alloc: Global,
    mut desk: K,
    name: &Text,
) -> Result<(K, Vec<Body>), (K, OldFault)>
    ensures read { IfOk result (λ found. Trusts (IsRead name.now found.1.items) (K.state desk) (K.state found.0)) }
    ensures unread { IfErr result (λ back. Trusts (IsUnread name.now back.1) (K.state desk) (K.state back.0)) }
{
    match desk.pick(alloc, name) {
        Ok(()) => load(alloc, desk),
        Err(DeskFault::Disk) => Err((desk, OldFault::Disk)),
        Err(DeskFault::Memory) => Err((desk, OldFault::Memory)),
        Err(DeskFault::Out) => unreachable!(),
    }
}
