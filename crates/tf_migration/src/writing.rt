//! How a book of several flows is made of bodies, whole or not at all.
ghost use Rattle.std.specs.Prelude.{◌≡◌, ℕ, List, [], true, IsTrue, IfErr, OnOk};
ghost use Rattle.tf_desk.specs.State.{bytes_now, told_as, Trusts, GoesOn};
ghost use Rattle.tf_journal.specs.Format.{is_unborn, LeavesUnborn, StaysUnborn};
ghost use Rattle.tf_journal.specs.declared.title.Title.TheVariants.{Book2 as new_title};
ghost use Rattle.tf_migration.specs.Writing.{LeavesOnce, IsLeftSo, IsDraftOf, FailsToAdd, left_added, desk_written, left_written, unmade_by, FailsToWrite, Makes, IsPicked};

use crate::bodies::Body;
use std::alloc::Global;
use tf_desk::{Desk, DeskFault};
use tf_journal::{AppendFault, Journal, JournalFault, Title};
use tf_values::Text;

/// Why a book wasn't made: the disk failed, there is a file already, the journal is full, of that size where `need`
/// bytes more were asked for, or memory ran out.
#[derive(Clone, Copy, Debug, PartialEq, Eq)]
pub enum NewFault {
    Disk,
    Exists,
    Full { size: u64, need: u64 },
    Memory,
}

/// Adds bodies to a draft without one, whose file stays unborn.
fn add_all<K: Desk>(journal: &mut Journal<K>, bodies: &[Body]) -> Result<(), AppendFault>
    requires empty { IsDraftOf K.state [] journal.old }
    ensures added { OnOk result (IsDraftOf K.state bodies.now journal.new) }
    ensures goes { GoesOn (LeavesUnborn new_title (K.state journal.old.desk).shown)
        (K.state journal.old.desk) (K.state journal.new.desk) }
    ensures fails { IfErr result (λ fault. FailsToAdd bodies.now fault
        (K.state journal.old.desk) (K.state journal.new.desk)) }
    ensures unborn { IfErr result (λ fault. IsTrue (K.state journal.old.desk).tells
        → StaysUnborn new_title (K.state journal.new.desk)) }
{
    for body in bodies {
        journal.append(body.bytes())?;
    }
    Ok(())
}

/// Adds bodies to a draft without one, and publishes it.
fn fill<K: Desk>(journal: &mut Journal<K>, bodies: &[Body]) -> Result<(), AppendFault>
    requires empty { IsDraftOf K.state [] journal.old }
    ensures goes { GoesOn (LeavesOnce (left_added result) bodies.now (K.state journal.old.desk).shown)
        (K.state journal.old.desk) (K.state journal.new.desk) }
    ensures left { IsTrue (K.state journal.old.desk).tells
        → IsLeftSo (left_added result) bodies.now (K.state journal.new.desk) }
    ensures fails { IfErr result (λ fault. FailsToAdd bodies.now fault
        (K.state journal.old.desk) (K.state journal.new.desk)) }
{
    add_all(journal, bodies)?;
    journal.publish()
}

/// Why a book wasn't made whose bodies weren't added or published.
fn unmade(fault: AppendFault) -> NewFault
    ensures { result ≡ unmade_by fault }
{
    match fault {
        AppendFault::Disk | AppendFault::Halted => NewFault::Disk,
        AppendFault::Full { size, need } => NewFault::Full { size, need },
    }
}

/// Makes a book with these bodies in the picked file, which has to be unborn.
fn write<K: Desk>(alloc: Global, desk: K, bodies: &[Body]) -> Result<K, (K, NewFault)>
    requires unborn { IsTrue (K.state desk).tells → is_unborn new_title (bytes_now (K.state desk)) ≡ true }
    requires stays { IsTrue (K.state desk).tells → StaysUnborn new_title (K.state desk) }
    ensures goes { Trusts (GoesOn (LeavesOnce (left_written result) bodies.now (K.state desk).shown))
        (K.state desk) (K.state (desk_written result)) }
    ensures left { IsTrue (K.state (desk_written result)).tells
        → IsLeftSo (left_written result) bodies.now (K.state (desk_written result)) }
    ensures fails { IfErr result (λ back. FailsToWrite bodies.now back.1 (K.state desk) (K.state back.0)) }
    ensures untouched { IfErr result (λ back. back.1 ≡ NewFault.Memory → back.0 ≡ desk) }
{
    let mut journal = match Journal::draft(alloc, desk, Title::Book2) {
        Ok(journal) => journal,
        Err((desk, JournalFault::Disk)) => return Err((desk, NewFault::Disk)),
        Err((desk, _)) => return Err((desk, NewFault::Memory)),
    };
    match fill(&mut journal, bodies) {
        Ok(()) => Ok(journal.into_desk()),
        Err(fault) => Err((journal.into_desk(), unmade(fault))),
    }
}

/// Makes a book with these bodies in the picked file, if it is unborn.
fn create<K: Desk>(alloc: Global, desk: K, bodies: &[Body]) -> Result<K, (K, NewFault)>
    ensures makes { (name : List ℕ) (entry seen : K) → IsPicked name (told_as (K.state seen) (K.state entry))
        (K.state desk)
        → Makes K.state name bodies.now (told_as (K.state (desk_written result)) (K.state entry)) result }
    ensures falls { IsTrue (K.state (desk_written result)).tells → IsTrue (K.state desk).tells }
{
    match Journal::load(alloc, desk, Title::Book2) {
        Ok(journal) => Err((journal.into_desk(), NewFault::Exists)),
        Err((desk, fault)) => match fault {
            JournalFault::Unborn => write(alloc, desk, bodies),
            JournalFault::Disk => Err((desk, NewFault::Disk)),
            JournalFault::Memory => Err((desk, NewFault::Memory)),
            JournalFault::NotABook { .. } | JournalFault::Old => Err((desk, NewFault::Exists)),
        },
    }
}

/// Picks the file of that name, and makes a book with these bodies in it, if it is unborn; else it is as it was. The
/// file stays unborn until the last write, with which all the bodies are there at once: a crash since its first sync
/// leaves it unborn or the book whole. `Disk` comes only where the count of disk faults rose, `Exists` only where the
/// file isn't unborn, and `Full` by the numbers of the first body that doesn't fit.
pub fn make_book<K: Desk>(
    alloc: Global,
    mut desk: K,
    name: &Text,
    bodies: &[Body],
) -> Result<K, (K, NewFault)>
    ensures makes { Makes K.state name.now bodies.now (told_as (K.state (desk_written result)) (K.state desk)) result }
    ensures falls { IsTrue (K.state (desk_written result)).tells → IsTrue (K.state desk).tells }
{
    match desk.pick(alloc, name) {
        Ok(()) => create(alloc, desk, bodies),
        Err(DeskFault::Disk) => Err((desk, NewFault::Disk)),
        Err(DeskFault::Memory) => Err((desk, NewFault::Memory)),
        Err(DeskFault::Out) => unreachable!(),
    }
}
