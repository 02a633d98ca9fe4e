//! How bodies are read through a journal, one after another.
ghost use Rattle.std.specs.Prelude.{◌≡◌, ◌≢◌, ◌<◌, ◌≤◌, ◌++◌, ℕ, List, false, IsTrue, length, OnOk, IfOk, IfErr, IsErrOf};
ghost use Rattle.tf_numbers.specs.Numbers.{Rises};
ghost use Rattle.tf_desk.specs.State.{bytes_now};
ghost use Rattle.tf_journal.specs.Format.{prefix_of};
ghost use Rattle.tf_journal.specs.Reading.{IsNext, IsNoRefusal, IsWindowOf, HasBodies, OnlyReads, RefusesPlace};

use crate::faults::{JournalFault, LoadFault};
use crate::journal::Journal;
use crate::scanning::SIZE_LIMIT;
use crate::window::Window;
use tf_desk::Desk;

/// Reads the body whose gate is at that place into the vector, in place of what it has, and answers whether there
/// is one before the journal's last gate. `NotABook` comes where the place is past 67,108,863, with that place and no
/// byte, or where the file has no record behind the open gate there, with the offset and the byte that show it, or
/// the file's end; `Disk` only where the count of disk faults rose; `Memory` where the vector didn't grow; `Old`
/// never. After each the journal and its file are as before, and the vector has any bytes. The window is one onto the
/// journal's file, and is so after each answer too: handed from call to call it saves reads of the disk, since one
/// serves all short bodies that lie in it.
pub fn next_body<K: Desk>(
    journal: &mut Journal<K>,
    window: &mut Window,
    place: u64,
    body: &mut Vec<u8>,
) -> Result<bool, LoadFault>
    requires low { 17 ≤ place }
    requires in_file { journal.old.volatile ≡ false }
    ensures found { IsWindowOf (K.state journal.old.desk) window.old
        → (before rest : List (List ℕ)) → IsTrue (K.state journal.new.desk).tells
        → HasBodies K.state journal.old (before ++ rest)
        → place ≡ length (prefix_of journal.old.title before)
        → IfOk result (λ found. IsNext found rest body.new.items) }
    ensures whole { IsWindowOf (K.state journal.old.desk) window.old
        → (before rest : List (List ℕ)) → IsTrue (K.state journal.new.desk).tells
        → HasBodies K.state journal.old (before ++ rest)
        → place ≡ length (prefix_of journal.old.title before)
        → IfErr result IsNoRefusal }
    ensures refuses { IsWindowOf (K.state journal.old.desk) window.old
        → IsTrue (K.state journal.new.desk).tells
        → IfErr result (λ fault. RefusesPlace fault journal.old.title (bytes_now (K.state journal.old.desk)) place) }
    ensures window { IsWindowOf (K.state journal.old.desk) window.old
        → IsWindowOf (K.state journal.new.desk) window.new }
    ensures never_old { IfErr result (λ fault. fault ≢ LoadFault.Old) }
    ensures within { OnOk result (place < 67108864) }
    ensures cause { IsErrOf result LoadFault.Disk
        → Rises (K.state journal.old.desk).disk_faults (K.state journal.new.desk).disk_faults }
    ensures reads { OnlyReads K.state journal.old journal.new }
{
    if place >= SIZE_LIMIT {
        return Err(LoadFault::NotABook {
            offset: place,
            byte: None,
        });
    }
    // The bodies end at the gate that the opening found, also where another program has added one since.
    if place + 1 >= journal.size() {
        return Ok(false);
    }
    match journal.body_through(window, place, body) {
        Ok(Some(_)) => Ok(true),
        Ok(None) => Ok(false),
        Err(JournalFault::Disk) => Err(LoadFault::Disk),
        Err(JournalFault::Memory) => Err(LoadFault::Memory),
        Err(JournalFault::NotABook { offset, byte }) => Err(LoadFault::NotABook { offset, byte }),
        Err(JournalFault::Unborn | JournalFault::Old) => unreachable!(),
    }
}
