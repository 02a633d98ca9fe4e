//! How a journal is read back.
ghost use Rattle.std.specs.Prelude.{◌≡◌, ◌≢◌, ◌<◌, ◌+◌, [], false, OnOk, IfErr, slice_get};
ghost use Rattle.tf_journal.specs.Reading.{OnlyReads};
ghost use Rattle.tf_records.specs.Replaying.{HasReadAll, FailsToReadBack};

use crate::replaying::Replay;
use std::alloc::Global;
use tf_desk::Desk;
use tf_journal::{Journal, LoadFault, next_body};
use tf_values::MakeFault;

/// The place of the first gate.
const FIRST_PLACE: u64 = 17;

/// Why a body is refused whose gate is at that place.
fn refusal(fault: MakeFault, place: u64, body: &[u8]) -> LoadFault
    requires { place < 67108864 }
    ensures no { fault ≡ MakeFault.No → result ≡ LoadFault.NotABook (place + 5) (slice_get body.now 0) }
    ensures memory { fault ≡ MakeFault.Memory → result ≡ LoadFault.Memory }
    ensures no_disk { result ≡ LoadFault.Disk → ⊥ }
    ensures new_format { result ≢ LoadFault.Old }
{
    match fault {
        MakeFault::No => LoadFault::NotABook {
            offset: place + 5,
            byte: body.first().copied(),
        },
        MakeFault::Memory => LoadFault::Memory,
    }
}

/// Reads the bodies of a journal, from the first to the last, and replays each into the value, into which none was
/// replayed before. Where the desk tells its content and the file lies as bodies, `NotABook` comes only where one of
/// them is refused after those before it, with the offset and the value of its first byte; where it tells nothing,
/// also where a record is missing or spoilt, and at the place where the bodies end before the journal's last gate.
/// `Disk` comes only where the count of disk faults rose, `Memory` for want of memory, and `Old` never. After each the
/// journal and its file are as before, and nothing is said of the value. The bodies are read through one window onto
/// the file, so that a read of the disk serves all short ones that lie in it.
pub fn read_back<K: Desk, R: Replay>(
    alloc: Global,
    journal: &mut Journal<K>,
    into: &mut R,
) -> Result<(), LoadFault>
    requires in_file { journal.old.volatile ≡ false }
    requires none { R.replayed into.old [] }
    ensures read { OnOk result (HasReadAll K.state R.replayed journal.old journal.new.desk into.new) }
    ensures fixed { OnOk result (R.fixed into.new ≡ R.fixed into.old) }
    ensures fails { IfErr result (λ fault. FailsToReadBack K.state R.refuses fault journal.old journal.new.desk) }
    ensures reads { OnlyReads K.state journal.old journal.new }
{
    let Ok(mut window) = journal.window() else {
        return Err(LoadFault::Disk);
    };
    let mut body = Vec::new(alloc);
    let mut place = FIRST_PLACE;
    'reading: loop {
        if !next_body(journal, &mut window, place, &mut body)? {
            break 'reading;
        }
        match into.replay(alloc, &body) {
            Ok(()) => place += 5 + body.len() as u64,
            Err(fault) => return Err(refusal(fault, place, &body)),
        }
    }
    if place + 1 != journal.size() {
        return Err(LoadFault::NotABook {
            offset: place,
            byte: None,
        });
    }
    Ok(())
}
