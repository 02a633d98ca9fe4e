//! How one record is read.
ghost use Rattle.std.specs.Prelude.{◌≡◌, ◌≤◌, ◌<◌, ◌+◌, ◌^◌, ℕ, None, IsTrue, length, take, drop, OnOk, IfOk, IfErr};
ghost use Rattle.tf_desk.specs.State.{bytes_now, Trusts, Rests};
ghost use Rattle.tf_journal.specs.Answers.{RefusesRecord, GivesRecord, IsNoRefusal, FailsToRead};
ghost use Rattle.tf_journal.specs.Format.{record_at};
ghost use Rattle.tf_journal.specs.Reach.{IsWindow};

use crate::faults::JournalFault;
use crate::scanning::{Look, look_through};
use crate::title::Title;
use crate::window::Window;
use tf_desk::Desk;

/// Reads that many bytes of the file from that place on straight into the vector, in place of what it has. They were
/// seen to be there: where the file has fewer now, it is cut at their end.
fn read_straight<K: Desk>(
    desk: &mut K,
    at: u64,
    count: u64,
    into: &mut Vec<u8>,
) -> Result<(), JournalFault>
    requires { at < 2 ^ 63 }
    ensures bytes { OnOk result (IsTrue (K.state desk.new).tells → at + count ≤ length (bytes_now (K.state desk.old))
        → into.new.items ≡ take count (drop at (bytes_now (K.state desk.old)))) }
    ensures whole { IsTrue (K.state desk.new).tells → at + count ≤ length (bytes_now (K.state desk.old))
        → IfErr result IsNoRefusal }
    ensures rests { Trusts Rests (K.state desk.old) (K.state desk.new) }
    ensures fails { IfErr result (λ fault. FailsToRead fault (K.state desk.old) (K.state desk.new)) }
{
    into.clear();
    if into.resize(count as usize, 0).is_err() {
        return Err(JournalFault::Memory);
    }
    match desk.read(at, into) {
        Ok(read) if read as u64 == count => Ok(()),
        Ok(read) => Err(JournalFault::NotABook {
            offset: at + read as u64,
            byte: None,
        }),
        Err(_) => Err(JournalFault::Disk),
    }
}

/// Reads that many bytes of the file from that place on into the vector, in place of what it has: through the window,
/// or straight where they are more than a window has, or where the file is cut.
fn read_body<K: Desk>(
    desk: &mut K,
    window: &mut Window,
    at: u64,
    count: u64,
    into: &mut Vec<u8>,
) -> Result<(), JournalFault>
    requires { at + count < 2 ^ 63 }
    ensures bytes { OnOk result (IsTrue (K.state desk.new).tells → IsWindow (bytes_now (K.state desk.old)) window.old
        → at + count ≤ length (bytes_now (K.state desk.old))
        → into.new.items ≡ take count (drop at (bytes_now (K.state desk.old)))) }
    ensures whole { IsTrue (K.state desk.new).tells → at + count ≤ length (bytes_now (K.state desk.old))
        → IfErr result IsNoRefusal }
    ensures window { IsTrue (K.state desk.new).tells
        → IsWindow (bytes_now (K.state desk.old)) window.old → IsWindow (bytes_now (K.state desk.old)) window.new }
    ensures rests { Trusts Rests (K.state desk.old) (K.state desk.new) }
    ensures fails { IfErr result (λ fault. FailsToRead fault (K.state desk.old) (K.state desk.new)) }
{
    let Ok(()) = window.reach(desk, at, count) else {
        return Err(JournalFault::Disk);
    };
    match window.copy(at, count, into) {
        Ok(true) => Ok(()),
        Ok(false) => read_straight(desk, at, count, into),
        Err(_) => Err(JournalFault::Memory),
    }
}

/// Reads the record of a journal of that title whose gate is at that place into the vector, through the window, and
/// answers the next gate's place.
pub fn read_record<K: Desk>(
    desk: &mut K,
    window: &mut Window,
    title: Title,
    place: u64,
    into: &mut Vec<u8>,
) -> Result<Option<u64>, JournalFault>
    requires { place < 67108864 }
    ensures gives { IsTrue (K.state desk.new).tells → IsWindow (bytes_now (K.state desk.old)) window.old
        → IfOk result
        (λ next. GivesRecord next into.old.items into.new.items
        (record_at title (bytes_now (K.state desk.old)) place)) }
    ensures refuses { IsTrue (K.state desk.new).tells → IsWindow (bytes_now (K.state desk.old)) window.old
        → IfErr result (λ fault. RefusesRecord fault (record_at title (bytes_now (K.state desk.old)) place)) }
    ensures window { IsTrue (K.state desk.new).tells
        → IsWindow (bytes_now (K.state desk.old)) window.old → IsWindow (bytes_now (K.state desk.old)) window.new }
    ensures rests { Trusts Rests (K.state desk.old) (K.state desk.new) }
    ensures fails { IfErr result (λ fault. FailsToRead fault (K.state desk.old) (K.state desk.new)) }
{
    match look_through(desk, window, place, title) {
        Ok(Look::Closed) => Ok(None),
        Ok(Look::Bad { offset, byte }) => Err(JournalFault::NotABook { offset, byte }),
        Ok(Look::Body { length }) => {
            read_body(desk, window, place + 5, length, into)?;
            Ok(Some(place + 5 + length))
        }
        Err(_) => Err(JournalFault::Disk),
    }
}
