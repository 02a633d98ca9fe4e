//! What a journal's file is, read a few bytes at a time.
ghost use Rattle.std.specs.Prelude.{◌≡◌, ◌≢◌, ◌<◌, ◌+◌, ◌*◌, ◌≤◌, List, ℕ, IsTrue, length, take, drop, IfOk, IfErr, OnOk, MatchResult, Err};
ghost use Rattle.tf_desk.specs.State.{bytes_now, IsDurable, Trusts, Rests, FailsOnDisk};
ghost use Rattle.tf_journal.specs.Answers.{RefusesFile, FailsToScan, IsScanned, EndsWithin, RefusesScan, RisesAtDisk};
ghost use Rattle.tf_journal.specs.Format.{bodies, body_limit, records_from, recovered, LiesAs, HasSynced, IsSynced};
ghost use Rattle.tf_journal.specs.Reach.{IsNear, Shows, EndsScanned, IsWindow};

use crate::faults::{JournalFault, ScanFault};
use crate::gates::OPEN;
use crate::header::{Header, read_header};
use crate::title::Title;
use crate::window::Window;
use tf_desk::{Desk, DeskFault};

/// The greatest size of a journal.
pub const SIZE_LIMIT: u64 = 67_108_864;

/// What a look at a place shows: a gate that isn't open, a record with a body of that length, or none.
#[derive(Drop)]
pub enum Look {
    Closed,
    Body { length: u64 },
    Bad { offset: u64, byte: Option<u8> },
}

/// What a file is: unborn, or a journal with so many records, and the place after the gate that ends them.
#[derive(Clone, Copy, Debug, PartialEq, Eq)]
pub enum Scanned {
    Unborn,
    Records { count: u64, end: u64 },
}

/// The length that four bytes spell, the greatest part first.
fn length_of(first: u8, second: u8, third: u8, fourth: u8) -> u64
    ensures { result ≡ 256 * (256 * (256 * first + second) + third) + fourth }
{
    256 * (256 * (256 * u64::from(first) + u64::from(second)) + u64::from(third))
        + u64::from(fourth)
}

/// What the bytes from a place on show, of which five are enough, in a journal of that title and size.
fn read_head(head: &[u8], size: u64, place: u64, title: Title) -> Look
    requires { place < SIZE_LIMIT }
    ensures near { IsNear result place }
    ensures shows { (bytes : List ℕ) → head.now ≡ take 5 (drop place bytes) → length bytes ≡ size
        → Shows title result bytes place }
{
    if head.is_empty() || head[0] != OPEN {
        return Look::Closed;
    }
    if head.len() < 5 {
        return Look::Bad {
            offset: size,
            byte: None,
        };
    }
    let length = length_of(head[1], head[2], head[3], head[4]);
    let limit = title.body_limit();
    if length == 0 || length > limit || place + 6 + length > SIZE_LIMIT {
        return Look::Bad {
            offset: place + 1,
            byte: Some(head[1]),
        };
    }
    if size < place + 6 + length {
        return Look::Bad {
            offset: size,
            byte: None,
        };
    }
    Look::Body { length }
}

/// Whether a record isn't one only because the file ends too early.
fn is_cut(look: &Look) -> bool {
    matches!(look, Look::Bad { byte: None, .. })
}

/// Looks at the record whose gate is at that place through the window, whose file has that size as asked for last.
/// Where the file ends too early the size is asked for again: another program may have added the record meanwhile.
pub(crate) fn look_through<K: Desk>(
    desk: &mut K,
    window: &mut Window,
    place: u64,
    title: Title,
) -> Result<Look, DeskFault>
    requires { place < SIZE_LIMIT }
    ensures near { IfOk result (λ look. IsNear look place) }
    ensures shows { IfOk result (λ look. IsTrue (K.state desk.new).tells
        → IsWindow (bytes_now (K.state desk.old)) window.old
        → Shows title look (bytes_now (K.state desk.old)) place) }
    ensures window { IsTrue (K.state desk.new).tells
        → IsWindow (bytes_now (K.state desk.old)) window.old → IsWindow (bytes_now (K.state desk.old)) window.new }
    ensures rests { Trusts Rests (K.state desk.old) (K.state desk.new) }
    ensures fails { IfErr result (λ fault. FailsOnDisk fault (K.state desk.old) (K.state desk.new)) }
{
    let mut head = [0; 5];
    let count = window.read(desk, place, &mut head)?;
    let look = read_head(&head[..count], window.size, place, title);
    if !is_cut(&look) {
        return Ok(look);
    }
    window.size = desk.size()?;
    Ok(read_head(&head[..count], window.size, place, title))
}

/// Reads the records from place 17 on of a journal of that title and size.
fn scan_records<K: Desk>(desk: &mut K, size: u64, title: Title) -> Result<Scanned, ScanFault>
    requires { IsTrue (K.state desk.old).tells → length (bytes_now (K.state desk.old)) ≡ size }
    ensures scanned { IsTrue (K.state desk.new).tells → 18 ≤ length (bytes_now (K.state desk.old))
        → MatchResult result (λ scanned. EndsScanned title scanned (bytes_now (K.state desk.old)))
        (λ fault. RefusesScan fault
        (records_from title (length (bytes_now (K.state desk.old))) (bytes_now (K.state desk.old)) 17)) }
    ensures never_old { result ≢ Err ScanFault.Old }
    ensures bounds { IfOk result EndsWithin }
    ensures rests { Trusts Rests (K.state desk.old) (K.state desk.new) }
    ensures fails { IfErr result (λ fault. RisesAtDisk fault (K.state desk.old) (K.state desk.new)) }
{
    let mut window = Window::make(size);
    let mut place = 17;
    let mut count = 0;
    loop {
        match look_through(desk, &mut window, place, title) {
            Ok(Look::Closed) => {
                return Ok(Scanned::Records {
                    count,
                    end: place + 1,
                });
            }
            Ok(Look::Body { length }) => {
                place += 5 + length;
                count += 1;
            }
            Ok(Look::Bad { offset, byte }) => return Err(ScanFault::NotABook { offset, byte }),
            Err(_) => return Err(ScanFault::Disk),
        }
    }
}

/// Syncs the file, and reads its size and its first bytes.
pub fn read_start<K: Desk>(desk: &mut K, head: &mut [u8; 18]) -> Result<(u64, usize), DeskFault>
    ensures bound { IfOk result (λ start. start.1 ≤ 18) }
    ensures size { IfOk result (λ start. IsTrue (K.state desk.new).tells
        → length (bytes_now (K.state desk.old)) ≡ start.0) }
    ensures bytes { IfOk result (λ start. IsTrue (K.state desk.new).tells
        → take start.1 head.new ≡ take 18 (bytes_now (K.state desk.old))) }
    ensures durable { OnOk result (IsTrue (K.state desk.new).tells → IsDurable (K.state desk.new)) }
    ensures rests { Trusts Rests (K.state desk.old) (K.state desk.new) }
    ensures synced { IsTrue (K.state desk.new).tells
        → IsSynced (K.state desk.old) (K.state desk.new) }
    ensures at_sync { OnOk result (IsTrue (K.state desk.new).tells
        → HasSynced (K.state desk.old) (K.state desk.new)) }
    ensures fails { IfErr result (λ fault. FailsOnDisk fault (K.state desk.old) (K.state desk.new)) }
{
    desk.sync()?;
    let size = desk.size()?;
    let count = desk.read(0, head)?;
    Ok((size, count))
}

/// What the picked file is, by all its bytes: unborn, or a journal of that title with so many records. `NotABook` and
/// `Old` come exactly where the file is so, `Old` for a book of several flows alone, and `Disk` only where the count of
/// disk faults rose. The file is synced first, and none changes. It takes no memory: records are read through a window,
/// whose one read serves all that lie in it.
pub fn scan<K: Desk>(desk: &mut K, title: Title) -> Result<Scanned, ScanFault>
    ensures scanned { IsTrue (K.state desk.new).tells → MatchResult result
        (λ scanned. IsScanned scanned title (bytes_now (K.state desk.old)))
        (λ fault. RefusesScan fault (recovered title (bytes_now (K.state desk.old)))) }
    ensures old_format { result ≡ Err ScanFault.Old → title ≡ Title.Book2 }
    ensures durable { OnOk result (IsTrue (K.state desk.new).tells → IsDurable (K.state desk.new)) }
    ensures bounds { IfOk result EndsWithin }
    ensures rests { Trusts Rests (K.state desk.old) (K.state desk.new) }
    ensures synced { IsTrue (K.state desk.new).tells
        → IsSynced (K.state desk.old) (K.state desk.new) }
    ensures at_sync { IsTrue (K.state desk.new).tells → result ≢ Err ScanFault.Disk
        → HasSynced (K.state desk.old) (K.state desk.new) }
    ensures fails { IfErr result (λ fault. RisesAtDisk fault (K.state desk.old) (K.state desk.new)) }
{
    let mut head = [0; 18];
    let Ok((size, count)) = read_start(desk, &mut head) else {
        return Err(ScanFault::Disk);
    };
    match read_header(&head[..count], size, title) {
        Header::Unborn => Ok(Scanned::Unborn),
        Header::Old => Err(ScanFault::Old),
        Header::Bad { offset, byte } => Err(ScanFault::NotABook { offset, byte }),
        Header::Titled => scan_records(desk, size, title),
    }
}

/// The place after the gate that ends the picked file's records. `Unborn`, `Old` and `NotABook` come exactly where the
/// file is so, and `Disk` only where the count of disk faults rose. The file is synced first.
pub fn find_end<K: Desk>(desk: &mut K, title: Title) -> Result<u64, JournalFault>
    ensures scanned { IsTrue (K.state desk.new).tells → MatchResult result
        (λ end. (held : List (List ℕ)) × (recovered title (bytes_now (K.state desk.old)) ≡ bodies held)
        × LiesAs title held end (bytes_now (K.state desk.new)))
        (λ fault. RefusesFile fault (recovered title (bytes_now (K.state desk.old)))) }
    ensures old_format { result ≡ Err JournalFault.Old → title ≡ Title.Book2 }
    ensures durable { OnOk result (IsTrue (K.state desk.new).tells → IsDurable (K.state desk.new)) }
    ensures bounds { IfOk result (λ end. (18 ≤ end) × (end ≤ 67108864)) }
    ensures rests { Trusts Rests (K.state desk.old) (K.state desk.new) }
    ensures synced { IsTrue (K.state desk.new).tells
        → IsSynced (K.state desk.old) (K.state desk.new) }
    ensures at_sync { IsTrue (K.state desk.new).tells → result ≢ Err JournalFault.Disk
        → HasSynced (K.state desk.old) (K.state desk.new) }
    ensures fails { IfErr result (λ fault. FailsToScan fault (K.state desk.old) (K.state desk.new)) }
{
    match scan(desk, title) {
        Ok(Scanned::Records { count: _, end }) => Ok(end),
        Ok(Scanned::Unborn) => Err(JournalFault::Unborn),
        Err(ScanFault::NotABook { offset, byte }) => Err(JournalFault::NotABook { offset, byte }),
        Err(ScanFault::Disk) => Err(JournalFault::Disk),
        Err(ScanFault::Old) => Err(JournalFault::Old),
    }
}
