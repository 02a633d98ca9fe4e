//! How a journal is made in an unborn file.
ghost use Rattle.std.specs.Prelude.{◌≡◌, ◌≢◌, ◌↔◌, ◌≤◌, ℕ, List, true, ◌++◌, ◌∷◌, [], IsTrue, length, take, drop, OnOk, IfErr};
ghost use Rattle.tf_desk.specs.State.{bytes_now, IsDurable, Trusts, GoesOn, FailsOnDisk};
ghost use Rattle.tf_journal.specs.Birth.{IsClosed, IsTitled, born_bytes};
ghost use Rattle.tf_journal.specs.Format.{is_unborn, title_of, LeavesUnborn, LeavesBirth};

use crate::gates::{OPEN, write_synced};
use crate::header::has_letters;
use crate::scanning::read_start;
use crate::title::Title;
use tf_desk::{Desk, DeskFault};

/// Closes the gate of an unborn file of at most one byte; a longer one has one that isn't open.
fn close_gate<K: Desk>(desk: &mut K, title: Title, size: u64) -> Result<(), DeskFault>
    requires unborn { IsTrue (K.state desk.old).tells → is_unborn title (bytes_now (K.state desk.old)) ≡ true }
    requires size { IsTrue (K.state desk.old).tells → length (bytes_now (K.state desk.old)) ≡ size }
    requires durable { IsTrue (K.state desk.old).tells → IsDurable (K.state desk.old) }
    ensures closed { OnOk result (IsTrue (K.state desk.old).tells
        → IsClosed title (bytes_now (K.state desk.old)) (bytes_now (K.state desk.new))) }
    ensures durable { OnOk result (IsTrue (K.state desk.old).tells → IsDurable (K.state desk.new)) }
    ensures goes { GoesOn (LeavesUnborn title (K.state desk.old).shown) (K.state desk.old) (K.state desk.new) }
    ensures fails { IfErr result (λ fault. FailsOnDisk fault (K.state desk.old) (K.state desk.new)) }
{
    if size > 1 {
        return Ok(());
    }
    write_synced(desk, 0, &[0])
}

/// Writes the title and a closed gate behind the file's gate, where they don't stand there; of a title that stands
/// whole in a book of several flows the gate alone. The head is the first 18 bytes of a file of two bytes or more.
fn write_title<K: Desk>(desk: &mut K, title: Title, head: &[u8]) -> Result<(), DeskFault>
    requires unborn { IsTrue (K.state desk.old).tells → is_unborn title (bytes_now (K.state desk.old)) ≡ true }
    requires gate { IsTrue (K.state desk.old).tells → 1 ≤ length (bytes_now (K.state desk.old)) }
    requires short { IsTrue (K.state desk.old).tells → length (bytes_now (K.state desk.old)) ≤ 1
        → (bytes_now (K.state desk.old) ≡ 0 ∷ []) × (length head.now ≤ 1) }
    requires long { IsTrue (K.state desk.old).tells → 2 ≤ length (bytes_now (K.state desk.old))
        → head.now ≡ take 18 (bytes_now (K.state desk.old)) }
    requires durable { IsTrue (K.state desk.old).tells → IsDurable (K.state desk.old) }
    ensures titled { OnOk result (IsTrue (K.state desk.old).tells
        → IsTitled title (bytes_now (K.state desk.old)) (bytes_now (K.state desk.new))) }
    ensures durable { OnOk result (IsTrue (K.state desk.old).tells → IsDurable (K.state desk.new)) }
    ensures goes { GoesOn (LeavesUnborn title (K.state desk.old).shown) (K.state desk.old) (K.state desk.new) }
    ensures fails { IfErr result (λ fault. FailsOnDisk fault (K.state desk.old) (K.state desk.new)) }
{
    if has_closed(head, title) {
        return Ok(());
    }
    if is_unclosed(head, title) {
        return write_synced(desk, 17, &[0]);
    }
    write_synced(desk, 1, title.closed())
}

/// Opens the gate of a file that has its title.
fn open_gate<K: Desk>(desk: &mut K, title: Title) -> Result<(), DeskFault>
    requires titled { IsTrue (K.state desk.old).tells
        → (before : List ℕ) × IsTitled title before (bytes_now (K.state desk.old)) }
    requires durable { IsTrue (K.state desk.old).tells → IsDurable (K.state desk.old) }
    ensures born { OnOk result (IsTrue (K.state desk.old).tells
        → (before : List ℕ) → IsTitled title before (bytes_now (K.state desk.old))
        → bytes_now (K.state desk.new) ≡ born_bytes title before) }
    ensures durable { OnOk result (IsTrue (K.state desk.old).tells → IsDurable (K.state desk.new)) }
    ensures goes { GoesOn (LeavesBirth title (K.state desk.old).shown) (K.state desk.old) (K.state desk.new) }
    ensures fails { IfErr result (λ fault. FailsOnDisk fault (K.state desk.old) (K.state desk.new)) }
{
    write_synced(desk, 0, &[OPEN])
}

/// Writes all that a journal without a record has, but for its open gate: the file stays unborn.
pub fn begin<K: Desk>(desk: &mut K, title: Title) -> Result<(), DeskFault>
    requires unborn { IsTrue (K.state desk.old).tells → is_unborn title (bytes_now (K.state desk.old)) ≡ true }
    ensures titled { OnOk result (IsTrue (K.state desk.new).tells
        → IsTitled title (bytes_now (K.state desk.old)) (bytes_now (K.state desk.new))) }
    ensures durable { OnOk result (IsTrue (K.state desk.new).tells → IsDurable (K.state desk.new)) }
    ensures goes { Trusts (GoesOn (LeavesUnborn title (K.state desk.old).shown)) (K.state desk.old) (K.state desk.new) }
    ensures fails { IfErr result (λ fault. FailsOnDisk fault (K.state desk.old) (K.state desk.new)) }
{
    let mut head = [0; 18];
    let (size, count) = read_start(desk, &mut head)?;
    close_gate(desk, title, size)?;
    write_title(desk, title, &head[..count])
}

/// Makes a journal without a record in an unborn file.
pub fn bear<K: Desk>(desk: &mut K, title: Title) -> Result<(), DeskFault>
    requires unborn { IsTrue (K.state desk.old).tells → is_unborn title (bytes_now (K.state desk.old)) ≡ true }
    ensures born { OnOk result (IsTrue (K.state desk.new).tells
        → bytes_now (K.state desk.new) ≡ born_bytes title (bytes_now (K.state desk.old))) }
    ensures durable { OnOk result (IsTrue (K.state desk.new).tells → IsDurable (K.state desk.new)) }
    ensures goes { Trusts (GoesOn (LeavesBirth title (K.state desk.old).shown)) (K.state desk.old) (K.state desk.new) }
    ensures fails { IfErr result (λ fault. FailsOnDisk fault (K.state desk.old) (K.state desk.new)) }
{
    begin(desk, title)?;
    open_gate(desk, title)
}

/// Whether the title and a closed gate stand behind the gate, and nothing after them.
fn has_closed(head: &[u8], title: Title) -> bool
    ensures { (result ≡ true) ↔ (drop 1 head.now ≡ title_of title ++ 0 ∷ []) }
{
    head.len() == 18 && &head[1..] == title.closed().as_slice()
}

/// Whether the title of a book of several flows stands behind the gate.
fn is_unclosed(head: &[u8], title: Title) -> bool
    ensures { (result ≡ true) ↔ ((title ≡ Title.Book2) × (take 16 (drop 1 head.now) ≡ title_of title)) }
{
    matches!(title, Title::Book2) && has_letters(head, title.closed())
}
