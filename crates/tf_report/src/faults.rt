//! What is said of a file, a hand or an address that can't be had, and of a book or a board that can't be read or can't take a
//! record more.
ghost use Rattle.std.specs.Prelude.{◌≡◌, ◌++◌, OnOk};
ghost use Rattle.tf_report.specs.Closing.{byte_or_end, not_a_book, book_full};

use crate::appending::{append, append_counted};
use tf_values::Memory;

/// The message for a fault of the disk.
pub const DISK_FAULT: &[u8] = b"taskflow: disk fault\n";

/// The message for a file that can't be read.
pub const CANNOT_READ: &[u8] = b"taskflow: cannot read\n";

/// The message for a book of the older format.
pub const OLD_FORMAT: &[u8] = b"taskflow: old format\n";

/// The message where no hand could be hired.
pub const CANNOT_HIRE: &[u8] = b"taskflow: cannot hire\n";

/// The message where nobody can be listened to.
pub const CANNOT_LISTEN: &[u8] = b"taskflow: cannot listen\n";

/// Appends the message for a file that is no book or no board: the offset and the byte that show it, or the file's end.
#[tactic(auto, unfolding(crate::specs::Closing::not_a_book))]
pub fn append_not_a_book(offset: u64, byte: Option<u8>, out: &mut Vec<u8>) -> Result<(), Memory>
    ensures { OnOk result (out.new.items ≡ out.old.items ++ not_a_book offset byte) }
{
    append_counted(b"taskflow: not a book: offset ", offset, out)?;
    append(b", ", out)?;
    append_byte(byte, out)?;
    append(b"\n", out)
}

/// Appends a byte of a file, or that there is none.
fn append_byte(byte: Option<u8>, out: &mut Vec<u8>) -> Result<(), Memory>
    ensures { OnOk result (out.new.items ≡ out.old.items ++ byte_or_end byte) }
{
    match byte {
        Some(byte) => append_counted(b"byte ", byte, out),
        None => append(b"end", out),
    }
}

/// Appends the message for a book or a board that is full: its size, and how many bytes more were asked for.
#[tactic(auto, unfolding(crate::specs::Closing::book_full))]
pub fn append_book_full(size: u64, need: u64, out: &mut Vec<u8>) -> Result<(), Memory>
    ensures { OnOk result (out.new.items ≡ out.old.items ++ book_full size need) }
{
    append_counted(b"taskflow: book full: ", size, out)?;
    append_counted(b" + ", need, out)?;
    append(b"\n", out)
}
