//! What a migration says.
ghost use Rattle.std.specs.Prelude.{◌≡◌, IfOk};
ghost use Rattle.tf_report.specs.Closing.{not_a_book, book_full};
ghost use Rattle.tf_migration.specs.Migrates.{migrated_text as text_of_migrated};

use std::alloc::Global;
use tf_report::{append, append_book_full, append_counted, append_not_a_book};
use tf_values::Memory;

/// The message for a book that holds no flow.
pub const NO_FLOW: &[u8] = b"taskflow: no flow in the book\n";

/// The message for a book that is there already.
pub const EXISTS: &[u8] = b"taskflow: book exists\n";

/// The message for a book whose flow was carried over with so many entries.
#[tactic(auto, unfolding(crate::specs::Migrates::migrated_text))]
pub fn migrated_text(alloc: Global, entries: u64) -> Result<Vec<u8>, Memory>
    ensures { IfOk result (λ text. text.items ≡ text_of_migrated entries) }
{
    let mut text = Vec::new(alloc);
    append_counted(b"migrated ", entries, &mut text)?;
    append(b" entries\n", &mut text)?;
    Ok(text)
}

/// The message for a file that is no book of one flow.
pub fn not_a_book_text(alloc: Global, offset: u64, byte: Option<u8>) -> Result<Vec<u8>, Memory>
    ensures { IfOk result (λ text. text.items ≡ not_a_book offset byte) }
{
    let mut text = Vec::new(alloc);
    append_not_a_book(offset, byte, &mut text)?;
    Ok(text)
}

/// The message for a book that is full.
pub fn book_full_text(alloc: Global, size: u64, need: u64) -> Result<Vec<u8>, Memory>
    ensures { IfOk result (λ text. text.items ≡ book_full size need) }
{
    let mut text = Vec::new(alloc);
    append_book_full(size, need, &mut text)?;
    Ok(text)
}
