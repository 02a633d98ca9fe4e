ghost use Rattle.std.specs.Prelude.{◌≡◌, ◌≤◌, ◌<◌, ◌+◌, ◌++◌, ◌∷◌, [], length, OnOk, IfOk};
ghost use Rattle.tf_journal.specs.Format.{length_bytes, IsBody};
ghost use Rattle.tf_journal.specs.declared.title.Title.TheVariants.{Book2 as book_title};
ghost use Rattle.tf_book.specs.Histories.{past_shown, HasEntryRoom, HasAllRoom, KeepsHistory};

use std::alloc::{AllocError, Global};
use std::snapshot::Snapshot;
use tf_details::Keeps;
use tf_states::Entry;
use tf_values::Memory;

/// The greatest size of a journal: a history has fewer entries and fewer bytes.
const SIZE_LIMIT: usize = 67_108_864;

/// The entries of a book as clauses see them, which take no bytes, and their bodies in memory, each behind its
/// length in four bytes.
#[derive(Drop)]
pub struct History {
    pub entries: Vec<Snapshot<Entry>>,
    pub bodies: Vec<u8>,
}

impl History {
    /// No entry yet, with room for every history that a journal can hold, so that to keep an entry takes no memory.
    /// What is reserved isn't written: it costs addresses until it is used.
    pub fn with_room(alloc: Global) -> Result<History, AllocError>
        ensures entries { IfOk result (λ history. past_shown history.entries.items ≡ []) }
        ensures bodies { IfOk result (λ history. history.bodies.items ≡ []) }
        ensures room { IfOk result HasAllRoom }
    {
        let entries = Vec::with_capacity(alloc, SIZE_LIMIT)?;
        let bodies = Vec::with_capacity(alloc, SIZE_LIMIT)?;
        Ok(History { entries, bodies })
    }

    /// Forgets all entries. The room stays.
    pub fn clear(&mut self)
        ensures entries { past_shown self.new.entries.items ≡ [] }
        ensures bodies { self.new.bodies.items ≡ [] }
        ensures all_room { HasAllRoom self.old → HasAllRoom self.new }
    {
        self.entries.clear();
        self.bodies.clear();
    }

    /// Makes room for an entry with a body of that length.
    pub fn reserve(&mut self, len: usize) -> Result<(), AllocError>
        requires { len ≤ 1048576 }
        ensures entries { self.new.entries.items ≡ self.old.entries.items }
        ensures bodies { self.new.bodies.items ≡ self.old.bodies.items }
        ensures room { OnOk result (HasEntryRoom self.new len) }
        ensures all_room { HasAllRoom self.old → HasAllRoom self.new }
    {
        self.entries.reserve(1)?;
        self.bodies.reserve(len + 4)
    }

    /// Keeps an entry and its body, for which there is room.
    pub fn keep(&mut self, entry: &Entry, body: &[u8])
        requires body { IsBody book_title body.now }
        requires room { HasEntryRoom self.old (length body.now) }
        ensures entries { past_shown self.new.entries.items ≡ entry.now ∷ past_shown self.old.entries.items }
        ensures bodies { self.new.bodies.items ≡ self.old.bodies.items ++ (length_bytes (length body.now) ++ body.now) }
        ensures all_room { HasAllRoom self.old → HasAllRoom self.new }
    {
        let n = body.len();
        let _ = self.entries.push(Snapshot::of(entry));
        let _ = self.bodies.extend_from_slice(&[
            (n / 256 / 256 / 256) as u8,
            (n / 256 / 256 % 256) as u8,
            (n / 256 % 256) as u8,
            (n % 256) as u8,
        ]);
        let _ = self.bodies.extend_from_slice(body);
    }
}

impl Keeps for History {
    ghost use Rattle.tf_book.specs.Histories.{KeepsHistory};

    ghost keeps = { KeepsHistory };

    fn keep(&mut self, entry: &Entry, form: &[u8]) -> Result<(), Memory> {
        self.reserve(form.len())?;
        History::keep(self, entry, form);
        Ok(())
    }
}
