//! What a crash leaves of a file, of a log in which it was written.
ghost use Rattle.std.specs.Prelude.{◌≡◌, ◌≤◌, ◌<◌, ◌+◌, ◌*◌, ◌%◌, ◌^◌, max, ℕ, List, [], ◌∷◌, ◌++◌, length, take, reverse, option_map, slice_index, true, false, IfOk, IfSome, OnOk, Some};
ghost use Rattle.std.specs.List.{sum_by, list_any};
ghost use Rattle.tf_desk.specs.Crash.{written};
ghost use Rattle.tf_desk.specs.Acts.{Act};
ghost use Rattle.tf_desk.specs.Crashed.{is_in_span, IsMixed, IsTorn, IsTornAfter, IsTraced, IsActOf, AreOthers, other_file, picked_in_log, notes_pick, notes_sync};
ghost use Rattle.tf_desk.specs.MemoryDesk.{acts_of, written_count, said_count};
ghost use Rattle.tf_desk.specs.declared.past.Noted.{Noted};

use crate::past::{MemoryFile, Noted};
use std::alloc::Global;
use tf_values::{Memory, Text};

/// What a crash leaves of the picked file's bytes that aren't on the disk: what its last sync had; all that was
/// written; or any bytes. `Mixed(seed)` draws from a generator whose state begins as the seed: a draw of n takes
/// the state to 75 times it and 74 more, modulo 65,537, and gives it modulo n. It draws how many bytes more than
/// the old length the file has, and then, in order, 256 values for each byte that was written since, or is past
/// the old length.
#[derive(Clone, Copy, Debug, PartialEq, Eq)]
pub enum Torn {
    Old,
    New,
    Mixed(u32),
}

/// A range of a file: its offset, and how many bytes it has.
#[derive(Clone, Copy)]
pub struct Span {
    pub at: usize,
    pub count: usize,
}

/// A file on the way through a log: whether it is the picked one, its bytes as they read and as its last sync put
/// them on the disk, and where it was written since then.
#[derive(Drop)]
pub struct Traced {
    pub picked: bool,
    pub bytes: Vec<u8>,
    pub synced: Vec<u8>,
    pub spans: Vec<Span>,
}

/// Draws a number below the bound, and leaves the next state.
fn draw(state: &mut u64, bound: u64) -> u64
    requires state { state.old < 2 ^ 32 }
    requires bound { 0 < bound }
    ensures state { state.new ≡ (75 * state.old + 74) % 65537 }
    ensures small { state.new < 65537 }
    ensures number { result ≡ state.new % bound }
{
    *state = (75 * *state + 74) % 65_537;
    *state % bound
}

/// Puts the bytes into the file from that offset on, or at its end where it is shorter. `Err`: there was no room.
fn put_bytes(file: &mut Vec<u8>, at: usize, bytes: &[u8]) -> Result<(), Memory>
    ensures { OnOk result (file.new.items ≡ written file.old.items at bytes.now) }
{
    let at = at.min(file.len());
    let inside = bytes.len().min(file.len() - at);
    file.extend_from_slice(&bytes[inside..])?;
    file[at..at + inside].copy_from_slice(&bytes[..inside]);
    Ok(())
}

impl Traced {
    /// The bytes were written at the offset, to whichever file is picked.
    fn write(&mut self, at: usize, bytes: &[u8]) -> Result<(), Memory>
        ensures same { OnOk result ((self.new.picked ≡ self.old.picked)
            × (self.new.synced.items ≡ self.old.synced.items)) }
        ensures elsewhere { OnOk result (self.old.picked ≡ false → self.new ≡ self.old) }
        ensures wrote { OnOk result (self.old.picked ≡ true
            → (self.new.bytes.items ≡ written self.old.bytes.items at bytes.now)
            × (self.new.spans.items ≡ self.old.spans.items ++ record { at = at; count = length bytes.now } ∷ [])) }
    {
        if !self.picked {
            return Ok(());
        }
        put_bytes(&mut self.bytes, at, bytes)?;
        self.spans.push(Span {
            at,
            count: bytes.len(),
        })?;
        Ok(())
    }

    /// A sync: of the picked file what reads is on the disk.
    fn sync(&mut self) -> Result<(), Memory>
        ensures same { OnOk result ((self.new.picked ≡ self.old.picked)
            × (self.new.bytes.items ≡ self.old.bytes.items)) }
        ensures elsewhere { OnOk result (self.old.picked ≡ false → self.new ≡ self.old) }
        ensures synced { OnOk result (self.old.picked ≡ true → (self.new.synced.items ≡ self.old.bytes.items)
            × (self.new.spans.items ≡ [])) }
    {
        if !self.picked {
            return Ok(());
        }
        self.synced.clear();
        self.synced.extend_from_slice(&self.bytes)?;
        self.spans.clear();
        Ok(())
    }

    /// An entry of the log more, with the bytes that it wrote.
    fn follow(&mut self, entry: &Noted, name: &Text, bytes: &[u8]) -> Result<(), Memory>
        ensures { OnOk result ((past : List Act) (act : Act) → IsTraced past name.now self.old
            → IsActOf entry.now bytes.now act → IsTraced (act ∷ past) name.now self.new) }
    {
        match entry {
            Noted::Picked(other) => {
                self.picked = other.bytes() == name.bytes();
                Ok(())
            }
            Noted::Wrote { at, .. } => self.write(*at, bytes),
            Noted::Synced => self.sync(),
            Noted::Said { .. } => Ok(()),
        }
    }

    /// What a crash now leaves of the file, torn so.
    fn image(self, alloc: Global, torn: Torn) -> Result<Vec<u8>, Memory>
        ensures { IfOk result (λ image. IsTorn torn self.synced.items self.bytes.items self.spans.items image.items) }
    {
        match torn {
            Torn::Old => Ok(self.synced),
            Torn::New => Ok(self.bytes),
            Torn::Mixed(seed) => self.mixed(alloc, seed),
        }
    }

    /// Whether the byte at that place was written since the last sync.
    fn is_unsynced(&self, place: usize) -> bool
        ensures { result ≡ list_any (is_in_span place) self.now.spans.items }
    {
        self.spans
            .iter()
            .any(|span| span.at <= place && place - span.at < span.count)
    }

    /// The byte at that place that is on the disk, or else one that is drawn.
    fn mixed_byte(&self, place: usize, state: &mut u64) -> u8
        requires { state.old < 2 ^ 32 }
        ensures state { state.new < 2 ^ 32 }
        ensures kept { place < length self.now.synced.items
            → list_any (is_in_span place) self.now.spans.items ≡ false
            → result ≡ slice_index self.now.synced.items place }
    {
        if place < self.synced.len() && !self.is_unsynced(place) {
            return self.synced[place];
        }
        draw(state, 256) as u8
    }

    /// A length between the old and the new one, and drawn bytes where they aren't on the disk.
    fn mixed(&self, alloc: Global, seed: u32) -> Result<Vec<u8>, Memory>
        ensures { IfOk result
            (λ image. IsMixed self.now.synced.items self.now.bytes.items self.now.spans.items image.items) }
    {
        let mut state = u64::from(seed);
        let more = self.bytes.len().saturating_sub(self.synced.len());
        let drawn = draw(&mut state, more as u64 + 1) as usize;
        let length = self.synced.len() + drawn;
        let mut image = Vec::with_capacity(alloc, length)?;
        for place in 0..length {
            image.push(self.mixed_byte(place, &mut state))?;
        }
        Ok(image)
    }
}

/// How many bytes the entry wrote.
fn wrote_of(entry: &Noted) -> usize
    ensures { result ≡ written_count entry.now }
{
    match entry {
        Noted::Wrote { count, .. } => *count,
        Noted::Picked(_) | Noted::Synced | Noted::Said { .. } => 0,
    }
}

/// How many bytes the entry said.
fn said_of(entry: &Noted) -> usize
    ensures { result ≡ said_count entry.now }
{
    match entry {
        Noted::Said { count } => *count,
        Noted::Picked(_) | Noted::Wrote { .. } | Noted::Synced => 0,
    }
}

/// Whether the entry notes a sync.
pub fn is_sync(entry: &Noted) -> bool
    ensures { result ≡ notes_sync entry.now }
{
    match entry {
        Noted::Synced => true,
        Noted::Picked(_) | Noted::Wrote { .. } | Noted::Said { .. } => false,
    }
}

/// The name that was picked last, after an entry more.
fn picked_on<'a>(entry: &'a Noted, before: Option<&'a Text>) -> Option<&'a Text>
    ensures { (log : List Noted) → option_map (λ name. name.now) before.entry ≡ picked_in_log log
        → option_map (λ name. name.now) result ≡ picked_in_log (entry.now ∷ log) }
{
    match entry {
        Noted::Picked(name) => Some(name),
        Noted::Wrote { .. } | Noted::Synced | Noted::Said { .. } => before,
    }
}

/// Follows the file of that name through the entries, whose written bytes stand first on the tape.
fn trace(alloc: Global, log: &[Noted], tape: &[u8], name: &Text) -> Result<Traced, Memory>
    requires { sum_by written_count log.now ≤ length tape.now }
    ensures { IfOk result (λ traced. (shown : List ℕ)
        → IsTraced (acts_of (reverse log.now) (take (sum_by written_count log.now) tape.now) shown) name.now
        traced) }
{
    let mut traced = Traced {
        picked: false,
        bytes: Vec::new(alloc),
        synced: Vec::new(alloc),
        spans: Vec::new(alloc),
    };
    let mut wrote = 0;
    for entry in log {
        let next = wrote + wrote_of(entry);
        traced.follow(entry, name, &tape[wrote..next])?;
        wrote = next;
    }
    Ok(traced)
}

/// The image of the file of that name that a crash after these entries leaves, torn so.
pub fn image_of(
    alloc: Global,
    log: &[Noted],
    tape: &[u8],
    name: &Text,
    torn: Torn,
) -> Result<Vec<u8>, Memory>
    requires { sum_by written_count log.now ≤ length tape.now }
    ensures { IfOk result (λ image. (shown : List ℕ)
        → IsTornAfter torn (acts_of (reverse log.now) (take (sum_by written_count log.now) tape.now) shown)
        (Some name.now) image.items) }
{
    let traced = trace(alloc, log, tape, name)?;
    traced.image(alloc, torn)
}

/// Whether the entry notes a pick of that name.
fn is_pick(entry: &Noted, name: &Text) -> bool
    ensures { result ≡ notes_pick name.now entry.now }
{
    match entry {
        Noted::Picked(other) => other.bytes() == name.bytes(),
        Noted::Wrote { .. } | Noted::Synced | Noted::Said { .. } => false,
    }
}

/// Whether the file of that name was there after these entries.
fn was_picked(log: &[Noted], name: &Text) -> bool
    ensures { result ≡ list_any (notes_pick name.now) log.now }
{
    log.iter().any(|entry| is_pick(entry, name))
}

/// The file of the other name as it reads after these entries, or none where it wasn't there or has that name.
fn other_of(
    alloc: Global,
    log: &[Noted],
    tape: &[u8],
    name: &Text,
    other: &Text,
) -> Result<Option<MemoryFile>, Memory>
    requires { sum_by written_count log.now ≤ length tape.now }
    ensures bytes { IfOk result (λ file. (shown : List ℕ) → option_map (λ file. file.bytes.items) file
        ≡ other_file (acts_of (reverse log.now) (take (sum_by written_count log.now) tape.now) shown) name.now
        other.now) }
    ensures named { IfOk result (λ file. IfSome file (λ file. file.name ≡ other.now)) }
{
    if other.bytes() == name.bytes() {
        return Ok(None);
    }
    if !was_picked(log, other) {
        return Ok(None);
    }
    let traced = trace(alloc, log, tape, other)?;
    Ok(Some(MemoryFile {
        name: other.copy(alloc)?,
        bytes: traced.bytes,
    }))
}

/// Those of the files that were there after these entries beside the one of that name, as they read then.
pub fn others_of(
    alloc: Global,
    files: &[MemoryFile],
    log: &[Noted],
    tape: &[u8],
    name: &Text,
) -> Result<Vec<MemoryFile>, Memory>
    requires { sum_by written_count log.now ≤ length tape.now }
    ensures { IfOk result (λ others. (shown : List ℕ)
        → AreOthers files.now (acts_of (reverse log.now) (take (sum_by written_count log.now) tape.now) shown)
        name.now others.items) }
{
    let mut others = Vec::new(alloc);
    for file in files {
        if let Some(other) = other_of(alloc, log, tape, name, &file.name)? {
            others.push(other)?;
        }
    }
    Ok(others)
}

/// The text that was shown after these entries.
pub fn text_of<'a>(log: &[Noted], shown: &'a [u8]) -> &'a [u8]
    requires { sum_by said_count log.now ≤ length shown.now }
    ensures { result.now ≡ take (sum_by said_count log.now) shown.now }
{
    let mut said = 0;
    for entry in log {
        said += said_of(entry);
    }
    &shown[..said]
}

/// The name that was picked last.
pub fn picked_in(log: &[Noted]) -> Option<&Text>
    ensures { option_map (λ name. name.now) result ≡ picked_in_log (reverse log.now) }
{
    let mut picked = None;
    for entry in log {
        picked = picked_on(entry, picked);
    }
    picked
}
