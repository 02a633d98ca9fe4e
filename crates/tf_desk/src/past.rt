ghost use Rattle.std.specs.Prelude.{◌≡◌, ◌≤◌, ◌<◌, ◌++◌, ◌∷◌, [], true, false, length, is_ok, IsSome, IfOk, IfSome, IfNone, OnOk, OnErr, if◌then◌else◌};
ghost use Rattle.tf_desk.specs.Crash.{written, bytes_of, Reads};
ghost use Rattle.tf_desk.specs.Acts.{picked, wrote, synced, said, content_after, picked_after, shown_after};
ghost use Rattle.tf_desk.specs.Crashed.{acts_at, acts_left, unsynced_at, IsTornDesk};
ghost use Rattle.tf_desk.specs.MemoryDesk.{file_at, IsFirst};

use crate::crashing::{Torn, image_of, is_sync, others_of, picked_in, text_of};
use std::alloc::Global;
use std::marker::Model;
use tf_values::{Memory, Text};

/// What was noted: a pick, how many bytes were written at an offset, a sync, how many bytes were said.
#[derive(Drop)]
pub enum Noted {
    Picked(Text),
    Wrote { at: usize, count: usize },
    Synced,
    Said { count: usize },
}

/// A file by its name.
#[derive(Drop)]
pub struct MemoryFile {
    pub name: Text,
    pub bytes: Vec<u8>,
}

/// What a desk in memory has done, with the files as they read and the text shown. Each call that
/// changes something notes it.
#[derive(Drop)]
pub struct Past {
    log: Vec<Noted>,
    written: Vec<u8>,
    shown: Vec<u8>,
    files: Vec<MemoryFile>,
    picked: Option<usize>,
    capacity: usize,
}

impl Model for Past {
    ghost use Rattle.std.specs.Prelude.{List, reverse};
    ghost use Rattle.tf_desk.specs.Acts.{Act};

    ghost Value = { List Act };

    ghost use Rattle.tf_desk.specs.MemoryDesk.{acts_of};
    ghost use Rattle.tf_desk.specs.Sound.{IsSound};

    ghost view = { λ past. acts_of (reverse past.log.items) past.written.items past.shown.items };

    ghost invariant = { IsSound };
}

/// The place of the first file of that name.
fn place_of(files: &[MemoryFile], name: &Text) -> Option<usize>
    ensures found { IfSome result (λ place. IsFirst files.now place name.now) }
    ensures missing { IfNone result (file_at files.now name.now ≡ None) }
    ensures bound { IfSome result (λ place. place < length files.now) }
{
    for (place, file) in files.iter().enumerate() {
        if file.name.bytes() == name.bytes() {
            return Some(place);
        }
    }
    None
}

/// Fills the buffer with the bytes from that offset on, and answers how many there are.
fn copy_from(bytes: &[u8], at: usize, buf: &mut [u8]) -> usize
    ensures { Reads bytes.now at buf.new result }
{
    let n = buf.len().min(bytes.len().saturating_sub(at));
    if n > 0 {
        buf[..n].copy_from_slice(&bytes[at..at + n]);
    }
    n
}

/// Notes an entry with its bytes. `false`: there was no room, and nothing changed.
fn note(log: &mut Vec<Noted>, tape: &mut Vec<u8>, entry: Noted, bytes: &[u8]) -> bool
    ensures log { log.new.items ≡ (if result then log.old.items ++ entry ∷ [] else log.old.items) }
    ensures tape { tape.new.items ≡ (if result then tape.old.items ++ bytes.now else tape.old.items) }
{
    let before = tape.len();
    match tape.extend_from_slice(bytes) {
        Ok(()) => match log.push(entry) {
            Ok(()) => true,
            Err(_) => {
                tape.truncate(before);
                false
            }
        },
        Err(_) => false,
    }
}

/// Puts the bytes into the file from that offset on, and notes it. `false`: there was no room, and nothing
/// changed.
fn put(
    file: &mut Vec<u8>,
    log: &mut Vec<Noted>,
    tape: &mut Vec<u8>,
    at: usize,
    bytes: &[u8],
) -> bool
    requires { at ≤ length file.old.items }
    ensures file { file.new.items ≡ (if result then written file.old.items at bytes.now else file.old.items) }
    ensures log { log.new.items ≡
        (if result then log.old.items ++ Noted.Wrote at (length bytes.now) ∷ [] else log.old.items) }
    ensures tape { tape.new.items ≡ (if result then tape.old.items ++ bytes.now else tape.old.items) }
{
    let before = file.len();
    let inside = bytes.len().min(before - at);
    if file.extend_from_slice(&bytes[inside..]).is_err() {
        return false;
    }
    let count = bytes.len();
    if !note(log, tape, Noted::Wrote { at, count }, bytes) {
        file.truncate(before);
        return false;
    }
    file[at..at + inside].copy_from_slice(&bytes[..inside]);
    true
}

/// Adds a file and notes its pick. `Err`: there was no room, and nothing changed.
fn add(
    files: &mut Vec<MemoryFile>,
    log: &mut Vec<Noted>,
    file: MemoryFile,
    entry: Noted,
) -> Result<(), Memory>
    ensures files { files.new.items ≡ (if is_ok result then files.old.items ++ file ∷ [] else files.old.items) }
    ensures log { log.new.items ≡ (if is_ok result then log.old.items ++ entry ∷ [] else log.old.items) }
{
    files.push(file)?;
    match log.push(entry) {
        Ok(()) => Ok(()),
        Err(_) => {
            let _ = files.pop();
            Err(Memory)
        }
    }
}

/// How many bytes the files have together, or the greatest number where there are more.
fn bytes_in(files: &[MemoryFile]) -> usize {
    let mut bytes: usize = 0;
    for file in files {
        bytes = bytes.saturating_add(file.bytes.len());
    }
    bytes
}

impl Past {
    /// Nothing done so far. All memory but that of a file's name and bytes is reserved: the calls write
    /// and show at most `capacity` bytes together, and at most `calls` of them are noted.
    pub fn make(alloc: Global, capacity: usize, calls: usize) -> Result<Past, Memory>
        ensures { IfOk result (λ past. past ≡ []) }
    {
        Ok(Past {
            log: Vec::with_capacity(alloc, calls)?,
            written: Vec::with_capacity(alloc, capacity)?,
            shown: Vec::with_capacity(alloc, capacity)?,
            files: Vec::new(alloc),
            picked: None,
            capacity,
        })
    }

    /// Notes a pick of the file of that name, which is made empty where there is none. `Err`: memory ran out.
    pub fn pick(&mut self, alloc: Global, name: &Text) -> Result<(), Memory>
        ensures ok { OnOk result (self.new ≡ picked name.now ∷ self.old) }
        ensures err { OnErr result (self.new ≡ self.old) }
    {
        let entry = Noted::Picked(name.copy(alloc)?);
        if let Some(place) = place_of(&self.files, name) {
            self.log.push(entry)?;
            self.picked = Some(place);
            return Ok(());
        }
        let file = MemoryFile {
            name: name.copy(alloc)?,
            bytes: Vec::with_capacity(alloc, self.capacity)?,
        };
        let place = self.files.len();
        add(&mut self.files, &mut self.log, file, entry)?;
        self.picked = Some(place);
        Ok(())
    }

    /// How many bytes the picked file has; 0 where none is picked.
    pub fn size(&self) -> usize
        ensures { result ≡ length (bytes_of (content_after self.now)) }
    {
        match self.picked {
            Some(place) => self.files[place].bytes.len(),
            None => 0,
        }
    }

    /// Fills the buffer with the picked file's bytes from that offset on, and answers how many there are.
    pub fn read(&self, at: usize, buf: &mut [u8]) -> usize
        ensures { Reads (bytes_of (content_after self.now)) at buf.new result }
    {
        let Some(place) = self.picked else {
            return 0;
        };
        copy_from(&self.files[place].bytes, at, buf)
    }

    /// Writes into the picked file and notes it. `false`: no file is picked or there is no room, and nothing
    /// changed.
    pub fn write(&mut self, at: usize, bytes: &[u8]) -> bool
        requires { at ≤ length (bytes_of (content_after self.old)) }
        ensures noted { result ≡ true → self.new ≡ wrote at bytes.now ∷ self.old }
        ensures has_file { result ≡ true → IsSome (picked_after self.old) }
        ensures unchanged { result ≡ false → self.new ≡ self.old }
    {
        let Some(place) = self.picked else {
            return false;
        };
        let file = &mut self.files[place];
        put(&mut file.bytes, &mut self.log, &mut self.written, at, bytes)
    }

    /// Notes a sync. `false`: there is no room, and nothing changed.
    pub fn sync(&mut self) -> bool
        ensures noted { result ≡ true → self.new ≡ synced ∷ self.old }
        ensures unchanged { result ≡ false → self.new ≡ self.old }
    {
        match self.log.push(Noted::Synced) {
            Ok(()) => true,
            Err(_) => false,
        }
    }

    /// Shows the bytes and notes it. `false`: there is no room, and nothing changed.
    pub fn say(&mut self, bytes: &[u8]) -> bool
        ensures noted { result ≡ true → self.new ≡ said bytes.now ∷ self.old }
        ensures unchanged { result ≡ false → self.new ≡ self.old }
    {
        let count = bytes.len();
        note(&mut self.log, &mut self.shown, Noted::Said { count }, bytes)
    }

    /// How many bytes may still be written or shown.
    pub fn room(&self) -> usize {
        let used = self.written.len().saturating_add(self.shown.len());
        self.capacity.saturating_sub(used)
    }

    /// The text shown.
    pub fn shown(&self) -> &[u8]
        ensures { result.now ≡ shown_after self.now }
    {
        &self.shown
    }

    /// How many acts were done.
    pub fn count(&self) -> usize
        ensures { result ≡ length self.now }
    {
        self.log.len()
    }

    /// The end of what was done between the two moments, but for a sync that came last.
    pub fn unsynced(&self, began: usize, ended: usize) -> usize
        requires { ended ≤ length self.now }
        ensures { result ≡ unsynced_at self.now began ended }
    {
        if began < ended && is_sync(&self.log[ended - 1]) {
            return ended - 1;
        }
        ended
    }

    /// What a crash at that moment leaves: the picked file, torn so, the other files as they read, all of them on the
    /// disk, and the text. As much can be written and shown as after `make`. `Err`: memory ran out.
    pub fn crashed(
        &self,
        alloc: Global,
        calls: usize,
        moment: usize,
        torn: Torn,
    ) -> Result<Past, Memory>
        requires { moment ≤ length self.now }
        ensures { IfOk result (λ past. IsTornDesk torn (acts_at self.now moment) past) }
    {
        let log = &self.log[..moment];
        let text = text_of(log, &self.shown);
        let Some(name) = picked_in(log) else {
            return Past::shows(alloc, self.capacity, calls, text);
        };
        let others = others_of(alloc, &self.files, log, &self.written, name)?;
        let image = image_of(alloc, log, &self.written, name, torn)?;
        Past::keeps(alloc, self.capacity, calls, &others, name, &image, text)
    }

    /// Nothing but a text that was said.
    fn shows(alloc: Global, capacity: usize, calls: usize, text: &[u8]) -> Result<Past, Memory>
        ensures { IfOk result (λ past. past ≡ said text.now ∷ []) }
    {
        let capacity = capacity.saturating_add(text.len());
        let mut past = Past::make(alloc, capacity, calls.saturating_add(1))?;
        if !past.say(text) {
            return Err(Memory);
        }
        Ok(past)
    }

    /// A text that was said, and files that are on the disk: the others, and the picked one.
    fn keeps(
        alloc: Global,
        capacity: usize,
        calls: usize,
        others: &[MemoryFile],
        name: &Text,
        image: &[u8],
        text: &[u8],
    ) -> Result<Past, Memory>
        ensures { IfOk result (λ past. past ≡ acts_left others.now name.now image.now text.now) }
    {
        let bytes = bytes_in(others).saturating_add(image.len());
        let acts = others.len().saturating_add(1).saturating_mul(3);
        let capacity = capacity.saturating_add(bytes);
        let mut past = Past::shows(alloc, capacity, calls.saturating_add(acts), text)?;
        for file in others {
            past.keep(alloc, &file.name, &file.bytes)?;
        }
        past.keep(alloc, name, image)?;
        Ok(past)
    }

    /// Puts the bytes at the beginning of the file of that name, and onto the disk. `Err`: there was no room.
    fn keep(&mut self, alloc: Global, name: &Text, bytes: &[u8]) -> Result<(), Memory>
        ensures { OnOk result (self.new ≡ synced ∷ wrote 0 bytes.now ∷ picked name.now ∷ self.old) }
    {
        self.pick(alloc, name)?;
        if !self.write(0, bytes) || !self.sync() {
            return Err(Memory);
        }
        Ok(())
    }
}
