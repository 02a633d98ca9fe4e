//! The file that a desk over files has open, and the calls of the system that the desk made, each noted with its
//! answer.
//!
//! No proof shows that a function that notes a call makes it: `pick`, `keep`, `size` and `sync` are to be read by eye,
//! with `write_once`, `read_once` and `say_once` of `streams.rt`.
ghost use Rattle.std.specs.Prelude.{◌≡◌, ◌≤◌, ◌∷◌, [], Bool, length, string_bytes, IsTrue, IfOk, OnOk, OnErr};
ghost use Rattle.tf_trace.specs.Calls.{opened};
ghost use Rattle.tf_desk.specs.Crash.{written, Reads, shown_with};
ghost use Rattle.tf_desk.specs.State.{bytes_now, LeftNow, OnDisk, Trusts, Rests, GoesOn, Tears, Syncs, Says, Picks, PicksNone, LeavesMade};
ghost use Rattle.tf_desk.specs.Replay.{First, replay, WithCounts, WithOutputCounts};

use crate::streams::{end_of, read_whole, say_whole, write_whole};
use std::fs::{self, File, OpenFile, OpenOptions, TryLockError};
use std::io::{self, Error, ErrorKind, Print};
use std::marker::Model;
use std::os::unix::fs::OpenOptionsExt;
use std::path::Path;
use std::rt::{Clock, Files};
use std::thread;
use std::time::{Duration, SystemTime};
use tf_trace::Trace;

/// What is opened in the place of a file that isn't there: it has no bytes.
const NOTHING: &str = "/dev/null";

/// The mode of a file that is made: what it holds is for its owner alone. The umask applies.
const MODE: u32 = 0o600;

/// How often a lock is tried before it is refused, and how long it is waited between: two seconds in all, since the
/// lock of a program that was killed may outlive it for a moment.
const LOCK_TRIES: u32 = 200;

const LOCK_PAUSE_IN_MILLISECONDS: u64 = 10;

/// What the files of a command are picked for.
#[derive(Clone, Copy, Debug, PartialEq, Eq)]
pub enum Access {
    /// To be read: a file is opened for reading alone, and one that isn't there reads as empty and isn't made.
    Read,
    /// To be read, and written where it has to be made first: its lock is taken at the first write.
    Share,
    /// To be written: its lock is taken when it is picked.
    Own,
}

/// How a file was found that is to be picked.
#[derive(Clone, Copy, PartialEq, Eq)]
enum Found {
    /// It was there.
    There,
    /// There was none, and it was made.
    Made,
    /// There was none, and another program made it meanwhile.
    Met,
    /// There is none, and it is to be read alone.
    Absent,
}

/// A file's size, and when it was last changed.
#[derive(Clone, Copy, PartialEq, Eq)]
struct Seen {
    size: u64,
    modified: SystemTime,
}

/// The picked file with its path, what was seen of it when it was picked, and whether it is locked for this
/// desk's writes.
#[derive(Drop)]
struct Picked {
    path: String,
    file: File,
    seen: Seen,
    owned: bool,
    /// Whether this desk has written to it, so that it needn't be as it was seen any more.
    written: bool,
    /// Whether there is no file of that path, and nothing to be synced.
    absent: bool,
}

/// The file that a desk has picked, and the calls that it made. Callers see the calls, the newest first. After a pick
/// that failed no file is open, and the one that the calls picked before stays the picked one: each call of it then
/// fails and changes nothing.
#[derive(Drop)]
pub struct Opened {
    picked: Option<Picked>,
    trace: Trace,
}

impl Model for Opened {
    ghost use Rattle.std.specs.Prelude.{List};
    ghost use Rattle.tf_trace.specs.Calls.{Call};

    ghost Value = { List Call };

    ghost use Rattle.tf_desk.specs.Picked.{IsTraced};

    ghost view = { λ opened. opened.trace.calls };

    ghost invariant = { IsTraced };
}

/// What is said where no file is picked.
fn nothing_picked() -> Error {
    Error::other("no file is picked")
}

/// The file of that path, to be read and written. A missing one is made.
fn open_file<R: Files<File = File>>(runtime: &R, path: &str) -> io::Result<(File, Found)> {
    let mut how = OpenOptions::new();
    how.read(true).write(true);
    match how.open(runtime, path) {
        Err(error) if error.kind() == ErrorKind::NotFound => {
            how.create_new(true).mode(MODE);
            match how.open(runtime, path) {
                // Another program made it meanwhile.
                Err(error) if error.kind() == ErrorKind::AlreadyExists => {
                    how.create_new(false);
                    Ok((how.open(runtime, path)?, Found::Met))
                }
                made => Ok((made?, Found::Made)),
            }
        }
        opened => Ok((opened?, Found::There)),
    }
}

/// The folder that the path stands in.
fn open_folder<R: Files>(runtime: &R, path: &str) -> io::Result<R::File> {
    match Path::new(path).parent() {
        Some(folder) if !folder.as_str().is_empty() => fs::open(runtime, folder),
        _ => fs::open(runtime, "."),
    }
}

/// The file of that path, to be read alone. Where there is none in its folder, it reads as empty, and isn't made.
fn open_to_read<R: Files<File = File>>(runtime: &R, path: &str) -> io::Result<(File, Found)> {
    match fs::open(runtime, path) {
        Ok(file) => Ok((file, Found::There)),
        Err(error) if error.kind() == ErrorKind::NotFound => {
            open_folder(runtime, path)?;
            Ok((fs::open(runtime, NOTHING)?, Found::Absent))
        }
        Err(error) => Err(error),
    }
}

/// The file of that path, for this.
fn open_for<R: Files<File = File>>(
    runtime: &R,
    path: &str,
    access: Access,
) -> io::Result<(File, Found)> {
    match access {
        Access::Read => open_to_read(runtime, path),
        Access::Share | Access::Own => open_file(runtime, path),
    }
}

/// What is seen of a file now.
fn look_at(file: &File) -> io::Result<Seen> {
    let metadata = file.metadata()?;
    Ok(Seen {
        size: metadata.len(),
        modified: metadata.modified()?,
    })
}

/// Takes the file's lock. `Err`: another program has it, and has had it for two seconds.
fn take_lock<R: Clock>(runtime: &R, file: &File) -> io::Result<()> {
    for _ in 0..LOCK_TRIES {
        match file.try_lock() {
            Ok(()) => return Ok(()),
            Err(TryLockError::WouldBlock) => {
                thread::sleep(runtime, Duration::from_millis(LOCK_PAUSE_IN_MILLISECONDS));
            }
            Err(TryLockError::Error(reason)) => return Err(reason),
        }
    }
    Err(Error::other("another program writes it"))
}

/// What is seen of a file that is about to be picked, before anything is read of it. The folder of a new one is synced
/// before, so that the file itself survives a crash, and one that is to be written is locked.
fn settle<R: Files + Clock>(
    runtime: &R,
    path: &str,
    file: &File,
    found: Found,
    access: Access,
) -> io::Result<Seen> {
    if found == Found::Made || found == Found::Met {
        sync_folder(runtime, path)?;
    }
    if access == Access::Own {
        take_lock(runtime, file)?;
    }
    look_at(file)
}

/// Sees before the first write that the file is this desk's, and as it was picked.
fn own<R: Clock>(runtime: &R, picked: &mut Picked) -> io::Result<()> {
    if picked.written {
        return Ok(());
    }
    if !picked.owned {
        take_lock(runtime, &picked.file)?;
        picked.owned = true;
    }
    let seen = look_at(&picked.file)?;
    if seen != picked.seen {
        return Err(Error::other("it was changed since it was read"));
    }
    picked.written = true;
    Ok(())
}

/// Puts what was written to the file on the disk; of an absent one there is nothing.
fn sync(picked: &Picked) -> io::Result<()> {
    if picked.absent {
        return Ok(());
    }
    picked.file.sync_data()
}

/// Syncs the folder that the path stands in.
fn sync_folder<R: Files>(runtime: &R, path: &str) -> io::Result<()> {
    open_folder(runtime, path)?.sync_all()
}

impl Opened {
    /// No file, and no call so far.
    pub fn new() -> Opened
        ensures { result ≡ [] }
    {
        Opened {
            picked: None,
            trace: Trace::new(),
        }
    }

    /// The path of the picked file.
    pub fn path(&self) -> Option<&str> {
        match &self.picked {
            Some(picked) => Some(picked.path.as_str()),
            None => None,
        }
    }

    /// Picks the file of that path for this, in the place of the one before. `Err`: none is picked, and an empty one
    /// may have been made.
    pub fn pick<R: Files<File = File> + Clock>(
        &mut self,
        runtime: &R,
        path: String,
        access: Access,
    ) -> io::Result<()>
        ensures picked { OnOk result ((first : First)
            → WithCounts (Picks (string_bytes path)) (replay first self.old) (replay first self.new)) }
        ensures unpicked { OnErr result ((first : First)
            → WithCounts (PicksNone (string_bytes path)) (replay first self.old) (replay first self.new)) }
        ensures leaves { (first : First)
            → LeavesMade (string_bytes path) (replay first self.old) (replay first self.new) }
        ensures on_disk { (first : First) → WithCounts (λ old new. Trusts (OnDisk (LeftNow new)) old new)
            (replay first self.old) (replay first self.new) }
    {
        // The file that was picked before is another program's to take, and may be this very one.
        self.picked = None;
        let (file, found) = open_for(runtime, path.as_str(), access)?;
        match settle(runtime, path.as_str(), &file, found, access) {
            Ok(seen) => {
                self.keep(path, file, seen, found, access);
                Ok(())
            }
            Err(reason) => {
                if found == Found::Made {
                    self.trace.made(path.as_bytes());
                }
                Err(reason)
            }
        }
    }

    /// Keeps the file of that path as the picked one, and notes it.
    fn keep(&mut self, path: String, file: File, seen: Seen, found: Found, access: Access)
        ensures { (none : Bool) × (self.new ≡ opened none (string_bytes path) ∷ self.old) }
    {
        let none = found == Found::Made || found == Found::Absent;
        self.trace.opened(none, path.as_bytes());
        self.picked = Some(Picked {
            path,
            file,
            seen,
            owned: access == Access::Own,
            written: false,
            absent: found == Found::Absent,
        });
    }

    /// How many bytes the picked file has.
    pub fn size(&mut self) -> io::Result<u64>
        ensures size { (first : First) → IfOk result (λ size. IsTrue (replay first self.new).tells
            → size ≡ length (bytes_now (replay first self.old))) }
        ensures marks { (first : First)
            → (replay first self.new).content.marks ≡ (replay first self.old).content.marks }
        ensures rests { (first : First)
            → WithCounts (Trusts Rests) (replay first self.old) (replay first self.new) }
    {
        let Some(picked) = &mut self.picked else {
            return Err(nothing_picked());
        };
        let size = end_of(&mut picked.file)?;
        self.trace.sized(size);
        Ok(size)
    }

    /// Fills the buffer with the picked file's bytes from that offset on, and answers how many there are.
    pub fn read(&mut self, at: u64, buf: &mut [u8]) -> io::Result<usize>
        ensures bound { IfOk result (λ n. n ≤ length buf.new) }
        ensures bytes { (first : First) → IfOk result (λ n. IsTrue (replay first self.new).tells
            → Reads (bytes_now (replay first self.old)) at buf.new n) }
        ensures marks { (first : First)
            → (replay first self.new).content.marks ≡ (replay first self.old).content.marks }
        ensures rests { (first : First)
            → WithCounts (Trusts Rests) (replay first self.old) (replay first self.new) }
    {
        let Some(picked) = &self.picked else {
            return Err(nothing_picked());
        };
        read_whole(&picked.file, &mut self.trace, at, buf)
    }

    /// Puts the bytes into the picked file from that offset on. `Err`: some of them were put, none where the file isn't
    /// this desk's or was changed since it was picked.
    pub fn write_at<R: Clock>(&mut self, runtime: &R, at: u64, bytes: &[u8]) -> io::Result<()>
        ensures wrote { OnOk result ((first : First) → at ≤ length (bytes_now (replay first self.old))
            → bytes_now (replay first self.new) ≡ written (bytes_now (replay first self.old)) at bytes.now) }
        ensures tears { (first : First)
            → WithCounts (Tears at (length bytes.now)) (replay first self.old) (replay first self.new) }
        ensures goes { (first : First) → WithCounts (λ old new. GoesOn (LeftNow new) old new)
            (replay first self.old) (replay first self.new) }
    {
        let Some(picked) = &mut self.picked else {
            return Err(nothing_picked());
        };
        own(runtime, picked)?;
        write_whole(&picked.file, &mut self.trace, at, bytes)
    }

    /// Puts what was written to the picked file on the disk. After a sync that failed the system may drop what was
    /// written, and answer a later sync all the same; the journal asks nothing of the disk then.
    pub fn sync(&mut self) -> io::Result<()>
        ensures synced { OnOk result ((first : First)
            → WithCounts Syncs (replay first self.old) (replay first self.new)) }
        ensures unsynced { OnErr result ((first : First)
            → (replay first self.new).content.marks ≡ (replay first self.old).content.marks) }
        ensures rests { (first : First) → WithCounts Rests (replay first self.old) (replay first self.new) }
    {
        let Some(picked) = &self.picked else {
            return Err(nothing_picked());
        };
        sync(picked)?;
        self.trace.synced();
        Ok(())
    }

    /// Writes the bytes to standard output. `Err`: a prefix of them was written.
    pub fn say<P: Print>(&mut self, out: &P, bytes: &[u8]) -> io::Result<()>
        ensures said { OnOk result ((first : First)
            → (replay first self.new).shown ≡ shown_with (replay first self.old).shown bytes.now) }
        ensures says { (first : First)
            → WithOutputCounts (Says bytes.now) (replay first self.old) (replay first self.new) }
    {
        say_whole(out, &mut self.trace, bytes)
    }
}
