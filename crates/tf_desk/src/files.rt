ghost use Rattle.std.specs.Prelude.{◌≡◌, ◌≤◌, [], string_bytes, IsErrOf, IfOk, IfErr};
ghost use Rattle.tf_numbers.specs.Numbers.{Rises};
ghost use Rattle.tf_desk.specs.Replay.{replay, with_counts};
ghost use Rattle.tf_desk.specs.ReplayLaws.{is_shown, is_now, picked_there, left_reads, left_none};
ghost use Rattle.tf_desk.specs.Calls.{calls_of};

use crate::device::{Desk, DeskFault};
use crate::opened::{Access, Opened};
use crate::reasons::tell_reason;
use crate::worlds::World;
use std::alloc::Global;
use std::fs::{self, File};
use std::io::{self, Eprint, Error, ErrorKind};
use std::marker::PhantomData;
use std::rt::{Clock, Files};
use tf_values::Text;

/// What is opened so that no book takes the place of a standard stream that was closed before.
const NOTHING: &str = "/dev/null";

/// Three open files. The system gives a file the least free number, so the standard streams' numbers are
/// taken while these are open.
#[derive(Drop)]
struct Taken<F> {
    first: F,
    second: F,
    third: F,
}

/// The real desk, over files and standard output: a name is a path. It notes each call of the system that it makes with
/// its answer, and tells its files, what a crash may leave of them and its marks as they follow from these calls and
/// from what the files held at first in its world, as long as each open, each size and each read agrees with that. Its
/// text and its counts it tells in any case. So what is said of the desk's files holds of the real ones only where
/// nobody else writes them unseen, and where two names don't stand for one file: what a read doesn't show, nothing here
/// finds.
///
/// A file that is picked to be written is locked from then on, until another file is picked; one that is shared from
/// the first write on. A lock that another program has is waited for two seconds, and then refused as `Disk`. So is the
/// first write to a file that isn't as it was picked, and changes nothing. Of each call that fails the system's reason
/// is said on standard error.
#[derive(Drop)]
pub struct FileDesk<R: Files, W: World> {
    runtime: R,
    access: Access,
    taken: Option<Taken<R::File>>,
    opened: Opened,
    stop: Option<String>,
    disk_faults: u64,
    out_faults: u64,
    asks: u64,
    turns: u64,
    world: PhantomData<W>,
}

impl<R: Files, W: World> FileDesk<R, W> {
    /// A desk with no file and no fault so far, that has made no call, and whose files are picked for this.
    pub fn make(runtime: R, access: Access) -> FileDesk<R, W>
        ensures no_calls { calls_of result ≡ [] }
        ensures no_faults { (result.disk_faults ≡ 0) × (result.out_faults ≡ 0) × (result.asks ≡ 0)
            × (result.turns ≡ 0) }
    {
        FileDesk {
            runtime,
            access,
            taken: None,
            opened: Opened::new(),
            stop: None,
            disk_faults: 0,
            out_faults: 0,
            asks: 0,
            turns: 0,
            world: PhantomData,
        }
    }

    /// Takes the numbers of the standard streams, where they are free, unless it has done so.
    fn take_streams(&mut self) -> io::Result<()>
        ensures same { self.new ≡ record self.old { taken = self.new.taken } }
    {
        if self.taken.is_none() {
            self.taken = Some(take_streams(&self.runtime)?);
        }
        Ok(())
    }

    /// A fault of the disk, counted.
    fn disk_fault<T>(&mut self) -> Result<T, DeskFault>
        ensures disk { IsErrOf result DeskFault.Disk }
        ensures same { self.new ≡ record self.old { disk_faults = self.new.disk_faults } }
        ensures rose { Rises self.old.disk_faults self.new.disk_faults }
        ensures no_fall { self.old.disk_faults ≤ self.new.disk_faults }
    {
        self.disk_faults = self.disk_faults.saturating_add(1);
        Err(DeskFault::Disk)
    }
}

impl<R: Files + Eprint, W: World> FileDesk<R, W> {
    /// A fault of the picked file, told with its reason and counted.
    fn file_fault<T>(&mut self, reason: &Error) -> Result<T, DeskFault>
        ensures disk { IsErrOf result DeskFault.Disk }
        ensures same { self.new ≡ record self.old { disk_faults = self.new.disk_faults } }
        ensures rose { Rises self.old.disk_faults self.new.disk_faults }
        ensures no_fall { self.old.disk_faults ≤ self.new.disk_faults }
    {
        if let Some(path) = self.opened.path() {
            tell_reason(&self.runtime, path, reason);
        }
        self.disk_fault()
    }

    /// A fault of the file of that path, which couldn't be picked, told with its reason and counted.
    fn pick_fault<T>(&mut self, path: &str, reason: &Error) -> Result<T, DeskFault>
        ensures disk { IsErrOf result DeskFault.Disk }
        ensures same { self.new ≡ record self.old { disk_faults = self.new.disk_faults } }
        ensures rose { Rises self.old.disk_faults self.new.disk_faults }
        ensures no_fall { self.old.disk_faults ≤ self.new.disk_faults }
    {
        tell_reason(&self.runtime, path, reason);
        self.disk_fault()
    }
}

/// Takes the numbers of the standard streams, where they are free.
fn take_streams<R: Files>(runtime: &R) -> io::Result<Taken<R::File>> {
    Ok(Taken {
        first: fs::open(runtime, NOTHING)?,
        second: fs::open(runtime, NOTHING)?,
        third: fs::open(runtime, NOTHING)?,
    })
}

/// A path that is kept.
fn path_of(alloc: Global, path: &str) -> Result<String, DeskFault>
    ensures same { IfOk result (λ kept. string_bytes kept ≡ path.now) }
    ensures memory { IfErr result (λ fault. fault ≡ DeskFault.Memory) }
{
    match String::from_str(alloc, path) {
        Ok(kept) => Ok(kept),
        Err(_) => Err(DeskFault::Memory),
    }
}

/// The path of the file that asks for a stop.
fn stop_path(alloc: Global, path: &str) -> Result<String, DeskFault>
    ensures { IfErr result (λ fault. fault ≡ DeskFault.Memory) }
{
    match String::from_str(alloc, path) {
        Ok(mut stop) => match stop.push_str(".stop") {
            Ok(()) => Ok(stop),
            Err(_) => Err(DeskFault::Memory),
        },
        Err(_) => Err(DeskFault::Memory),
    }
}

impl<R: Files<File = File> + Clock + Print + Eprint + Drop, W: World + Drop> Desk
    for FileDesk<R, W> {
    ghost state = { λ desk. with_counts desk.disk_faults desk.out_faults desk.asks desk.turns
        (replay W.first desk.opened) };

    ghost tells_shown = { λ desk told. is_shown W.first desk.opened };

    ghost picked_is_there = { λ desk name told. picked_there W.first desk.opened name };

    ghost reads_left = { λ desk name bytes told. left_reads W.first desk.opened name bytes };

    ghost none_left = { λ desk name image told. left_none W.first desk.opened name image };

    ghost earlier_allows = { λ desk early late image text told.
        (is_now W.first desk.opened).earlier early late image text };

    ghost counts_now = { λ desk start image text told. (is_now W.first desk.opened).now start image text };

    ghost only_now = { λ desk image text told. (is_now W.first desk.opened).only image text };

    fn pick(&mut self, alloc: Global, name: &Text) -> Result<(), DeskFault> {
        let Ok(path) = str::from_utf8(name.bytes()) else {
            return self.disk_fault();
        };
        let stop = stop_path(alloc, path)?;
        let kept = path_of(alloc, path)?;
        if let Err(reason) = self.take_streams() {
            return self.pick_fault(NOTHING, &reason);
        }
        match self.opened.pick(&self.runtime, kept, self.access) {
            Ok(()) => {
                self.stop = Some(stop);
                Ok(())
            }
            Err(reason) => self.pick_fault(path, &reason),
        }
    }

    fn size(&mut self) -> Result<u64, DeskFault> {
        match self.opened.size() {
            Ok(size) => Ok(size),
            Err(reason) => self.file_fault(&reason),
        }
    }

    fn read(&mut self, at: u64, buf: &mut [u8]) -> Result<usize, DeskFault> {
        match self.opened.read(at, buf) {
            Ok(count) => Ok(count),
            Err(reason) => self.file_fault(&reason),
        }
    }

    fn write_at(&mut self, at: u64, bytes: &[u8]) -> Result<(), DeskFault> {
        match self.opened.write_at(&self.runtime, at, bytes) {
            Ok(()) => Ok(()),
            Err(reason) => self.file_fault(&reason),
        }
    }

    fn sync(&mut self) -> Result<(), DeskFault> {
        match self.opened.sync() {
            Ok(()) => Ok(()),
            Err(reason) => self.file_fault(&reason),
        }
    }

    fn say(&mut self, bytes: &[u8]) -> Result<(), DeskFault> {
        match self.opened.say(&self.runtime, bytes) {
            Ok(()) => Ok(()),
            Err(reason) => {
                // Who reads the output may have enough of it, as `head` has.
                if reason.kind() != ErrorKind::BrokenPipe {
                    tell_reason(&self.runtime, "standard output", &reason);
                }
                self.out_faults = self.out_faults.saturating_add(1);
                Err(DeskFault::Out)
            }
        }
    }

    fn stop_asked(&mut self) -> bool {
        self.turns = self.turns.saturating_add(1);
        let Some(stop) = &self.stop else {
            return false;
        };
        let asked = fs::exists(&self.runtime, stop.as_str()).unwrap_or(false);
        if asked {
            self.asks = self.asks.saturating_add(1);
        }
        asked
    }
}
