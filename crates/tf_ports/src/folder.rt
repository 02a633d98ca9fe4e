ghost use Rattle.std.specs.Prelude.{◌≡◌, ◌≢◌, ◌≤◌, [], length, IfOk, IsErrOf};
ghost use Rattle.tf_ports.specs.Remaining.{IsAllLeft, HasMoreLeft};
ghost use Rattle.tf_ports.specs.Folder.{folder_told};
ghost use Rattle.tf_ports.specs.Ports.{GivesBytes, PassesLimit, TellsStill};
ghost use Rattle.tf_numbers.specs.Numbers.{Rises};

use crate::reading::{SOURCE_LIMIT, SourceFault, Sources};
use std::alloc::Global;
use std::fs;
use std::io::{Eprint, Error, ErrorKind, Read};
use std::marker::PhantomData;
use std::rt::Files;
use tf_desk::{World, read_on, tell_reason};
use tf_log::Log;
use tf_values::Text;

/// The folder that the program runs in: a name is a path. Where a file can't be read the system's reason is said
/// on standard error. It notes what it read, and tells the files of its world, as long as all that it read is what they
/// have.
#[derive(Drop)]
pub struct Folder<R, W> {
    runtime: R,
    faults: u64,
    read: Log<Text, Vec<u8>>,
    long: Log<Text, ()>,
    world: PhantomData<W>,
}

impl<R, W: World> Folder<R, W> {
    /// The folder, with nothing read and no fault so far.
    pub fn make(runtime: R) -> Folder<R, W>
        ensures read { result.read.items ≡ [] }
        ensures long { result.long.items ≡ [] }
        ensures none { result.faults ≡ 0 }
    {
        Folder {
            runtime,
            faults: 0,
            read: Log::new(),
            long: Log::new(),
            world: PhantomData,
        }
    }
}

impl<R: Files + Eprint + Drop, W: World + Drop> Sources for Folder<R, W> {
    ghost contents = { λ folder. folder_told W.sources folder.read.items folder.long.items };

    ghost faults = { λ folder. folder.faults };

    fn read_all(&mut self, alloc: Global, name: &Text) -> Result<Vec<u8>, SourceFault> {
        self.read_named(alloc, name, false)
    }

    fn read_stored(&mut self, alloc: Global, name: &Text) -> Result<Vec<u8>, SourceFault> {
        self.read_named(alloc, name, true)
    }
}

impl<R: Files + Eprint, W: World> Folder<R, W> {
    /// All bytes of the file of that name, noted. `stored`: of a regular file alone.
    fn read_named(
        &mut self,
        alloc: Global,
        name: &Text,
        stored: bool,
    ) -> Result<Vec<u8>, SourceFault>
        ensures whole { IfOk result (λ bytes. GivesBytes (folder_told W.sources self.new.read.items self.new.long.items)
            name.now bytes.items) }
        ensures short { IfOk result (λ bytes. length bytes.items ≤ SOURCE_LIMIT) }
        ensures too_long { IsErrOf result SourceFault.TooLong
            → PassesLimit (folder_told W.sources self.new.read.items self.new.long.items) name.now }
        ensures cause { IsErrOf result SourceFault.Read → Rises self.old.faults self.new.faults }
        ensures still { TellsStill (folder_told W.sources self.old.read.items self.old.long.items)
            (folder_told W.sources self.new.read.items self.new.long.items) }
        ensures no_fall { self.old.faults ≤ self.new.faults }
    {
        match read_file(&self.runtime, alloc, name, stored) {
            Ok(bytes) => {
                self.read = self.read.and(name, &bytes);
                Ok(bytes)
            }
            Err(SourceFault::TooLong) => {
                self.long = self.long.and(name, &());
                Err(SourceFault::TooLong)
            }
            Err(SourceFault::Read) => {
                self.faults = self.faults.saturating_add(1);
                Err(SourceFault::Read)
            }
            Err(SourceFault::Memory) => Err(SourceFault::Memory),
        }
    }
}

/// All bytes of the file, up to the limit. `stored`: of a regular file alone.
fn read_file<R: Files + Eprint>(
    runtime: &R,
    alloc: Global,
    name: &Text,
    stored: bool,
) -> Result<Vec<u8>, SourceFault>
    ensures short { IfOk result (λ bytes. length bytes.items ≤ SOURCE_LIMIT) }
{
    let Ok(path) = str::from_utf8(name.bytes()) else {
        return Err(SourceFault::Read);
    };
    if stored {
        // Asked before it is opened: a pipe without a writer would be waited for.
        let found = match fs::metadata(runtime, path) {
            Ok(found) => found,
            Err(reason) => return Err(fault_told(runtime, path, &reason)),
        };
        if !found.is_file() {
            return Err(fault_told(runtime, path, &Error::other("it is no regular file")));
        }
    }
    match fs::open(runtime, path) {
        Ok(mut file) => read_to_limit(runtime, alloc, path, &mut file),
        Err(reason) => Err(fault_told(runtime, path, &reason)),
    }
}

/// The fault of a file that couldn't be read: want of memory, or the fault whose reason is told here.
fn fault_told<R: Eprint>(runtime: &R, path: &str, reason: &Error) -> SourceFault
    ensures { result ≢ SourceFault.TooLong }
{
    if reason.kind() == ErrorKind::OutOfMemory {
        return SourceFault::Memory;
    }
    tell_reason(runtime, path, reason);
    SourceFault::Read
}

/// All bytes that the reader has left, up to the limit. An interrupted read is tried again.
fn read_to_limit<R: Eprint, F: Read>(
    runtime: &R,
    alloc: Global,
    path: &str,
    file: &mut F,
) -> Result<Vec<u8>, SourceFault>
    ensures short { IfOk result (λ bytes. length bytes.items ≤ SOURCE_LIMIT) }
    ensures whole { IfOk result (λ bytes. IsAllLeft (F.remaining file.old) bytes.items) }
    ensures too_long { IsErrOf result SourceFault.TooLong → HasMoreLeft (F.remaining file.old) SOURCE_LIMIT }
{
    let mut bytes = Vec::new(alloc);
    // One byte past the limit tells that more remained.
    if bytes.resize(SOURCE_LIMIT + 1, 0).is_err() {
        return Err(SourceFault::Memory);
    }
    let count = match read_on(file, &mut bytes) {
        Ok(count) => count,
        Err(reason) => return Err(fault_told(runtime, path, &reason)),
    };
    if count > SOURCE_LIMIT {
        return Err(SourceFault::TooLong);
    }
    bytes.truncate(count);
    Ok(bytes)
}
