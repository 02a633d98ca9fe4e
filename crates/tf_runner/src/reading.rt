//! The flow files of a board's jobs are read before any of them is claimed.
ghost use Rattle.std.specs.Prelude.{◌≡◌, ◌≤◌, true, is_some, IfOk, IsErrOf, OnOk};
ghost use Rattle.tf_numbers.specs.Numbers.{Rises};
ghost use Rattle.tf_board.specs.Seeking.{details_at};
ghost use Rattle.tf_ports.specs.Ports.{Contents, TellsStill};
ghost use Rattle.tf_runner.specs.Reading.{AreKept, AreReadFrom, HasFileOf, HasLineFile, HaveFiles, IsContent, found_in};

use crate::files::{Content, JobFile, find};
use std::alloc::Global;
use tf_board::Board;
use tf_desk::Desk;
use tf_ports::{SourceFault, Sources};
use tf_report::JobLine;
use tf_states::JobState;
use tf_values::{Text, Val};

/// The flow files that the details of a board's jobs name which nobody has, each read once, in the order of the list. One that
/// is longer than a flow file may be is kept as such.
pub(crate) fn read_files<K: Desk, S: Sources>(
    alloc: Global,
    board: &Board<K>,
    sources: &mut S,
) -> Result<Vec<JobFile>, SourceFault>
    ensures read { IfOk result (λ files. AreReadFrom (S.contents sources.new) files.items) }
    ensures all { IfOk result (λ files. HaveFiles board.now.past files.items) }
    ensures cause { IsErrOf result SourceFault.Read → Rises (S.faults sources.old) (S.faults sources.new) }
    ensures no_fall { S.faults sources.old ≤ S.faults sources.new }
{
    let mut files = Vec::new(alloc);
    let Ok(lines) = board.list() else {
        return Err(SourceFault::Memory);
    };
    for line in &lines {
        read_job(alloc, board, line, sources, &mut files)?;
    }
    Ok(files)
}

/// The flow file of the job of a line, if nobody has it, unless it was read already.
fn read_job<K: Desk, S: Sources>(
    alloc: Global,
    board: &Board<K>,
    line: &JobLine,
    sources: &mut S,
    files: &mut Vec<JobFile>,
) -> Result<(), SourceFault>
    requires read { AreReadFrom (S.contents sources.old) files.old.items }
    ensures read { AreReadFrom (S.contents sources.new) files.new.items }
    ensures kept { AreKept files.old.items files.new.items }
    ensures has { OnOk result (HasLineFile board.now.past files.new.items line.now) }
    ensures cause { IsErrOf result SourceFault.Read → Rises (S.faults sources.old) (S.faults sources.new) }
    ensures no_fall { S.faults sources.old ≤ S.faults sources.new }
{
    match line.state {
        JobState::Unclaimed => read_details(alloc, board, line.number, sources, files),
        _ => Ok(()),
    }
}

/// The flow file that the details of the job of a number name, if they are its name, unless it was read already.
fn read_details<K: Desk, S: Sources>(
    alloc: Global,
    board: &Board<K>,
    number: u64,
    sources: &mut S,
    files: &mut Vec<JobFile>,
) -> Result<(), SourceFault>
    requires read { AreReadFrom (S.contents sources.old) files.old.items }
    ensures read { AreReadFrom (S.contents sources.new) files.new.items }
    ensures kept { AreKept files.old.items files.new.items }
    ensures has { OnOk result (HasFileOf files.new.items (details_at board.now.past number)) }
    ensures cause { IsErrOf result SourceFault.Read → Rises (S.faults sources.old) (S.faults sources.new) }
    ensures no_fall { S.faults sources.old ≤ S.faults sources.new }
{
    match board.details_of(number) {
        Some(Val::Text(name)) => read_file(alloc, name, sources, files),
        _ => Ok(()),
    }
}

/// The flow file of a name, unless it was read already.
fn read_file<S: Sources>(
    alloc: Global,
    name: &Text,
    sources: &mut S,
    files: &mut Vec<JobFile>,
) -> Result<(), SourceFault>
    requires read { AreReadFrom (S.contents sources.old) files.old.items }
    ensures read { AreReadFrom (S.contents sources.new) files.new.items }
    ensures kept { AreKept files.old.items files.new.items }
    ensures has { OnOk result (is_some (found_in files.new.items name.now) ≡ true) }
    ensures cause { IsErrOf result SourceFault.Read → Rises (S.faults sources.old) (S.faults sources.new) }
    ensures no_fall { S.faults sources.old ≤ S.faults sources.new }
{
    if find(files, name).is_some() {
        return Ok(());
    }
    match content_of(alloc, name, sources) {
        Ok(content) => keep_file(alloc, name, content, files),
        Err(fault) => Err(fault),
    }
}

/// What the sources have under a name: its bytes, or that they are too many.
fn content_of<S: Sources>(
    alloc: Global,
    name: &Text,
    sources: &mut S,
) -> Result<Content, SourceFault>
    ensures content { IfOk result (IsContent (S.contents sources.new) name.now) }
    ensures cause { IsErrOf result SourceFault.Read → Rises (S.faults sources.old) (S.faults sources.new) }
    ensures no_fall { S.faults sources.old ≤ S.faults sources.new }
    ensures still { TellsStill (S.contents sources.old) (S.contents sources.new) }
{
    match sources.read_stored(alloc, name) {
        Ok(bytes) => Ok(Content::Bytes(bytes)),
        Err(SourceFault::TooLong) => Ok(Content::TooLong),
        Err(SourceFault::Read) => Err(SourceFault::Read),
        Err(SourceFault::Memory) => Err(SourceFault::Memory),
    }
}

/// Keeps what was read under a name behind the other files.
fn keep_file(
    alloc: Global,
    name: &Text,
    content: Content,
    files: &mut Vec<JobFile>,
) -> Result<(), SourceFault>
    ensures read { (contents : Contents) → AreReadFrom contents files.old.items → IsContent contents name.now content
        → AreReadFrom contents files.new.items }
    ensures kept { AreKept files.old.items files.new.items }
    ensures has { OnOk result (is_some (found_in files.new.items name.now) ≡ true) }
    ensures memory { ¬ (IsErrOf result SourceFault.Read) }
{
    let Ok(name) = name.copy(alloc) else {
        return Err(SourceFault::Memory);
    };
    let Ok(()) = files.push(JobFile { name, content }) else {
        return Err(SourceFault::Memory);
    };
    Ok(())
}
