ghost use Rattle.std.specs.Prelude.{◌≡◌, ◌≤◌, [], length, take, Some, IsErrOf, IfOk, option_map};
ghost use Rattle.tf_numbers.specs.Numbers.{Rises};
ghost use Rattle.tf_ports.specs.MemorySpawner.{EndsAs, end_of, end_at, kept_of};

use crate::programs::{Done, OUTPUT_LIMIT, Output, ProgramRun, SpawnFault, Spawner};
use std::alloc::Global;
use std::marker::Model;
use tf_log::Log;
use tf_values::{Memory, Text, Texts};

/// A program in memory: its name, and how it ends whatever its arguments are.
#[derive(Drop)]
pub struct MemoryProgram {
    pub name: Text,
    pub ends: Done,
}

/// A spawner in memory, which keeps what it ran and tells how each ended. Its calls are numbered from 1, and the stated ones fail; so does one for a name
/// that has no program.
#[derive(Drop)]
pub struct MemorySpawner {
    programs: Vec<MemoryProgram>,
    ran: Vec<ProgramRun>,
    ended: Log<ProgramRun, Done>,
    made: u64,
    failing: Vec<u64>,
    faults: u64,
}

impl Model for MemorySpawner {
    ghost use Rattle.tf_ports.specs.MemorySpawner.{HeldBySpawner};

    ghost Value = { HeldBySpawner };

    ghost view = { λ held. record {
      programs = held.programs.items;
      ran = held.ran.items;
      ended = held.ended.items;
      faults = held.faults;
    } };
}

impl MemorySpawner {
    /// These programs, of which the first of a name counts, with none run and no fault so far.
    pub fn make(alloc: Global, programs: Vec<MemoryProgram>, failing: Vec<u64>) -> MemorySpawner
        ensures held { result.programs ≡ programs.items }
        ensures unrun { (result.ran ≡ []) × (result.ended ≡ []) }
        ensures none { result.faults ≡ 0 }
    {
        MemorySpawner {
            programs,
            ran: Vec::new(alloc),
            ended: Log::new(),
            made: 0,
            failing,
            faults: 0,
        }
    }

    /// The programs that were run, in order.
    pub fn ran(&self) -> &[ProgramRun]
        ensures { result.now ≡ self.now.ran }
    {
        &self.ran
    }

    fn fault(&mut self) -> Result<Done, SpawnFault>
        ensures failed { IsErrOf result SpawnFault.Failed }
        ensures same { self.new.programs ≡ self.old.programs }
        ensures unrun { (self.new.ran ≡ self.old.ran) × (self.new.ended ≡ self.old.ended) }
        ensures rose { Rises self.old.faults self.new.faults }
        ensures no_fall { self.old.faults ≤ self.new.faults }
    {
        self.faults = self.faults.saturating_add(1);
        Err(SpawnFault::Failed)
    }
}

impl Spawner for MemorySpawner {
    ghost faults = { λ held. held.faults };

    ghost answers = { EndsAs };

    ghost ran = { λ held. Some held.ended };

    fn run(&mut self, alloc: Global, program: &Text, args: &Texts) -> Result<Done, SpawnFault> {
        self.made = self.made.saturating_add(1);
        if self.failing.contains(&self.made) {
            return self.fault();
        }
        let Some(found) = find(&self.programs, program) else {
            return self.fault();
        };
        let Ok(done) = finish(alloc, found) else {
            return Err(SpawnFault::Memory);
        };
        let Ok(run) = ProgramRun::make(alloc, program, args) else {
            return Err(SpawnFault::Memory);
        };
        let ended = self.ended.and(&run, &done);
        match self.ran.push(run) {
            Ok(()) => {
                self.ended = ended;
                Ok(done)
            }
            Err(_) => Err(SpawnFault::Memory),
        }
    }
}

/// The first program of that name.
fn find<'a>(programs: &'a [MemoryProgram], name: &Text) -> Option<&'a MemoryProgram>
    ensures { option_map (λ program. end_of program.now) result ≡ end_at programs.now name.now }
{
    for program in programs {
        if program.name.bytes() == name.bytes() {
            return Some(program);
        }
    }
    None
}

/// How a program ends.
fn finish(alloc: Global, program: &MemoryProgram) -> Result<Done, Memory>
    ensures ends { IfOk result (λ done. done ≡ end_of program.now) }
    ensures short { IfOk result (λ done. length done.out ≤ OUTPUT_LIMIT) }
{
    let out = Vec::from_slice(alloc, kept(program.ends.out.items()))?;
    Ok(Done {
        status: program.ends.status,
        out: Output::make(out),
    })
}

/// The bytes that are kept of an output.
fn kept(bytes: &[u8]) -> &[u8]
    ensures kept { result.now ≡ kept_of bytes.now }
    ensures short { length result.now ≤ OUTPUT_LIMIT }
{
    prefix(bytes, OUTPUT_LIMIT)
}

/// The first bytes, at most so many.
fn prefix(bytes: &[u8], limit: usize) -> &[u8]
    ensures prefix { result.now ≡ take limit bytes.now }
    ensures short { length result.now ≤ limit }
{
    if bytes.len() <= limit {
        return bytes;
    }
    &bytes[..limit]
}
