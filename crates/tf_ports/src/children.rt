ghost use Rattle.std.specs.Prelude.{◌≡◌, ◌≤◌, [], length, Some, IfOk};
ghost use Rattle.tf_ports.specs.Remaining.{IsFirstLeft};

use crate::programs::{Done, OUTPUT_LIMIT, Output, ProgramRun, SpawnFault, Spawner};
use std::alloc::Global;
use std::io::{self, Eprint, Error, ErrorKind, Read};
use std::process::{Command, Processes, Stdio};
use tf_desk::{read_on, tell_reason};
use tf_log::Log;
use tf_values::{Text, Texts};

/// The real spawner: a program is a child of this process, with no input, and it has this process's standard
/// error. Where a program can't be run the system's reason is said there. It notes and tells which programs it
/// ran, and how each ended.
#[derive(Drop)]
pub struct Children<R> {
    runtime: R,
    faults: u64,
    runs: Log<ProgramRun, Done>,
}

impl<R> Children<R> {
    /// A spawner with nothing run and no fault so far.
    pub fn make(runtime: R) -> Children<R>
        ensures unrun { result.runs.items ≡ [] }
        ensures none { result.faults ≡ 0 }
    {
        Children {
            runtime,
            faults: 0,
            runs: Log::new(),
        }
    }
}

impl<R: Processes + Eprint + Drop> Spawner for Children<R> {
    ghost faults = { λ children. children.faults };

    ghost answers = { λ _ _ _ _. Unit {0} };

    ghost ran = { λ children. Some children.runs.items };

    fn run(&mut self, alloc: Global, program: &Text, args: &Texts) -> Result<Done, SpawnFault> {
        let Ok(run) = ProgramRun::make(alloc, program, args) else {
            return Err(SpawnFault::Memory);
        };
        match run_child(&self.runtime, alloc, program, args) {
            Ok(done) => {
                self.runs = self.runs.and(&run, &done);
                Ok(done)
            }
            Err(SpawnFault::Failed) => {
                self.faults = self.faults.saturating_add(1);
                Err(SpawnFault::Failed)
            }
            Err(SpawnFault::Memory) => Err(SpawnFault::Memory),
        }
    }
}

/// Starts a child, reads its output and waits for its end.
fn run_child<R: Processes + Eprint>(
    runtime: &R,
    alloc: Global,
    program: &Text,
    args: &Texts,
) -> Result<Done, SpawnFault>
    ensures short { IfOk result (λ done. length done.out ≤ OUTPUT_LIMIT) }
{
    let mut command = command_of(alloc, program, args)?;
    let mut child = match command.spawn(runtime) {
        Ok(child) => child,
        Err(reason) => return Err(fault_told(runtime, program, &reason)),
    };
    let Some(output) = child.stdout.take() else {
        return Err(SpawnFault::Failed);
    };
    let kept = read_output(alloc, output);
    let status = match child.wait() {
        Ok(status) => status,
        Err(reason) => return Err(fault_told(runtime, program, &reason)),
    };
    let bytes = match kept {
        Ok(bytes) => bytes,
        Err(reason) => return Err(fault_told(runtime, program, &reason)),
    };
    Ok(Done {
        status: status.code().unwrap_or(-1),
        out: Output::make(bytes),
    })
}

/// The fault of a program that couldn't be run: want of memory, or the fault whose reason is told here.
fn fault_told<R: Eprint>(runtime: &R, program: &Text, reason: &Error) -> SpawnFault {
    if reason.kind() == ErrorKind::OutOfMemory {
        return SpawnFault::Memory;
    }
    if let Ok(name) = str::from_utf8(program.bytes()) {
        tell_reason(runtime, name, reason);
    }
    SpawnFault::Failed
}

/// The program with its arguments, with no input and with its output collected.
fn command_of(alloc: Global, program: &Text, args: &Texts) -> Result<Command, SpawnFault> {
    let Ok(name) = str::from_utf8(program.bytes()) else {
        return Err(SpawnFault::Failed);
    };
    let Ok(mut command) = Command::new(alloc, name) else {
        return Err(SpawnFault::Memory);
    };
    for arg in args.items() {
        let Ok(text) = str::from_utf8(arg.bytes()) else {
            return Err(SpawnFault::Failed);
        };
        if command.arg(text).is_err() {
            return Err(SpawnFault::Memory);
        }
    }
    command.stdin(Stdio::null());
    command.stdout(Stdio::piped());
    command.stderr(Stdio::inherit());
    Ok(command)
}

/// Reads an output to its end, and keeps as many of its bytes as are kept. An interrupted read is tried
/// again. The output is closed then.
#[tactic(auto, using(crate::proofs::RemainingLemmas::first_left))]
fn read_output<F: Read + Drop>(alloc: Global, mut output: F) -> io::Result<Vec<u8>>
    ensures short { IfOk result (λ bytes. length bytes.items ≤ OUTPUT_LIMIT) }
    ensures first { IfOk result (λ bytes. IsFirstLeft (F.remaining output) OUTPUT_LIMIT bytes.items) }
{
    let mut bytes = Vec::new(alloc);
    if bytes.resize(OUTPUT_LIMIT, 0).is_err() {
        return Err(Error::from(ErrorKind::OutOfMemory));
    }
    let count = read_on(&mut output, &mut bytes)?;
    read_out(&mut output)?;
    bytes.truncate(count);
    Ok(bytes)
}

/// Reads what is left and drops it.
fn read_out<F: Read>(output: &mut F) -> io::Result<()> {
    let mut piece = [0; 8192];
    for _ in 0..u64::MAX {
        if read_on(output, &mut piece)? < 8192 {
            return Ok(());
        }
    }
    Err(Error::from(ErrorKind::FileTooLarge))
}
