//! An audit: a flow file and a log are read, and it is said whether the log can be that of runs of the file's plan.

ghost use Rattle.std.specs.Prelude.{◌≡◌, ◌≢◌, ◌≤◌, []};
ghost use Rattle.tf_numbers.specs.Numbers.{Rises};
ghost use Rattle.tf_flow.specs.Plan.{plan_tree};
ghost use Rattle.tf_machine.specs.Machine.{outline, StandsFor};
ghost use Rattle.tf_ports.specs.Ports.{TellsStill};
ghost use Rattle.tf_commands.specs.Messages.{Audits, Judges, verdict_status};
ghost use Rattle.tf_commands.specs.Behaviour.{FileRead};
ghost use Rattle.tf_commands.specs.Books.{NoFileChanges, OnlySays, HasSaid};

use crate::messages::LOG_TOO_LONG;
use crate::reading::{Source, open_file};
use std::alloc::Global;
use tf_audit::{Audited, Verdict, append_verdict, audit_with};
use tf_desk::Desk;
use tf_machine::Machine;
use tf_ports::{SourceFault, Sources};
use tf_report::{
    CANNOT_READ, DISK_FAILED, OUT_OF_MEMORY, SUCCEEDED, UNHIRED, UNREAD, UNSAID, close,
};
use tf_values::Text;

/// The exit status of an audit: the log has a line that can't be, or is longer than a log may be.
pub const LOG_REFUSED: u8 = 17;

/// Reads the flow file and the log, and says the verdict on the log.
pub fn audit_file<K: Desk, S: Sources>(
    alloc: Global,
    source: Source,
    log: &Text,
    desk: &mut K,
    sources: &mut S,
) -> u8
    ensures audited { FileRead (S.contents sources.new) source (NoFileChanges (K.state desk.old) (K.state desk.new))
        (Audits (S.contents sources.new) log.now (K.state desk.old).shown (K.state desk.new).shown)
        (K.state desk.old).shown (K.state desk.new).shown result }
    ensures says { OnlySays (K.state desk.old) (K.state desk.new) }
    ensures unread { result ≡ UNREAD → Rises (S.faults sources.old) (S.faults sources.new) }
    ensures unsaid { result ≡ UNSAID → Rises (K.state desk.old).out_faults (K.state desk.new).out_faults }
    ensures apart { (result ≢ UNHIRED) × (result ≢ DISK_FAILED) }
    ensures no_source_fall { S.faults sources.old ≤ S.faults sources.new }
{
    match open_file(alloc, source, desk, sources) {
        Ok(machine) => audit_log(alloc, machine, log, desk, sources),
        Err(status) => status,
    }
}

/// Reads a log of runs of a machine's plan, and says the verdict on it.
fn audit_log<K: Desk, S: Sources>(
    alloc: Global,
    machine: Machine,
    log: &Text,
    desk: &mut K,
    sources: &mut S,
) -> u8
    requires { StandsFor machine [] }
    ensures audits { Audits (S.contents sources.new) log.now (K.state desk.old).shown (K.state desk.new).shown
        (plan_tree machine.plan) result }
    ensures says { OnlySays (K.state desk.old) (K.state desk.new) }
    ensures unread { result ≡ UNREAD → Rises (S.faults sources.old) (S.faults sources.new) }
    ensures unsaid { result ≡ UNSAID → Rises (K.state desk.old).out_faults (K.state desk.new).out_faults }
    ensures apart { (result ≢ UNHIRED) × (result ≢ DISK_FAILED) }
    ensures no_source_fall { S.faults sources.old ≤ S.faults sources.new }
    ensures still { TellsStill (S.contents sources.old) (S.contents sources.new) }
{
    match sources.read_all(alloc, log) {
        Ok(bytes) => judge(alloc, machine, &bytes, desk),
        Err(SourceFault::Read) => close(CANNOT_READ, UNREAD, desk),
        Err(SourceFault::TooLong) => close(LOG_TOO_LONG, LOG_REFUSED, desk),
        Err(SourceFault::Memory) => OUT_OF_MEMORY,
    }
}

/// Says the verdict on a log of runs of a machine's plan, unless memory runs out.
fn judge<K: Desk>(alloc: Global, machine: Machine, log: &[u8], desk: &mut K) -> u8
    requires { StandsFor machine [] }
    ensures judges { Judges (outline machine) log.now (K.state desk.old).shown (K.state desk.new).shown result }
    ensures said { HasSaid (K.state desk.old) (K.state desk.new) result }
    ensures apart { (result ≢ UNHIRED) × (result ≢ DISK_FAILED) }
{
    let Ok(Audited { machine, verdict }) = audit_with(alloc, machine, log) else {
        return OUT_OF_MEMORY;
    };
    let status = status_of(&verdict);
    let mut text = Vec::new(alloc);
    match append_verdict(alloc, machine.plan(), verdict, &mut text) {
        Ok(()) => close(&text, status, desk),
        Err(_) => OUT_OF_MEMORY,
    }
}

/// The status that tells a verdict.
fn status_of(verdict: &Verdict) -> u8
    ensures { result ≡ verdict_status verdict.now }
{
    match verdict {
        Verdict::Legal { .. } => SUCCEEDED,
        Verdict::Bad { .. } => LOG_REFUSED,
    }
}
