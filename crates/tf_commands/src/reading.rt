//! Flow files: from a name to a machine before a run of the plan that the file gives.

ghost use Rattle.std.specs.Prelude.{◌≡◌, ◌≢◌, ◌≤◌, [], true, false, Ok, Err, OnOk, IfOk, IfErr};
ghost use Rattle.tf_numbers.specs.Numbers.{Rises};
ghost use Rattle.tf_flow.specs.Plan.{plan_tree};
ghost use Rattle.tf_machine.specs.Machine.{StandsFor};
ghost use Rattle.tf_accept.specs.Accepted.{GivesPlan, is_want_of_memory};
ghost use Rattle.tf_commands.specs.Messages.{refusal, reason_text};
ghost use Rattle.tf_commands.specs.Behaviour.{BytesRead, FileRead, Undone};
ghost use Rattle.tf_commands.specs.Books.{NoFileChanges, OnlySays, HasSaid};
ghost use Rattle.tf_commands.specs.Opened.{Opened};
ghost use Rattle.tf_report.specs.Closing.{ClosesWithOrStops};

use crate::messages::{TOO_LONG, append_refusal};
use std::alloc::Global;
use tf_accept::{Refusal, accept};
use tf_desk::Desk;
use tf_flow::Binds;
use tf_machine::Machine;
use tf_ports::{SourceFault, Sources};
use tf_report::{CANNOT_READ, DISK_FAILED, OUT_OF_MEMORY, REFUSED, UNHIRED, UNREAD, UNSAID, close};
use tf_values::{Name, Text};

/// The flow file that is asked for, the values that its store gets besides, whether reverts are deferred, and up to which
/// target it goes, if to one.
#[derive(Drop)]
pub struct Source {
    pub file: Text,
    pub sets: Binds,
    pub defer: bool,
    pub target: Option<Name>,
}

/// A machine before a run of the plan that the file gives; or the status, where it can't be read or is
/// refused, which is said.
pub fn open_file<K: Desk, S: Sources>(
    alloc: Global,
    source: Source,
    desk: &mut K,
    sources: &mut S,
) -> Result<Machine, u8>
    ensures opened { IfOk result (Opened (S.contents sources.new) source) }
    ensures empty { IfOk result (λ machine. StandsFor machine []) }
    ensures same { OnOk result (desk.new ≡ desk.old) }
    ensures closed { IfErr result (FileRead (S.contents sources.new) source
        (NoFileChanges (K.state desk.old) (K.state desk.new)) Undone
        (K.state desk.old).shown (K.state desk.new).shown) }
    ensures says { OnlySays (K.state desk.old) (K.state desk.new) }
    ensures unread { result ≡ Err UNREAD → Rises (S.faults sources.old) (S.faults sources.new) }
    ensures unsaid { result ≡ Err UNSAID → Rises (K.state desk.old).out_faults (K.state desk.new).out_faults }
    ensures apart { (result ≢ Err UNHIRED) × (result ≢ Err DISK_FAILED) }
    ensures no_source_fall { S.faults sources.old ≤ S.faults sources.new }
{
    match sources.read_all(alloc, &source.file) {
        Ok(bytes) => open_bytes(alloc, &bytes, source, desk),
        Err(SourceFault::Read) => Err(close(CANNOT_READ, UNREAD, desk)),
        Err(SourceFault::TooLong) => Err(close(TOO_LONG, REFUSED, desk)),
        Err(SourceFault::Memory) => Err(OUT_OF_MEMORY),
    }
}

/// A machine before a run of the plan that the bytes give; or the status, where they are refused.
fn open_bytes<K: Desk>(
    alloc: Global,
    bytes: &[u8],
    source: Source,
    desk: &mut K,
) -> Result<Machine, u8>
    ensures opened { IfOk result (λ machine. GivesPlan source.sets source.defer source.target
        bytes.now (plan_tree machine.plan)) }
    ensures empty { IfOk result (λ machine. StandsFor machine []) }
    ensures same { OnOk result (desk.new ≡ desk.old) }
    ensures closed { IfErr result (BytesRead source bytes.now
        (NoFileChanges (K.state desk.old) (K.state desk.new)) Undone
        (K.state desk.old).shown (K.state desk.new).shown) }
    ensures says { OnlySays (K.state desk.old) (K.state desk.new) }
    ensures unsaid { result ≡ Err UNSAID → Rises (K.state desk.old).out_faults (K.state desk.new).out_faults }
    ensures apart { (result ≢ Err UNREAD) × (result ≢ Err UNHIRED) × (result ≢ Err DISK_FAILED) }
{
    let Source {
        file,
        sets,
        defer,
        target,
    } = source;
    drop(file);
    match accept(alloc, bytes, sets, defer, target) {
        Ok(machine) => Ok(machine),
        Err(reason) => Err(refuse(alloc, &reason, desk)),
    }
}

/// Says why a flow file is refused, unless memory ran out.
fn refuse<K: Desk>(alloc: Global, reason: &Refusal, desk: &mut K) -> u8
    ensures memory { is_want_of_memory reason.now ≡ true
        → (result ≡ OUT_OF_MEMORY) × ((K.state desk.new).shown ≡ (K.state desk.old).shown) }
    ensures closes { is_want_of_memory reason.now ≡ false
        → ClosesWithOrStops (K.state desk.old).shown (refusal (reason_text reason.now)) REFUSED
        (K.state desk.new).shown result }
    ensures said { HasSaid (K.state desk.old) (K.state desk.new) result }
    ensures apart { (result ≢ UNHIRED) × (result ≢ DISK_FAILED) }
{
    if reason.is_memory() {
        return OUT_OF_MEMORY;
    }
    let mut text = Vec::new(alloc);
    match append_refusal(reason, &mut text) {
        Ok(()) => close(&text, REFUSED, desk),
        Err(_) => OUT_OF_MEMORY,
    }
}
