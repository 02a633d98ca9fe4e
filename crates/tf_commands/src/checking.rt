//! A check: a flow file is read, and what its flow has is said.

ghost use Rattle.std.specs.Prelude.{◌≡◌, ◌≢◌, ◌≤◌};
ghost use Rattle.tf_numbers.specs.Numbers.{Rises};
ghost use Rattle.tf_model.specs.Plan.{outline_of};
ghost use Rattle.tf_commands.specs.Behaviour.{FileRead, Checks};
ghost use Rattle.tf_commands.specs.Books.{NoFileChanges, OnlySays, HasSaid};
ghost use Rattle.tf_commands.specs.Messages.{checked};
ghost use Rattle.tf_report.specs.Closing.{ClosesWithOrStops};

use crate::messages::append_checked;
use crate::reading::{Source, open_file};
use std::alloc::Global;
use tf_desk::Desk;
use tf_flow::Plan;
use tf_ports::Sources;
use tf_report::{DISK_FAILED, OUT_OF_MEMORY, SUCCEEDED, UNHIRED, UNREAD, UNSAID, close};

/// Reads the file and says what its flow has.
pub fn check_file<K: Desk, S: Sources>(
    alloc: Global,
    source: Source,
    desk: &mut K,
    sources: &mut S,
) -> u8
    ensures checked { FileRead (S.contents sources.new) source (NoFileChanges (K.state desk.old) (K.state desk.new))
        (Checks (K.state desk.old).shown (K.state desk.new).shown)
        (K.state desk.old).shown (K.state desk.new).shown result }
    ensures says { OnlySays (K.state desk.old) (K.state desk.new) }
    ensures unread { result ≡ UNREAD → Rises (S.faults sources.old) (S.faults sources.new) }
    ensures unsaid { result ≡ UNSAID → Rises (K.state desk.old).out_faults (K.state desk.new).out_faults }
    ensures apart { (result ≢ UNHIRED) × (result ≢ DISK_FAILED) }
    ensures no_source_fall { S.faults sources.old ≤ S.faults sources.new }
{
    match open_file(alloc, source, desk, sources) {
        Ok(machine) => say_checked(alloc, machine.plan(), desk),
        Err(status) => status,
    }
}

/// Says what a plan has.
fn say_checked<K: Desk>(alloc: Global, plan: &Plan, desk: &mut K) -> u8
    ensures closes { ClosesWithOrStops (K.state desk.old).shown (checked (outline_of plan.now)) SUCCEEDED
        (K.state desk.new).shown result }
    ensures said { HasSaid (K.state desk.old) (K.state desk.new) result }
    ensures apart { (result ≢ UNHIRED) × (result ≢ DISK_FAILED) }
{
    let mut text = Vec::new(alloc);
    match append_checked(plan, &mut text) {
        Ok(()) => close(&text, SUCCEEDED, desk),
        Err(_) => OUT_OF_MEMORY,
    }
}
