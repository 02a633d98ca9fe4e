//! A demonstration: a run of a flow that is generated from a seed and a size, recorded in a book, which says no line of an
//! entry.

ghost use Rattle.std.specs.Prelude.{◌≡◌, [], IfOk, IsTrue};
ghost use Rattle.tf_flow.specs.Plan.{plan_tree};
ghost use Rattle.tf_machine.specs.Machine.{StandsFor};
ghost use Rattle.tf_words.specs.Words.{IsDemo};
ghost use Rattle.tf_commands.specs.Asking.{demo_tree, AreHands, HasEachCause, WasAsked, counts_of};
ghost use Rattle.tf_ports.specs.declared.crews.Want.TheVariants as want;
ghost use Rattle.tf_commands.specs.Books.{Demonstrates};
ghost use Rattle.tf_commands.specs.Behaviour.{HiresAtMost};

use crate::recording::run_plan;
use crate::running::{Over, Request};
use std::alloc::Global;
use std::sync::Wait;
use std::thread::Threads;
use tf_demo::demo_plan;
use tf_desk::Desk;
use tf_machine::{BuildFault, Machine};
use tf_ports::{Crew, Want};
use tf_report::OUT_OF_MEMORY;
use tf_values::{Memory, Text};

/// Generates a flow, opens the book, hires so many hands of this process and runs the flow with them.
pub fn demo_book<K: Desk + Send, W: Crew, R: Threads + Wait + Sync>(
    rt: &R,
    alloc: Global,
    seed: u32,
    size: u16,
    name: &Text,
    hands: u8,
    desk: K,
    crew: &mut W,
) -> Over<K>
    requires numbers { IsDemo seed size }
    requires few { AreHands (want.Local hands) }
    ensures demonstrates { Demonstrates K.state W.Hand.gives (want.Local hands)
        (WasAsked (K.state desk) (K.state result.desk)) name.now
        (W.told crew.old) (W.told crew.new) desk result.desk seed size result.status }
    ensures hires { HiresAtMost (want.Local hands) (W.told crew.old) (W.told crew.new) }
    ensures falls { IsTrue (K.state result.desk).tells → IsTrue (K.state desk).tells }
    ensures causes { HasEachCause result.status (counts_of (K.state desk) 0 (W.faults crew.old))
        (counts_of (K.state result.desk) 0 (W.faults crew.new)) }
{
    let request = Request {
        want: Want::Local(hands),
        quiet: true,
        limit: None,
    };
    match generate(alloc, seed, size) {
        Ok(machine) => run_plan(rt, alloc, machine, name, &request, desk, crew),
        Err(_) => Over {
            desk,
            status: OUT_OF_MEMORY,
        },
    }
}

/// A machine before a run of the generated flow.
fn generate(alloc: Global, seed: u32, size: u16) -> Result<Machine, Memory>
    requires numbers { IsDemo seed size }
    ensures generated { IfOk result (λ machine. plan_tree machine.plan ≡ demo_tree seed size) }
    ensures empty { IfOk result (λ machine. StandsFor machine []) }
{
    let plan = demo_plan(alloc, seed, size)?;
    match Machine::make(alloc, plan) {
        Ok(machine) => Ok(machine),
        Err(BuildFault::Memory) => Err(Memory),
        Err(BuildFault::Compile(_)) | Err(BuildFault::Scope(_)) => unreachable!(),
    }
}
