//! The verdict on a log.

ghost use Rattle.std.specs.Prelude.{◌≡◌, [], None, IfOk, OnOk, IfErr};
ghost use Rattle.tf_model.specs.Plan.{compile_refusal, outline_of};
ghost use Rattle.tf_model.specs.Scope.{missing_symbol};
ghost use Rattle.tf_machine.specs.Answers.{IsBuildRefusal};
ghost use Rattle.tf_machine.specs.Machine.{outline, StandsFor};
ghost use Rattle.tf_audit.specs.Verdicts.{IsVerdict};

use crate::lines::first_line;
use crate::progress::Progress;
use crate::verdicts::Verdict;
use std::alloc::Global;
use tf_flow::Plan;
use tf_machine::{BuildFault, Machine};
use tf_values::Memory;

/// A verdict, and the machine that followed the log: it still has the plan.
#[derive(Drop)]
pub struct Audited {
    pub machine: Machine,
    pub verdict: Verdict,
}

/// The verdict on a log of the plan's runs, from their first entry on. A plan of which no machine can be made is refused as
/// it is by the machine.
pub fn audit(alloc: Global, plan: Plan, log: &[u8]) -> Result<Verdict, BuildFault>
    ensures verdict { IfOk result (IsVerdict (outline_of plan) log.now) }
    ensures accepted { OnOk result (compile_refusal plan ≡ None) }
    ensures complete { OnOk result (missing_symbol (outline_of plan) ≡ None) }
    ensures refused { IfErr result (IsBuildRefusal plan) }
{
    match Machine::make(alloc, plan) {
        Ok(machine) => {
            let Audited { machine, verdict } = audit_with(alloc, machine, log)?;
            drop(machine);
            Ok(verdict)
        }
        Err(fault) => Err(fault),
    }
}

/// The verdict on a log of runs of the plan of a machine before a run.
pub fn audit_with(alloc: Global, machine: Machine, log: &[u8]) -> Result<Audited, Memory>
    requires { StandsFor machine [] }
    ensures verdict { IfOk result (λ audited. IsVerdict (outline machine) log.now audited.verdict) }
    ensures plan { IfOk result (λ audited. audited.machine.plan ≡ machine.plan) }
{
    let mut progress = Progress::make(alloc, machine)?;
    let mut rest = log;
    let mut line = 0;
    while let Some((text, behind)) = first_line(rest) {
        line += 1;
        if let Some(why) = progress.follow(alloc, text)? {
            return Ok(Audited {
                machine: progress.machine,
                verdict: Verdict::Bad { line, why },
            });
        }
        rest = behind;
    }
    let verdict = progress.legal();
    Ok(Audited {
        machine: progress.machine,
        verdict,
    })
}
