//! How the bodies of a book are read, one after another.
ghost use Rattle.std.specs.Prelude.{◌≡◌, ◌<◌, ◌++◌, [], List, IfOk, IsErrOf, MatchOption};
ghost use Rattle.tf_flow.specs.Plan.{PlanValue};
ghost use Rattle.tf_entries.specs.Heads.{IsHead, BeginsWith, head_bytes};
ghost use Rattle.tf_entries.specs.Plans.{plan_bytes};
ghost use Rattle.tf_entries.specs.declared.heads.Head.{Head as AHead};
ghost use Rattle.tf_machine.specs.Answers.{IsBuildRefusal};
ghost use Rattle.tf_machine.specs.Machine.{StandsFor};
ghost use Rattle.tf_details.specs.Elements.{Element, IsHistoryOf, CanRun, IsNoPlan, IsNoEntry};
ghost use Rattle.tf_details.specs.Reading.{AreMachinesOf, IsReadEntry};

use crate::details::Details;
use std::alloc::Global;
use tf_entries::{Head, decode_entry, decode_plan, take_head};
use tf_machine::{BuildFault, Machine};
use tf_states::Entry;
use tf_values::MakeFault;

/// The head of a body, and the form behind it; none where it begins with no head.
pub fn split(body: &[u8]) -> Option<(Head, &[u8])>
    ensures { MatchOption result ((first : AHead) → BeginsWith body.now first → ⊥)
        (λ found. IsHead found.0 × (body.now ≡ head_bytes found.0 ++ found.1.now)) }
{
    match take_head(body) {
        Some((head, len)) => Some((head, &body[len..])),
        None => None,
    }
}

/// Why a plan is refused of which no machine was made.
#[tactic(auto, using(crate::proofs::PlanLemmas::refused_plan))]
fn unfit(fault: &BuildFault) -> MakeFault
    ensures { result ≡ MakeFault.No → (plan : PlanValue) → IsBuildRefusal plan fault.now → ¬ (CanRun plan) }
{
    match fault {
        BuildFault::Memory => MakeFault::Memory,
        BuildFault::Compile(_) | BuildFault::Scope(_) => MakeFault::No,
    }
}

/// The machine of the plan of these bytes, before a run. `No` comes where they are no plan's form, or where the
/// plan doesn't compile or lacks a symbol.
#[tactic(auto, using(crate::proofs::PlanLemmas::not_begun))]
pub fn read_plan(alloc: Global, form: &[u8]) -> Result<Machine, MakeFault>
    ensures form { IfOk result (λ machine. plan_bytes machine.plan ≡ form.now) }
    ensures fresh { IfOk result (λ machine. StandsFor machine []) }
    ensures history { IfOk result (λ machine. IsHistoryOf machine.plan []) }
    ensures refused { IsErrOf result MakeFault.No → IsNoPlan form.now }
{
    let plan = decode_plan(alloc, form)?;
    // What the plan's type keeps is read here: it is within every limit and rule.
    let _root = plan.root();
    match Machine::make(alloc, plan) {
        Ok(machine) => Ok(machine),
        Err(fault) => {
            let why = unfit(&fault);
            drop(fault);
            Err(why)
        }
    }
}

impl Details {
    /// The entry of these bytes in the plan of a detail. `No` comes where there is no such detail, or where no entry
    /// of its plan has them.
    pub fn decode(&self, alloc: Global, number: u16, form: &[u8]) -> Result<Entry, MakeFault>
        ensures read { IfOk result (λ e. IsReadEntry self.now number form.now e) }
        ensures refused { IsErrOf result MakeFault.No → (book : List Element) → AreMachinesOf self.now book
            → IsNoEntry book number form.now }
    {
        if number >= self.count() {
            return Err(MakeFault::No);
        }
        decode_entry(alloc, self.machine(number).plan(), form)
    }
}
