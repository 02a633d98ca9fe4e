ghost use Rattle.std.specs.Prelude.{◌≡◌, [], ℕ, List, Bool, Option, None, Some, IfOk, IfErr};
ghost use Rattle.tf_flow.specs.Plan.{plan_tree};
ghost use Rattle.tf_flow.specs.declared.atoms.Bind.{Bind};
ghost use Rattle.tf_model.specs.Plan.{compile_refusal, outline_of};
ghost use Rattle.tf_model.specs.Scope.{missing_symbol};
ghost use Rattle.tf_machine.specs.Answers.{IsBuildRefusal};
ghost use Rattle.tf_machine.specs.Machine.{StandsFor};
ghost use Rattle.tf_accept.specs.Accepted.{GivesPlan, GivesWhole, IsUpTo, Spells, IsReason, target_reason};

use std::alloc::Global;
use tf_files::{FileFault, read_flow};
use tf_flow::{Binds, Plan};
use tf_machine::{BuildFault, Machine};
use tf_order::CompileFault;
use tf_scopes::ScopeFault;
use tf_target::{TargetFault, target as plan_up_to};
use tf_values::{Memory, Name};

/// Why a flow file gives no plan to run.
#[derive(Debug, Drop)]
pub enum Refusal {
    /// It spells none.
    File(FileFault),
    /// Its plan doesn't compile.
    Compile(CompileFault),
    /// An atom of its plan takes a symbol that nobody gives it.
    Scope(ScopeFault),
    /// Its plan has nothing up to the target that is named.
    Target(TargetFault),
    /// Memory ran out. It says nothing of the file.
    Memory,
}

impl Refusal {
    ghost use Rattle.tf_accept.specs.Accepted.{is_want_of_memory};

    /// Whether memory ran out.
    pub fn is_memory(&self) -> bool
        ensures { result ≡ is_want_of_memory self.now }
    {
        matches!(self, Refusal::Memory)
    }
}

/// A machine before a run of the plan that the bytes of a flow file give with these values beside its
/// store's, its reverts deferred or not, up to the target if one is named; or the first reason why they give none.
pub fn accept(
    alloc: Global,
    bytes: &[u8],
    sets: Binds,
    defer: bool,
    target: Option<Name>,
) -> Result<Machine, Refusal>
    ensures ok { IfOk result (λ machine. GivesPlan sets defer target bytes.now (plan_tree machine.plan)) }
    ensures empty { IfOk result (λ machine. StandsFor machine []) }
    ensures refused { IfErr result (IsReason sets defer target bytes.now) }
{
    let plan = read(alloc, bytes, sets, defer)?;
    let machine = compile(alloc, plan)?;
    match target {
        Some(name) => up_to(alloc, &machine, &name),
        None => Ok(machine),
    }
}

/// The plan that the bytes of a flow file spell.
fn read(alloc: Global, bytes: &[u8], sets: Binds, defer: bool) -> Result<Plan, Refusal>
    ensures ok { IfOk result (λ plan. Spells sets defer bytes.now (plan_tree plan)) }
    ensures refused { (target : Option (List ℕ)) → IfErr result (IsReason sets defer target bytes.now) }
{
    match read_flow(alloc, bytes, sets, defer) {
        Ok(plan) => Ok(plan),
        Err(fault) => {
            if fault.is_memory() {
                Err(Refusal::Memory)
            } else {
                Err(Refusal::File(fault))
            }
        }
    }
}

/// A machine before a run of the plan.
fn compile(alloc: Global, plan: Plan) -> Result<Machine, Refusal>
    ensures given { IfOk result (λ machine. machine.plan ≡ plan) }
    ensures empty { IfOk result (λ machine. StandsFor machine []) }
    ensures accepted { IfOk result (λ machine. compile_refusal plan ≡ None) }
    ensures provided { IfOk result (λ machine. missing_symbol (outline_of plan) ≡ None) }
    ensures refused { (sets : List Bind) (defer : Bool) (target : Option (List ℕ)) (bytes : List ℕ)
        → Spells sets defer bytes (plan_tree plan) → IfErr result (IsReason sets defer target bytes) }
{
    match Machine::make(alloc, plan) {
        Ok(machine) => Ok(machine),
        Err(BuildFault::Compile(fault)) => Err(Refusal::Compile(fault)),
        Err(BuildFault::Scope(fault)) => Err(Refusal::Scope(fault)),
        Err(BuildFault::Memory) => Err(Refusal::Memory),
    }
}

/// A machine before a run of what the plan of a machine has up to a target.
fn up_to(alloc: Global, whole: &Machine, name: &Name) -> Result<Machine, Refusal>
    ensures target { IfOk result (λ machine. IsUpTo (plan_tree whole.now.plan) name.now (plan_tree machine.plan)) }
    ensures empty { IfOk result (λ machine. StandsFor machine []) }
    ensures refused { (sets : List Bind) (defer : Bool) (bytes : List ℕ)
        → GivesWhole sets defer bytes (plan_tree whole.now.plan)
        → IfErr result (IsReason sets defer (Some name.now) bytes) }
{
    match plan_up_to(alloc, whole.plan(), name) {
        Ok(plan) => match build(alloc, plan) {
            Ok(machine) => Ok(machine),
            Err(_) => Err(Refusal::Memory),
        },
        Err(fault) => Err(reason_of(fault)),
    }
}

/// Why a target is refused, as a reason why a flow file gives no plan.
fn reason_of(fault: TargetFault) -> Refusal
    ensures { result ≡ target_reason fault }
{
    match fault {
        TargetFault::Memory => Refusal::Memory,
        TargetFault::NotAGraph => Refusal::Target(TargetFault::NotAGraph),
        TargetFault::UnknownTarget(name) => Refusal::Target(TargetFault::UnknownTarget(name)),
        TargetFault::Empty => Refusal::Target(TargetFault::Empty),
    }
}

/// A machine before a run of a plan that compiles and in which no symbol is missing.
fn build(alloc: Global, plan: Plan) -> Result<Machine, Memory>
    requires compiles { compile_refusal plan ≡ None }
    requires provided { missing_symbol (outline_of plan) ≡ None }
    ensures given { IfOk result (λ machine. machine.plan ≡ plan) }
    ensures empty { IfOk result (λ machine. StandsFor machine []) }
{
    match Machine::make(alloc, plan) {
        Ok(machine) => Ok(machine),
        Err(BuildFault::Memory) => Err(Memory),
        Err(BuildFault::Compile(_)) | Err(BuildFault::Scope(_)) => unreachable!(),
    }
}
