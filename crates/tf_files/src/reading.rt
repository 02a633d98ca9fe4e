ghost use Rattle.std.specs.Prelude.{◌≡◌, Bool, List, Some, Ok, IfOk, IfErr};
ghost use Rattle.tf_files.specs.document.Reading.{RefusesWith, chain};
ghost use Rattle.tf_files.specs.FlowFile.{flow_of, root_form as root_spelled, documented, document_of, planned, plan_refusal, IsBroken, IsFirstReason};
ghost use Rattle.tf_flow.specs.Plan.{as_written, plan_tree, plan_as_written};
ghost use Rattle.tf_flow.specs.Tree.{tree_of};
ghost use Rattle.tf_flow.specs.declared.atoms.Bind.{Bind as BindValue};
ghost use Rattle.tf_flow.specs.declared.faults.PlanFault.{PlanFault as BrokenRule};
ghost use Rattle.toml.specs.View.{table_view};

use crate::document::FileFault;
use crate::flows::root_form;
use crate::store::store_with;
use std::alloc::Global;
use tf_flow::{Binds, Flow, Plan, PlanFault};
use toml::Table;

/// The plan that the bytes of a flow file spell with the values that are set beside its store, or the
/// first reason why they give none: `NotToml` where they are no TOML document, `Plan` where the flow
/// passes a limit or breaks a rule, and else what can't stand at a path of the document. `Memory` says
/// nothing of the file.
pub fn read_flow(alloc: Global, bytes: &[u8], sets: Binds, defer: bool) -> Result<Plan, FileFault>
    ensures ok { IfOk result (λ plan. flow_of bytes.now sets defer ≡ Ok (plan_as_written (plan_tree plan))) }
    ensures unbroken { IfOk result (λ plan. (reason : BrokenRule)
        → ¬ (IsBroken (plan_as_written (plan_tree plan)) reason)) }
    ensures refused { IfErr result (IsFirstReason (flow_of bytes.now sets defer)) }
{
    match read_document(alloc, bytes) {
        Ok(document) => plan_of(alloc, &document, &sets, defer),
        Err(fault) => Err(fault),
    }
}

/// The document that the bytes are.
#[tactic(auto, using(crate::proofs::DocumentLemmas::utf8_document, crate::proofs::DocumentLemmas::other_document))]
fn read_document(alloc: Global, bytes: &[u8]) -> Result<Table, FileFault>
    ensures ok { IfOk result (λ document. document_of bytes.now ≡ Some (table_view document)) }
    ensures refused { IfErr result (λ fault. (sets : List BindValue) (defer : Bool)
        → RefusesWith (documented sets defer (document_of bytes.now)) fault) }
{
    let Ok(text) = str::from_utf8(bytes) else {
        return Err(FileFault::NotToml);
    };
    match toml::table_from_str(alloc, text) {
        Ok(document) => Ok(document),
        Err(fault) => {
            if fault.is_memory() {
                Err(FileFault::Memory)
            } else {
                Err(FileFault::NotToml)
            }
        }
    }
}

/// The plan of a document.
fn plan_of(alloc: Global, document: &Table, sets: &Binds, defer: bool) -> Result<Plan, FileFault>
    ensures ok { IfOk result (λ plan. chain (root_spelled (table_view document.now)) (planned sets.now defer)
        ≡ Ok (plan_as_written (plan_tree plan))) }
    ensures unbroken { IfOk result (λ plan. (reason : BrokenRule)
        → ¬ (IsBroken (plan_as_written (plan_tree plan)) reason)) }
    ensures refused { IfErr result (IsFirstReason (chain (root_spelled (table_view document.now))
        (planned sets.now defer))) }
{
    let made = root_form(alloc, document)?;
    let store = store_with(alloc, &made.store, sets.items())?;
    make_plan(alloc, made.flow, Binds::make(store), defer)
}

/// The plan of a flow with a store.
fn make_plan(alloc: Global, flow: Flow, store: Binds, defer: bool) -> Result<Plan, FileFault>
    ensures ok { IfOk result (λ plan. plan_as_written (plan_tree plan)
        ≡ record { root = as_written (tree_of flow); store = store; defer = defer }) }
    ensures unbroken { IfOk result (λ plan. (reason : BrokenRule)
        → ¬ (IsBroken (plan_as_written (plan_tree plan)) reason)) }
    ensures refused { IfErr result (λ fault. IsFirstReason
        (Ok (record { root = as_written (tree_of flow); store = store; defer = defer })) fault) }
{
    match Plan::make(alloc, flow, store, defer) {
        Ok(plan) => Ok(plan),
        Err(fault) => Err(refusal_for(fault)),
    }
}

/// The refusal of a flow file whose plan is refused so.
fn refusal_for(fault: PlanFault) -> FileFault
    ensures { result ≡ plan_refusal fault }
{
    match fault {
        PlanFault::Memory => FileFault::Memory,
        _ => FileFault::Plan(fault),
    }
}
