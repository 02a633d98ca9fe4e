ghost use Rattle.std.specs.Prelude.{◌≡◌, ◌≤◌, [], false, None, IfOk};
ghost use Rattle.tf_flow.specs.Rules.{first_refusal};
ghost use Rattle.tf_flow.specs.Tree.{tree_of};
ghost use Rattle.tf_model.specs.Plan.{compile_refusal, outline_of};
ghost use Rattle.tf_model.specs.Scope.{missing_symbol};
ghost use Rattle.tf_demo.specs.Demo.{demo_flow as flow_said};

use crate::groups::groups;
use std::alloc::Global;
use tf_flow::{Binds, Flow, FlowKind, Items, Links, Plan, PlanFault};
use tf_values::{Memory, Name};

/// The plan of the generated flow. It compiles, and no symbol is missing.
#[tactic(auto, using(crate::proofs::CompileLemmas::compiles, crate::proofs::SymbolLemmas::complete, crate::proofs::RefusalLemmas::unrefused))]
pub fn demo_plan(alloc: Global, seed: u32, size: u16) -> Result<Plan, Memory>
    requires seed { seed ≤ 65536 }
    requires some { 1 ≤ size }
    requires size { size ≤ 900 }
    ensures flow { IfOk result (λ plan. tree_of plan.root ≡ flow_said seed size) }
    ensures store { IfOk result (λ plan. plan.store ≡ []) }
    ensures defer { IfOk result (λ plan. plan.defer ≡ false) }
    ensures compiles { IfOk result (λ plan. compile_refusal plan ≡ None) }
    ensures complete { IfOk result (λ plan. missing_symbol (outline_of plan) ≡ None) }
{
    let root = demo_flow(alloc, seed, size)?;
    make_plan(alloc, root)
}

/// The plan of a flow that passes no limit and breaks no rule.
fn make_plan(alloc: Global, root: Flow) -> Result<Plan, Memory>
    requires { first_refusal root [] ≡ None }
    ensures { IfOk result (λ plan. plan ≡ record { root = root; store = []; defer = false }) }
{
    match Plan::make(alloc, root, Binds::make(Vec::new(alloc)), false) {
        Ok(plan) => Ok(plan),
        Err(PlanFault::Memory) => Err(Memory),
        Err(_) => unreachable!(),
    }
}

/// The generated flow.
#[tactic(auto, unfolding(crate::specs::Demo::demo_flow), using(crate::proofs::TreeLemmas::flow_tree))]
fn demo_flow(alloc: Global, seed: u32, size: u16) -> Result<Flow, Memory>
    requires seed { seed ≤ 65536 }
    requires size { size ≤ 900 }
    ensures { IfOk result (λ flow. tree_of flow ≡ flow_said seed size) }
{
    let items = groups(alloc, size, seed)?;
    Ok(Flow {
        name: Name::make(b"demo").unwrap(),
        kind: FlowKind::Linear,
        retry: None,
        items: Items::make(items),
        links: Links::make(Vec::new(alloc)),
    })
}
