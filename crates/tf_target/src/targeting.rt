ghost use Rattle.std.specs.Prelude.{◌≡◌, ◌<◌, ℕ, None, length, IfOk, IfErr, OnOk};
ghost use Rattle.tf_flow.specs.Items.{item_list};
ghost use Rattle.tf_flow.specs.Rules.{is_graph, member_names};
ghost use Rattle.tf_flow.specs.Shown.{members};
ghost use Rattle.tf_flow.specs.Plan.{plan_tree};
ghost use Rattle.tf_model.specs.Plan.{compile_refusal, outline_of};
ghost use Rattle.tf_model.specs.Scope.{missing_symbol};
ghost use Rattle.tf_target.specs.Target.{KeepsOrder, place_of_name, is_marked, is_kept, IsTargetOf, target_refusal, IsTargetAnswer, LeavesNoneBefore, plan_fault};

use crate::atoms::copy_binds;
use crate::faults::TargetFault;
use crate::keeping::{item_name, kept_flow};
use std::alloc::Global;
use tf_flow::{FlowKind, Item, Plan, PlanFault};
use tf_order::items_before;
use tf_values::{Memory, Name};

/// What a plan has up to a target: of its root, a graph flow, the item of this name and the items that reach
/// it by links, those that are inferred included, in their order; the links that are written between these;
/// the retry controller, the store and `defer`. `NotAGraph` comes exactly where the root is no graph flow,
/// else `UnknownTarget` exactly where no item of the root has the name, and else `Empty` exactly where what
/// is kept holds no atom. A refusal leaves the plan as it is.
pub fn target(alloc: Global, plan: &Plan, name: &Name) -> Result<Plan, TargetFault>
    requires compiles { compile_refusal plan.now ≡ None }
    requires complete { missing_symbol (outline_of plan.now) ≡ None }
    ensures target { IfOk result (λ kept. IsTargetOf (plan_tree plan.now) name.now (plan_tree kept)) }
    ensures accepted { OnOk result (target_refusal (plan_tree plan.now) name.now ≡ None) }
    ensures refused { IfErr result (IsTargetAnswer (target_refusal (plan_tree plan.now) name.now)) }
    ensures apart { OnOk result (LeavesNoneBefore (plan_tree plan.now) name.now) }
    ensures order { IfOk result (λ kept. KeepsOrder (outline_of plan.now) (outline_of kept)) }
    ensures compiled { IfOk result (λ kept. compile_refusal kept ≡ None) }
    ensures provided { IfOk result (λ kept. missing_symbol (outline_of kept) ≡ None) }
{
    if !is_graph(plan.root().kind) {
        return Err(TargetFault::NotAGraph);
    }
    let Some(item) = place_of(plan.root().items.items(), name) else {
        return Err(TargetFault::UnknownTarget(*name));
    };
    let marks = kept_marks(alloc, plan, item)?;
    let root = kept_flow(alloc, plan.root(), &marks)?;
    let store = copy_binds(alloc, plan.store())?;
    match Plan::make(alloc, root, store, plan.defer()) {
        Ok(kept) => Ok(kept),
        Err(fault) => Err(fault_of(fault)),
    }
}

fn is_graph(kind: FlowKind) -> bool
    ensures { result ≡ is_graph kind }
{
    match kind {
        FlowKind::Graph => true,
        FlowKind::Linear | FlowKind::Unordered => false,
    }
}

/// The place of the first item of a name.
fn place_of(items: &[Item], name: &Name) -> Option<usize>
    ensures { result ≡ place_of_name (member_names (members items.now)) name.now }
{
    for (place, item) in items.iter().enumerate() {
        if *name == item_name(item) {
            return Some(place);
        }
    }
    None
}

/// Of each item whether it is kept for one of them: whether it is that one, or comes before it.
fn kept_marks(alloc: Global, plan: &Plan, item: usize) -> Result<Vec<bool>, Memory>
    requires { item < length (item_list plan.now.root.items) }
    ensures { IfOk result (λ marks. (u : ℕ) → u < length (item_list plan.now.root.items)
        → is_marked marks.items u ≡ is_kept (plan_tree plan.now) item u) }
{
    let mut marks = items_before(alloc, plan, item)?;
    marks[item] = true;
    Ok(marks)
}

/// Why what is kept makes no plan: as part of a plan it keeps each limit and each rule, so that it can only
/// be empty.
fn fault_of(fault: PlanFault) -> TargetFault
    ensures { result ≡ plan_fault fault }
{
    match fault {
        PlanFault::Memory => TargetFault::Memory,
        _ => TargetFault::Empty,
    }
}
