//! The flows of a plan by their numbers, and the flow in which an atom stands itself.

ghost use Rattle.std.specs.Prelude.{◌≡◌, ◌<◌, option_map, map, IfSome, IsSome, true};
ghost use Rattle.tf_flow.specs.Outline.{connection_of};
ghost use Rattle.tf_flow.specs.Plan as numbering;
ghost use Rattle.tf_flow.specs.Tree.{tree_of};
ghost use Rattle.tf_model.specs.Readiness.{home};
ghost use Rattle.tf_model.specs.Plan.{outline_of, count, own_flow, is_retry, retry_of};
ghost use Rattle.tf_rules.specs.Flows.{home_tree};

use tf_flow::{Flow, Link, Plan};

/// The flow of a number, where there is one.
#[tactic(auto, using(crate::proofs::FlowLemmas::no_flow))]
pub fn flow_at(plan: &Plan, number: usize) -> Option<&Flow>
    ensures flow { option_map (λ flow. tree_of flow.now) result ≡ numbering.flow plan.now number }
    ensures few { IsSome result → number < 500 }
{
    if number >= plan.flows() as usize {
        return None;
    }
    Some(plan.flow(number as u16))
}

/// The number of the retry controller of a flow, where both are there.
pub fn retry_of(plan: &Plan, flow: usize) -> Option<u16>
    ensures number { result ≡ retry_of (outline_of plan.now) flow }
    ensures retry { IfSome result (λ retry. is_retry (outline_of plan.now) retry ≡ true) }
    ensures few { IsSome result → flow < 500 }
{
    // The root is read for what it promises: no two atoms have one name, so the name tells the number.
    let _root = plan.root();
    let flow = flow_at(plan, flow)?;
    let retry = flow.retry.as_ref()?;
    plan.find(&retry.name)
}

/// The number of the flow in which an atom stands itself.
#[tactic(auto, using(tf_model::proofs::PlanLemmas::atoms_counted))]
pub fn own_flow(plan: &Plan, atom: u16) -> Option<usize>
    requires { atom < count (outline_of plan.now) }
    ensures { result ≡ own_flow (outline_of plan.now) atom }
{
    let last = plan.path(atom).last()?;
    Some(last.flow)
}

/// The flow in which an atom stands itself.
pub fn home(plan: &Plan, atom: u16) -> Option<&Flow>
    requires { atom < count (outline_of plan.now) }
    ensures { option_map (λ flow. tree_of flow.now) result ≡ home_tree plan.now atom }
{
    let number = own_flow(plan, atom)?;
    flow_at(plan, number)
}

/// The links that are written in the flow in which an atom stands itself.
pub fn links_around(plan: &Plan, atom: u16) -> &[Link]
    requires { atom < count (outline_of plan.now) }
    ensures { map connection_of result.now ≡ (home (outline_of plan.now) atom).place.links }
{
    match home(plan, atom) {
        None => &[],
        Some(flow) => flow.links.items(),
    }
}
