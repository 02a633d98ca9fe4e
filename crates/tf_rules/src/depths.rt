ghost use Rattle.std.specs.Prelude.{◌≡◌, ◌<◌};
ghost use Rattle.tf_flow.specs.Rules.{is_graph};
ghost use Rattle.tf_model.specs.Readiness as deciders;
ghost use Rattle.tf_model.specs.Plan.{outline_of, count};
ghost use Rattle.tf_order.specs.Graph.{IsGraphOf};

use crate::flows::{home, own_flow};
use tf_flow::{Depth, FlowKind, Plan};
use tf_order::Graph;

/// Whether an atom that was refused with this depth ignores another one, or itself. It takes no memory.
pub fn affected(plan: &Plan, graph: &Graph, refused: u16, depth: Depth, atom: u16) -> bool
    requires graph { IsGraphOf graph.now plan.now }
    requires refused { refused < count (outline_of plan.now) }
    requires atom { atom < count (outline_of plan.now) }
    ensures { result ≡ deciders.ignores (outline_of plan.now) refused depth atom }
{
    if refused == atom {
        return true;
    }
    match depth {
        Depth::All => graph.is_before(refused, atom),
        Depth::Flow => is_sibling(plan, refused, atom) && graph.is_before(refused, atom),
        Depth::Neighbors => is_neighbor(plan, graph, refused, atom),
        Depth::Atom => false,
    }
}

/// Whether an atom is a task of the flow in which the refused one stands itself.
#[tactic(auto, using(tf_model::proofs::PlanLemmas::atoms_counted))]
fn is_sibling(plan: &Plan, refused: u16, atom: u16) -> bool
    requires refused { refused < count (outline_of plan.now) }
    requires atom { atom < count (outline_of plan.now) }
    ensures { result ≡ deciders.is_sibling (outline_of plan.now) refused atom }
{
    plan.part(atom).is_task() && same_flow(own_flow(plan, atom), own_flow(plan, refused))
}

/// Whether both flows are there, and are one.
fn same_flow(one: Option<usize>, other: Option<usize>) -> bool
    ensures { result ≡ deciders.same_flow one other }
{
    match (one, other) {
        (Some(one), Some(other)) => one == other,
        _ => false,
    }
}

/// Whether a link leads from the refused atom to this one. The graph tells what stands next in a linear
/// flow too, to which no link leads.
fn is_neighbor(plan: &Plan, graph: &Graph, refused: u16, atom: u16) -> bool
    requires graph { IsGraphOf graph.now plan.now }
    requires refused { refused < count (outline_of plan.now) }
    requires atom { atom < count (outline_of plan.now) }
    ensures { result ≡ deciders.is_neighbor (outline_of plan.now) refused atom }
{
    stands_in_graph(plan, refused) && graph.direct_tasks(refused).contains(&atom)
}

/// Whether an atom stands in a graph flow itself.
fn stands_in_graph(plan: &Plan, atom: u16) -> bool
    requires { atom < count (outline_of plan.now) }
    ensures { result ≡ is_graph (deciders.home (outline_of plan.now) atom).place.kind }
{
    match home(plan, atom) {
        None => false,
        Some(flow) => is_graph(flow.kind),
    }
}

/// Whether a flow of this kind is a graph.
fn is_graph(kind: FlowKind) -> bool
    ensures { result ≡ is_graph kind }
{
    matches!(kind, FlowKind::Graph)
}
