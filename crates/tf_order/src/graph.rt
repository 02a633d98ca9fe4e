ghost use Rattle.std.specs.Prelude.{◌≡◌, ℕ, List, slice_get, IfOk};
ghost use Rattle.tf_flow.specs.Plan.{PlanValue};
ghost use Rattle.tf_model.specs.Plan.{outline_of, is_before};
ghost use Rattle.tf_order.specs.Graph.{IsGraphOf, predecessors_of, successors_of, direct_tasks_of, standing_of_plan};

use crate::rows::{Row, is_listed, row_at};
use std::alloc::Global;
use std::marker::Model;
use tf_values::Memory;

/// The compiled order of a plan. Contracts see what it tells, and that it is a plan's says `IsGraphOf`.
#[derive(Drop)]
pub struct Graph {
    predecessors: Vec<Row>,
    successors: Vec<Row>,
    direct_tasks: Vec<Row>,
    standing: Vec<u16>,
}

impl Model for Graph {
    ghost use Rattle.tf_order.specs.Graph.{GraphValue};

    ghost Value = { GraphValue };

    ghost view = { λ graph. record { predecessors = graph.predecessors.items; successors = graph.successors.items; direct_tasks = graph.direct_tasks.items; standing = graph.standing.items } };
}

impl Graph {
    /// A graph of these rows and this standing order.
    pub fn make(
        alloc: Global,
        predecessors: Vec<Row>,
        successors: Vec<Row>,
        direct_tasks: Vec<Row>,
        standing: Vec<u16>,
    ) -> Result<Graph, Memory>
        ensures { IfOk result (λ graph. graph ≡ record {
          predecessors = predecessors.items;
          successors = successors.items;
          direct_tasks = direct_tasks.items;
          standing = standing.items;
        }) }
    {
        Ok(Graph {
            predecessors,
            successors,
            direct_tasks,
            standing,
        })
    }

    /// Whether atom `a` is before atom `b`. A number that no atom has is before none and after none.
    pub fn is_before(&self, a: u16, b: u16) -> bool
        ensures { (plan : PlanValue) → IsGraphOf self.now plan → result ≡ is_before (outline_of plan) a b }
    {
        is_listed(self.successors(a), b)
    }

    /// All atoms before `a`, ascending.
    #[tactic(auto, using(crate::proofs::GraphLemmas::predecessors_told))]
    pub fn predecessors(&self, a: u16) -> &[u16]
        ensures { (plan : PlanValue) → IsGraphOf self.now plan → result.now ≡ predecessors_of (outline_of plan) a }
    {
        row_at(&self.predecessors, a as usize)
    }

    /// All atoms after `a`, ascending.
    #[tactic(auto, using(crate::proofs::GraphLemmas::successors_told))]
    pub fn successors(&self, a: u16) -> &[u16]
        ensures { (plan : PlanValue) → IsGraphOf self.now plan → result.now ≡ successors_of (outline_of plan) a }
    {
        row_at(&self.successors, a as usize)
    }

    /// The tasks that a link or the next place leads to from `a`, ascending.
    #[tactic(auto, using(crate::proofs::GraphLemmas::direct_tasks_told))]
    pub fn direct_tasks(&self, a: u16) -> &[u16]
        ensures { (plan : PlanValue) → IsGraphOf self.now plan → result.now ≡ direct_tasks_of (outline_of plan) a }
    {
        row_at(&self.direct_tasks, a as usize)
    }

    /// All atoms in standing order: tree order, in which the items of a graph flow come as their links
    /// lead, again and again the first item whose linked predecessors were all taken.
    pub fn standing(&self) -> &[u16]
        ensures { (plan : PlanValue) → IsGraphOf self.now plan → result.now ≡ standing_of_plan (outline_of plan) }
    {
        &self.standing
    }
}
