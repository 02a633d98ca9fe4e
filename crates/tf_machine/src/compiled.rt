ghost use Rattle.std.specs.Prelude.{◌≡◌, ◌<◌, ◌≤◌, ◌++◌, ℕ, int_lt, None, Some, true, false, IfOk, IfErr, IfSome, OnOk, map, length, option_map};
ghost use Rattle.tf_order.specs.Graph.{predecessors_of, successors_of};
ghost use Rattle.tf_flow.specs.Rules.{first_refusal};
ghost use Rattle.tf_model.specs.Plan.{compile_refusal, outline_of, count, is_task, is_retry, holds, own_flow, last_flow, retry_of, path};
ghost use Rattle.tf_model.specs.Scope.{task_at, missing_symbol, given_for};
ghost use Rattle.tf_model.specs.Readiness.{refused, ignores};
ghost use Rattle.tf_model.specs.Forced.{is_of_its_flow, priority};
ghost use Rattle.tf_model.specs.Retries.{retry_kind};
ghost use Rattle.tf_model.specs.History.{Snapshot, Shows};
ghost use Rattle.tf_model.specs.Before.{passes_flow};
ghost use Rattle.tf_machine.specs.Answers.{IsBuildRefusal};
ghost use Rattle.tf_machine.specs.Compiled.{priority_at, AreDecided, AreNoGreater, AreSpans, IsSpanAround, IsSpanOf};

use crate::faults::BuildFault;
use std::alloc::Global;
use std::marker::Model;
use tf_actions::{Action, Given};
use tf_flow::{Depth, Part, Plan, Retry, Task, Turn};
use tf_order::{Graph, compile};
use tf_rules::{affected, has_decider, retry_at, retry_of, widest};
use tf_scopes::{Providers, find_providers};
use tf_states::AtomView;
use tf_values::Memory;

/// A plan with its graph, from where its atoms take the values of their arguments, their priorities, and
/// which of them a link with a decider leads to. Contracts see the plan.
#[derive(Drop)]
pub struct Compiled {
    plan: Plan,
    graph: Graph,
    providers: Providers,
    priorities: Vec<i32>,
    greatest: i32,
    decided: Vec<bool>,
    spans: Vec<Span>,
}

/// Atoms side by side: from the first on and before the end.
#[derive(Clone, Copy, Debug)]
pub struct Span {
    pub first: u16,
    pub end: u16,
}

impl Model for Compiled {
    ghost use Rattle.std.specs.Coded.{codes};
    ghost use Rattle.tf_flow.specs.contracts.nested.Flow as flow;
    ghost use Rattle.tf_flow.specs.Plan.{PlanValue};
    ghost use Rattle.tf_machine.specs.Compiled.{IsCompiled};

    ghost Value = { PlanValue };

    ghost coded = { Prim.hlevel (codes, flow.the_row.coded) };

    ghost view = { λ compiled. compiled.plan };

    ghost invariant = { λ compiled. IsCompiled compiled.plan compiled.graph compiled.providers
        compiled.priorities.items compiled.greatest compiled.decided.items compiled.spans.items };
}

impl Compiled {
    /// The plan with what is compiled of it. It is refused as it is by compilation, and then where a symbol
    /// is missing.
    pub fn make(alloc: Global, plan: Plan) -> Result<Compiled, BuildFault>
        ensures given { IfOk result (λ compiled. compiled ≡ plan) }
        ensures accepted { OnOk result (compile_refusal plan ≡ None) }
        ensures complete { OnOk result (missing_symbol (outline_of plan) ≡ None) }
        ensures refused { IfErr result (IsBuildRefusal plan) }
    {
        let graph = compile(alloc, &plan)?;
        let providers = find_providers(alloc, &plan, &graph)?;
        let priorities = priorities(alloc, &plan)?;
        let greatest = greatest(&priorities);
        let decided = decided(alloc, &plan)?;
        let spans = spans(alloc, &plan)?;
        Ok(Compiled {
            plan,
            graph,
            providers,
            priorities,
            greatest,
            decided,
            spans,
        })
    }

    /// The plan.
    pub fn plan(&self) -> &Plan
        ensures value { result.now ≡ self.now }
        ensures accepted { compile_refusal self.now ≡ None }
        ensures complete { missing_symbol (outline_of self.now) ≡ None }
    {
        &self.plan
    }

    /// How many atoms there are.
    #[tactic(auto, using(tf_model::proofs::PlanLemmas::atoms_counted))]
    pub fn atoms(&self) -> u16
        ensures count { result ≡ count (outline_of self.now) }
        ensures few { result ≤ 1000 }
        ensures accepted { compile_refusal self.now ≡ None }
        ensures complete { missing_symbol (outline_of self.now) ≡ None }
    {
        self.plan.atoms()
    }

    /// Whether an atom is a task.
    #[tactic(auto, using(tf_model::proofs::PlanLemmas::atoms_counted, tf_model::proofs::PlanLemmas::task_told, tf_model::proofs::PlanLemmas::no_task))]
    pub fn is_task(&self, atom: u16) -> bool
        ensures { result ≡ is_task (outline_of self.now) atom }
    {
        if atom >= self.plan.atoms() {
            return false;
        }
        !self.plan.is_retry(atom)
    }

    /// Whether an atom is a retry controller.
    #[tactic(auto, using(tf_model::proofs::PlanLemmas::atoms_counted, tf_model::proofs::PlanLemmas::retry_told, tf_model::proofs::PlanLemmas::no_retry))]
    pub fn is_retry(&self, atom: u16) -> bool
        ensures { result ≡ is_retry (outline_of self.now) atom }
    {
        if atom >= self.plan.atoms() {
            return false;
        }
        self.plan.is_retry(atom)
    }

    /// The task of that number.
    #[tactic(auto, using(tf_model::proofs::PlanLemmas::atoms_counted, tf_model::proofs::PlanLemmas::task_below))]
    pub fn task(&self, atom: u16) -> &Task
        requires { is_task (outline_of self.now) atom ≡ true }
        ensures task { task_at (outline_of self.now) atom ≡ Some result.now }
        ensures accepted { first_refusal self.now.root self.now.store ≡ None }
    {
        self.plan.root();
        match self.plan.part(atom) {
            Part::Task(task) => task,
            Part::Retry(_) => unreachable!(),
        }
    }

    /// What an atom is given at the moment that the views show.
    #[tactic(auto, using(tf_model::proofs::PlanLemmas::task_below))]
    pub fn given(
        &self,
        alloc: Global,
        views: &[AtomView],
        atom: u16,
        action: Action,
    ) -> Result<Given, Memory>
        requires { atom < count (outline_of self.now) }
        ensures { (s : Snapshot) → Shows views.now s
            → IfOk result (λ given. given ≡ given_for (outline_of self.now) s atom action) }
    {
        self.providers
            .arguments(alloc, &self.plan, views, atom, action)
    }

    /// The retry controller of that number; none where a task has it.
    pub fn retry(&self, atom: u16) -> Option<&Retry>
        requires { atom < count (outline_of self.now) }
        ensures { option_map (λ retry. retry.now.kind) result ≡ retry_kind (outline_of self.now) atom }
    {
        retry_at(&self.plan, atom)
    }

    /// The retry controller of a flow, if it has one.
    pub fn retry_of(&self, flow: usize) -> Option<u16>
        ensures number { result ≡ retry_of (outline_of self.now) flow }
        ensures few { IfSome result (λ retry. retry < count (outline_of self.now)) }
    {
        retry_of(&self.plan, flow)
    }

    /// The path of an atom from the root: the flows around it, each with the place in it.
    pub fn path(&self, atom: u16) -> &[Turn]
        requires { atom < count (outline_of self.now) }
        ensures { result.now ≡ path (outline_of self.now) atom }
    {
        self.plan.path(atom)
    }

    /// Whether a link with a decider leads to an atom. Where none does, nothing refuses it.
    pub fn is_decided(&self, atom: u16) -> bool
        ensures { result ≡ false → (s : Snapshot) → refused (outline_of self.now) s atom ≡ None }
    {
        match self.decided.get(atom as usize) {
            Some(decided) => *decided,
            None => true,
        }
    }

    /// The widest depth among the links that refuse an atom at the moment that the views show.
    pub fn widest(&self, views: &[AtomView], atom: u16) -> Option<Depth>
        requires { atom < count (outline_of self.now) }
        ensures { (s : Snapshot) → Shows views.now s → result ≡ refused (outline_of self.now) s atom }
    {
        widest(&self.plan, views, atom)
    }

    /// Whether an atom that was refused with this depth ignores another.
    pub fn ignores(&self, refused: u16, depth: Depth, atom: u16) -> bool
        requires refused { refused < count (outline_of self.now) }
        requires atom { atom < count (outline_of self.now) }
        ensures { result ≡ ignores (outline_of self.now) refused depth atom }
    {
        affected(&self.plan, &self.graph, refused, depth, atom)
    }

    /// Whether an atom is another one of a retry controller's flow.
    pub fn is_of_its_flow(&self, retry: u16, atom: u16) -> bool
        ensures { result ≡ is_of_its_flow (outline_of self.now) retry atom }
    {
        match self.own_flow(retry) {
            None => false,
            Some(flow) => self.holds(flow, atom) && atom != retry,
        }
    }

    /// Whether a flow holds an atom, at any depth; it holds its own retry controller.
    pub fn holds(&self, flow: usize, atom: u16) -> bool
        ensures { result ≡ holds (outline_of self.now) flow atom }
    {
        holds(&self.plan, flow, atom)
    }

    /// The flow in which an atom stands itself, as its retry controller or as an item.
    pub fn own_flow(&self, atom: u16) -> Option<usize>
        ensures { result ≡ own_flow (outline_of self.now) atom }
    {
        if atom >= self.plan.atoms() {
            return None;
        }
        last_flow(self.plan.path(atom))
    }

    /// Atoms side by side among which are all that a flow holds.
    pub fn span(&self, flow: usize) -> Span
        ensures { IsSpanOf (outline_of self.now) flow result }
    {
        match self.spans.get(flow) {
            Some(span) => *span,
            None => Span {
                first: 0,
                end: self.plan.atoms(),
            },
        }
    }

    /// Atoms side by side among which are all of the flow in which an atom stands itself.
    pub fn span_around(&self, atom: u16) -> Span
        ensures { IsSpanAround (outline_of self.now) (own_flow (outline_of self.now) atom) result }
    {
        self.span_of(self.own_flow(atom))
    }

    /// The same of a flow, if one is named.
    #[tactic(auto, using(crate::proofs::SpanLemmas::named_span, crate::proofs::SpanLemmas::unnamed_span))]
    pub fn span_of(&self, flow: Option<usize>) -> Span
        ensures { IsSpanAround (outline_of self.now) flow result }
    {
        match flow {
            Some(flow) => self.span(flow),
            None => Span { first: 0, end: 0 },
        }
    }

    /// All atoms before this one, ascending.
    pub fn predecessors(&self, atom: u16) -> &[u16]
        ensures { result.now ≡ predecessors_of (outline_of self.now) atom }
    {
        self.graph.predecessors(atom)
    }

    /// All atoms after this one, ascending.
    pub fn successors(&self, atom: u16) -> &[u16]
        ensures atoms { result.now ≡ successors_of (outline_of self.now) atom }
        ensures accepted { compile_refusal self.now ≡ None }
    {
        self.graph.successors(atom)
    }

    /// The priority of an atom.
    pub fn priority(&self, atom: u16) -> i32
        ensures { result ≡ priority (outline_of self.now) atom }
    {
        match self.priorities.get(atom as usize) {
            Some(priority) => *priority,
            None => 0,
        }
    }

    /// Whether no atom has a greater priority than this one.
    pub fn is_outranked_by_none(&self, atom: u16) -> bool
        ensures { result ≡ true → (a : ℕ) → a < count (outline_of self.now)
            → int_lt (priority (outline_of self.now) atom) (priority (outline_of self.now) a) ≡ false }
    {
        !is_less(self.priority(atom), self.greatest)
    }
}

/// Whether a flow of a plan holds an atom, at any depth.
#[tactic(auto, using(tf_model::proofs::PlanLemmas::atoms_counted))]
fn holds(plan: &Plan, flow: usize, atom: u16) -> bool
    ensures { result ≡ holds (outline_of plan.now) flow atom }
{
    if atom >= plan.atoms() {
        return false;
    }
    passes_flow(plan.path(atom), flow)
}

/// Whether a path leads into a flow.
fn passes_flow(path: &[Turn], flow: usize) -> bool
    ensures { result ≡ passes_flow flow path.now }
{
    for turn in path {
        if turn.flow == flow {
            return true;
        }
    }
    false
}

/// The flow into which the last turn of a path leads.
#[tactic(auto, using(tf_order::proofs::PathLemmas::last_turn_flow))]
fn last_flow(path: &[Turn]) -> Option<usize>
    ensures { result ≡ last_flow path.now }
{
    match path.last() {
        Some(turn) => Some(turn.flow),
        None => None,
    }
}

/// The priorities of a plan's atoms, by number.
#[tactic(auto, using(crate::proofs::PlanLemmas::priorities_next, crate::proofs::PlanLemmas::priorities_all))]
fn priorities(alloc: Global, plan: &Plan) -> Result<Vec<i32>, Memory>
    ensures { IfOk result (λ numbers. numbers.items ≡ map priority_at (outline_of plan.now).atoms) }
{
    let mut priorities = Vec::new(alloc);
    for atom in 0..plan.atoms() {
        priorities.push(plan.part(atom).priority())?;
    }
    Ok(priorities)
}

fn is_less(first: i32, second: i32) -> bool
    ensures { result ≡ int_lt first second }
{
    first < second
}

/// The greatest of these numbers, or the least that there can be where there is none.
#[tactic(auto, using(crate::proofs::PlanLemmas::greater_next, crate::proofs::PlanLemmas::no_greater_next, crate::proofs::PlanLemmas::all_within))]
fn greatest(numbers: &[i32]) -> i32
    ensures { AreNoGreater result numbers.now }
{
    let mut greatest = i32::MIN;
    for number in numbers {
        if greatest < *number {
            greatest = *number;
        }
    }
    greatest
}

/// To which of a plan's atoms a link with a decider leads, by number.
#[tactic(auto, using(tf_model::proofs::PlanLemmas::atoms_counted))]
fn decided(alloc: Global, plan: &Plan) -> Result<Vec<bool>, Memory>
    ensures { IfOk result (λ decided. AreDecided (outline_of plan.now) decided.items) }
{
    let mut decided = Vec::new(alloc);
    for atom in 0..plan.atoms() {
        decided.push(has_decider(plan, atom))?;
    }
    Ok(decided)
}

/// For each flow of a plan, by number, atoms side by side among which are all that it holds.
#[tactic(auto, using(crate::proofs::SpanLemmas::no_span, crate::proofs::SpanLemmas::one_span))]
fn spans(alloc: Global, plan: &Plan) -> Result<Vec<Span>, Memory>
    ensures { IfOk result (λ spans. AreSpans (outline_of plan.now) spans.items) }
{
    let mut spans = Vec::new(alloc);
    for flow in 0..plan.flows() {
        spans.push(span_in(plan, flow as usize))?;
    }
    Ok(spans)
}

/// Atoms of a plan side by side among which are all that a flow holds.
#[tactic(auto, using(tf_model::proofs::PlanLemmas::atoms_counted, crate::proofs::SpanLemmas::no_atom, crate::proofs::SpanLemmas::atom_out, crate::proofs::SpanLemmas::atom_in, crate::proofs::SpanLemmas::all_atoms))]
fn span_in(plan: &Plan, flow: usize) -> Span
    ensures { IsSpanOf (outline_of plan.now) flow result }
{
    let mut span = Span {
        first: plan.atoms(),
        end: 0,
    };
    for atom in 0..plan.atoms() {
        if holds(plan, flow, atom) {
            span = Span {
                first: least(span.first, atom),
                end: atom + 1,
            };
        }
    }
    span
}

/// The lesser of two numbers.
fn least(first: u16, second: u16) -> u16
    ensures first { result ≤ first }
    ensures second { result ≤ second }
{
    if first < second { first } else { second }
}
