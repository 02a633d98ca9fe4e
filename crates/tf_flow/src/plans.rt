ghost use Rattle.std.specs.Prelude.{◌≡◌, ◌<◌, ◌≤◌, None, Some, IfOk, OnOk, IfErr, IfSome, is_some, length, map, filter, position, slice_get};
ghost use Rattle.tf_flow.specs.Tree.{first_again, is_among, same_name, name_at, is_atom, is_flow, is_retry_place, tree_order, atom_names, retry_marks, flow_names, tree_of};
ghost use Rattle.tf_flow.specs.Plan as numbering;
ghost use Rattle.tf_flow.specs.Rules.{first_refusal, IsAnswer};
ghost use Rattle.tf_flow.specs.Shown.{shown_places};
ghost use Rattle.tf_flow.specs.Paths.{shown_part};

use crate::atoms::Binds;
use crate::faults::PlanFault;
use crate::nested::Flow;
use crate::outline::{Place, add_flow};
use crate::paths::{Part, Path, Paths, Turn, flow_in, part_in, paths_of};
use crate::refusals::first_refusal;
use crate::repeats::indexed;
use indexmap::IndexSet;
use std::alloc::Global;
use std::marker::Model;
use tf_values::{Memory, Name};

/// A flow with its store that keeps every limit and every rule. Its atoms and its flows have numbers
/// from 0 in tree order: a flow comes before its retry, the retry before the items, and a nested flow
/// stands in its place among the items. Contracts see the flow, the store and `defer`.
#[derive(Debug, Drop)]
pub struct Plan {
    root: Flow,
    store: Binds,
    defer: bool,
    atoms: IndexSet<Name>,
    retries: Vec<bool>,
    flows: Vec<Name>,
    paths: Vec<Path>,
    paths_to_flows: Vec<Path>,
}

impl Model for Plan {
    ghost use Rattle.std.specs.Coded.{codes};
    ghost use Rattle.tf_flow.specs.contracts.nested.Flow as flow;
    ghost use Rattle.tf_flow.specs.Plan.{PlanValue, IsNumbered};

    ghost Value = { PlanValue };

    ghost coded = { Prim.hlevel (codes, flow.the_row.coded) };

    ghost view = { λ plan. record { root = plan.root; store = plan.store; defer = plan.defer } };

    ghost invariant = { λ plan. IsNumbered plan.root plan.store plan.atoms.keys plan.retries.items plan.flows.items
        plan.paths.items plan.paths_to_flows.items };
}

impl Plan {
    /// The plan of this flow and this store. It is refused where a limit is passed or a rule is
    /// broken, and then with the first of these, in the order of [`PlanFault`] and of
    /// [`Limit`](crate::Limit).
    pub fn make(alloc: Global, root: Flow, store: Binds, defer: bool) -> Result<Plan, PlanFault>
        ensures given { IfOk result (λ plan. plan ≡ record { root = root; store = store; defer = defer }) }
        ensures accepted { OnOk result (first_refusal root store ≡ None) }
        ensures refused { IfErr result (IsAnswer (first_refusal root store)) }
    {
        let numbers = numbered(alloc, &root, &store)?;
        Ok(Plan {
            root,
            store,
            defer,
            atoms: numbers.atoms,
            retries: numbers.retries,
            flows: numbers.flows,
            paths: numbers.paths.atoms,
            paths_to_flows: numbers.paths.flows,
        })
    }

    /// The flow.
    pub fn root(&self) -> &Flow
        ensures value { result.now ≡ self.now.root }
        ensures accepted { first_refusal self.now.root self.now.store ≡ None }
    {
        &self.root
    }

    /// The values of the store.
    pub fn store(&self) -> &Binds
        ensures value { result.now ≡ self.now.store }
    {
        &self.store
    }

    /// Whether a retry controller that answers with a reversion leaves the answer to the one around it.
    pub fn defer(&self) -> bool
        ensures { result ≡ self.now.defer }
    {
        self.defer
    }

    /// How many flows there are, the root included.
    pub fn flows(&self) -> u16
        ensures count { result ≡ length (numbering.flows self.now) }
        ensures few { result ≤ 500 }
        ensures root { 0 < result }
    {
        self.flows.len() as u16
    }

    /// How many atoms there are.
    pub fn atoms(&self) -> u16
        ensures count { result ≡ length (numbering.atoms self.now) }
        ensures few { result ≤ 1000 }
        ensures some { 0 < result }
    {
        self.atoms.len() as u16
    }

    /// The name of an atom.
    pub fn atom_name(&self, atom: u16) -> &Name
        requires { atom < length (numbering.atoms self.now) }
        ensures { slice_get (numbering.atoms self.now) atom ≡ Some result.now }
    {
        self.atoms.get_index(atom as usize).unwrap()
    }

    /// Whether an atom is a retry controller.
    pub fn is_retry(&self, atom: u16) -> bool
        requires { atom < length (numbering.atoms self.now) }
        ensures { slice_get (numbering.retries self.now) atom ≡ Some result }
    {
        self.retries[atom as usize]
    }

    /// The name of a flow.
    pub fn flow_name(&self, flow: u16) -> &Name
        requires { flow < length (numbering.flows self.now) }
        ensures { slice_get (numbering.flows self.now) flow ≡ Some result.now }
    {
        &self.flows[flow as usize]
    }

    /// The path of an atom from the root.
    #[tactic(auto, using(crate::proofs::OutlineLemmas::as_many_paths))]
    pub fn path(&self, atom: u16) -> &[Turn]
        requires { atom < length (numbering.atoms self.now) }
        ensures { slice_get (numbering.paths self.now) atom ≡ Some result.now }
    {
        path_at(&self.paths, atom as usize)
    }

    /// The atom of a number. It takes as many steps as flows stand around the atom.
    #[tactic(auto, using(crate::proofs::ReadLemmas::part_found, crate::proofs::ReadLemmas::part_is_there))]
    pub fn part(&self, atom: u16) -> Part<'_>
        requires { atom < length (numbering.atoms self.now) }
        ensures { numbering.part self.now atom ≡ Some (shown_part result) }
    {
        part_in(self.root(), self.path(atom)).unwrap()
    }

    /// The path of a flow from the root.
    #[tactic(auto, using(crate::proofs::OutlineLemmas::as_many_paths_to_flows))]
    pub fn path_to_flow(&self, flow: u16) -> &[Turn]
        requires { flow < length (numbering.flows self.now) }
        ensures { slice_get (numbering.paths_to_flows self.now) flow ≡ Some result.now }
    {
        path_at(&self.paths_to_flows, flow as usize)
    }

    /// The flow of a number. It takes as many steps as flows stand around it.
    #[tactic(auto, using(crate::proofs::ReadLemmas::flow_found, crate::proofs::ReadLemmas::flow_is_there))]
    pub fn flow(&self, flow: u16) -> &Flow
        requires { flow < length (numbering.flows self.now) }
        ensures { numbering.flow self.now flow ≡ Some (tree_of result.now) }
    {
        flow_in(&self.root, self.path_to_flow(flow)).unwrap()
    }

    /// The number of the atom of this name; none where no atom has it.
    pub fn find(&self, name: &Name) -> Option<u16>
        ensures number { result ≡ position (same_name name.now) (numbering.atoms self.now) }
        ensures found { IfSome result (λ atom. slice_get (numbering.atoms self.now) atom ≡ Some name.now) }
        ensures none { is_some result ≡ is_among (numbering.atoms self.now) name.now }
    {
        match self.atoms.get_index_of(name) {
            Some(atom) => Some(atom as u16),
            None => None,
        }
    }
}

/// The path of a number.
#[tactic(auto, using(crate::proofs::PathLemmas::path_read))]
fn path_at(paths: &[Path], number: usize) -> &[Turn]
    requires { number < length paths.now }
    ensures { slice_get paths.now number ≡ Some result.now }
{
    paths[number].turns()
}

/// What a plan keeps beside its flows.
#[derive(Drop)]
struct Numbers {
    atoms: IndexSet<Name>,
    retries: Vec<bool>,
    flows: Vec<Name>,
    paths: Paths,
}

/// The numbers of a plan, or its first refusal.
fn numbered(alloc: Global, root: &Flow, store: &Binds) -> Result<Numbers, PlanFault>
    ensures numbers { IfOk result
        (λ found. numbering.IsNumbered root.now store.now found.atoms.keys found.retries.items found.flows.items
        found.paths.atoms.items found.paths.flows.items) }
    ensures refused { IfErr result (IsAnswer (first_refusal root.now store.now)) }
{
    let mut order = Vec::new(alloc);
    let nesting = add_flow(root, &mut order)?;
    if let Some(fault) = first_refusal(alloc, root.name, nesting, &order, store.items())? {
        return Err(fault);
    }
    Ok(Numbers {
        atoms: atom_index(alloc, &order)?,
        retries: retry_marks(alloc, &order)?,
        flows: flow_names(alloc, &order)?,
        paths: paths_of(alloc, root)?,
    })
}

/// The atoms' names by their numbers.
fn atom_index(alloc: Global, order: &[Place<'_>]) -> Result<IndexSet<Name>, Memory>
    requires { first_again same_name (map name_at (shown_places order.now)) ≡ None }
    ensures { IfOk result (λ index. index.keys ≡ atom_names (shown_places order.now)) }
{
    let names = atom_names(alloc, order)?;
    match indexed(alloc, &names)? {
        Ok(index) => Ok(index),
        Err(_) => unreachable!(),
    }
}

fn atom_names(alloc: Global, order: &[Place<'_>]) -> Result<Vec<Name>, Memory>
    ensures { IfOk result (λ names. names.items ≡ atom_names (shown_places order.now)) }
{
    let mut names = Vec::with_capacity(alloc, order.len())?;
    for place in order {
        if !place.is_flow() {
            names.push(place.name())?;
        }
    }
    Ok(names)
}

fn retry_marks(alloc: Global, order: &[Place<'_>]) -> Result<Vec<bool>, Memory>
    ensures { IfOk result (λ marks. marks.items ≡ retry_marks (shown_places order.now)) }
{
    let mut marks = Vec::with_capacity(alloc, order.len())?;
    for place in order {
        if !place.is_flow() {
            marks.push(place.is_retry())?;
        }
    }
    Ok(marks)
}

fn flow_names(alloc: Global, order: &[Place<'_>]) -> Result<Vec<Name>, Memory>
    ensures { IfOk result (λ names. names.items ≡ flow_names (shown_places order.now)) }
{
    let mut names = Vec::new(alloc);
    for place in order {
        if place.is_flow() {
            names.push(place.name())?;
        }
    }
    Ok(names)
}
