//! Paths from the root of a flow to what stands in it.

ghost use Rattle.std.specs.Prelude.{◌≡◌, ◌++◌, ◌∷◌, [], List, length, map, option_map, slice_get, OnOk, IfOk};
ghost use Rattle.tf_flow.specs.Outline as outline;
ghost use Rattle.tf_flow.specs.Outline.{atoms_of, atom_path, flow_paths};
ghost use Rattle.tf_flow.specs.Tree.{tree_of, item_tree};
ghost use Rattle.tf_flow.specs.Paths.{shown_part, part_at, flow_at_end};

use crate::atoms::{Arg, Bind, Provides, Retry, Task};
use crate::nested::{Flow, Item};
use std::alloc::Global;
use std::marker::Model;
use tf_values::{Memory, Name};

/// A turn of a path from the root: into the flow of this number, and there to the item at this place,
/// or to its retry controller where there is no place.
#[derive(Clone, Copy, Debug)]
pub struct Turn {
    pub flow: usize,
    pub item: Option<usize>,
}

/// A path from the root. Contracts see the list of turns.
#[derive(Debug, Drop)]
pub struct Path {
    turns: Vec<Turn>,
}

impl Model for Path {
    ghost use Rattle.std.specs.Prelude.{List};
    ghost use Rattle.tf_flow.specs.declared.paths.Turn.{Turn};

    ghost Value = { List Turn };

    ghost view = { λ path. path.turns.items };
}

impl Path {
    /// A path of these turns.
    pub fn make(turns: Vec<Turn>) -> Path
        ensures { result ≡ turns.items }
    {
        Path { turns }
    }

    /// The turns, from the root on.
    pub fn turns(&self) -> &[Turn]
        ensures { result.now ≡ self.now }
    {
        &self.turns
    }
}

/// What an atom is.
#[derive(Clone, Copy)]
pub enum Part<'a> {
    Task(&'a Task),
    Retry(&'a Retry),
}

impl<'a> Part<'a> {
    /// Its name.
    pub fn name(&self) -> Name
        ensures { result ≡ outline.name_of (shown_part self.now) }
    {
        match self {
            Part::Task(task) => task.name,
            Part::Retry(retry) => retry.name,
        }
    }

    /// Its arguments.
    pub fn args(&self) -> &'a [Arg]
        ensures { result.now ≡ outline.arguments_of (shown_part self.now) }
    {
        match self {
            Part::Task(task) => task.args.items(),
            Part::Retry(retry) => retry.args.items(),
        }
    }

    /// The symbols that have a constant value for it.
    pub fn injects(&self) -> &'a [Bind]
        ensures { result.now ≡ outline.injected_in (shown_part self.now) }
    {
        match self {
            Part::Task(task) => task.inject.items(),
            Part::Retry(retry) => retry.inject.items(),
        }
    }

    /// The symbols that its result gives.
    pub fn provides(&self) -> &'a Provides
        ensures { result.now ≡ outline.provided_by (shown_part self.now) }
    {
        match self {
            Part::Task(task) => &task.provides,
            Part::Retry(retry) => &retry.provides,
        }
    }

    /// Whether it is a task, and no retry controller.
    pub fn is_task(&self) -> bool
        ensures { result ≡ outline.is_task_part (shown_part self.now) }
    {
        matches!(self, Part::Task(_))
    }

    /// Its priority; a retry controller's is 0.
    pub fn priority(&self) -> i32
        ensures { result ≡ outline.priority_of (shown_part self.now) }
    {
        match self {
            Part::Task(task) => task.priority,
            Part::Retry(_) => 0,
        }
    }
}

/// The paths to the atoms and to the flows of a flow, in tree order.
#[derive(Drop)]
pub struct Paths {
    pub atoms: Vec<Path>,
    pub flows: Vec<Path>,
}

/// The paths to what stands in a flow.
#[tactic(auto, using(crate::proofs::PathLemmas::all_under, crate::proofs::PathLemmas::all_under_flows))]
pub fn paths_of(alloc: Global, root: &Flow) -> Result<Paths, Memory>
    ensures atoms { IfOk result (λ paths. paths.atoms.items ≡ map atom_path (atoms_of 0 (tree_of root.now))) }
    ensures flows { IfOk result (λ paths. paths.flows.items ≡ flow_paths 0 (tree_of root.now)) }
{
    let mut paths = Paths {
        atoms: Vec::new(alloc),
        flows: Vec::new(alloc),
    };
    add_flow(alloc, root, &[], &mut paths)?;
    Ok(paths)
}

/// Adds the paths to what stands in a flow to which this path leads.
#[cycle(paths)]
fn add_flow(alloc: Global, flow: &Flow, path: &[Turn], paths: &mut Paths) -> Result<(), Memory>
    ensures atoms { OnOk result (paths.new.atoms.items ≡ paths.old.atoms.items
        ++ map (λ rest. path.now ++ rest) (map atom_path
        (atoms_of (length paths.old.flows.items) (tree_of flow.now)))) }
    ensures flows { OnOk result (paths.new.flows.items ≡ paths.old.flows.items
        ++ map (λ rest. path.now ++ rest) (flow_paths (length paths.old.flows.items) (tree_of flow.now))) }
{
    let number = paths.flows.len();
    paths.flows.push(Path::make(path.to_vec(alloc)?))?;
    if flow.retry.is_some() {
        let turn = Turn {
            flow: number,
            item: None,
        };
        paths.atoms.push(longer(alloc, path, turn)?)?;
    }
    for (place, item) in flow.items.items().iter().enumerate() {
        let turn = Turn {
            flow: number,
            item: Some(place),
        };
        let below = longer(alloc, path, turn)?;
        add_item(alloc, item, below, paths)?;
    }
    Ok(())
}

/// Adds the paths to what stands in an item to which this path leads.
#[cycle(paths)]
fn add_item(alloc: Global, item: &Item, path: Path, paths: &mut Paths) -> Result<(), Memory>
    ensures atoms { OnOk result (paths.new.atoms.items ≡ paths.old.atoms.items
        ++ map (λ rest. path ++ rest) (map atom_path (atoms_of (length paths.old.flows.items) (item_tree item.now)))) }
    ensures flows { OnOk result (paths.new.flows.items ≡ paths.old.flows.items
        ++ map (λ rest. path ++ rest) (flow_paths (length paths.old.flows.items) (item_tree item.now))) }
{
    match item {
        Item::Task(_) => {
            paths.atoms.push(path)?;
            Ok(())
        }
        Item::Flow(flow) => add_flow(alloc, flow, path.turns(), paths),
    }
}

/// A path with one turn more.
fn longer(alloc: Global, path: &[Turn], turn: Turn) -> Result<Path, Memory>
    ensures { IfOk result (λ longer. longer ≡ path.now ++ turn ∷ []) }
{
    let mut turns = path.to_vec(alloc)?;
    turns.push(turn)?;
    Ok(Path::make(turns))
}

/// The item at a place.
fn item_at(items: &[Item], place: usize) -> Option<&Item>
    ensures { option_map (λ item. item.now) result ≡ slice_get items.now place }
{
    items.get(place)
}

/// The atom to which a path leads in a flow.
#[cycle(parts)]
#[tactic(auto, using(crate::proofs::PathLemmas::part_retry, crate::proofs::PathLemmas::part_nowhere, crate::proofs::PathLemmas::part_item, crate::proofs::PathLemmas::part_no_item))]
pub fn part_in<'a>(flow: &'a Flow, path: &[Turn]) -> Option<Part<'a>>
    ensures { option_map shown_part result ≡ part_at (tree_of flow.now) path.now }
{
    let (turn, rest) = path.split_first()?;
    let Some(place) = turn.item else {
        return flow.retry.as_ref().map(Part::Retry);
    };
    match item_at(flow.items.items(), place) {
        None => None,
        Some(item) => part_below(item, rest),
    }
}

/// The atom to which a path leads in an item.
#[cycle(parts)]
fn part_below<'a>(item: &'a Item, path: &[Turn]) -> Option<Part<'a>>
    ensures { option_map shown_part result ≡ part_at (item_tree item.now) path.now }
{
    match item {
        Item::Task(task) => Some(Part::Task(task)),
        Item::Flow(flow) => part_in(flow, path),
    }
}

/// The flow to which a path leads in a flow.
#[cycle(flows)]
#[tactic(auto, using(crate::proofs::PathLemmas::flow_here, crate::proofs::PathLemmas::flow_nowhere, crate::proofs::PathLemmas::flow_item, crate::proofs::PathLemmas::flow_no_item))]
pub fn flow_in<'a>(flow: &'a Flow, path: &[Turn]) -> Option<&'a Flow>
    ensures { option_map (λ found. tree_of found.now) result ≡ flow_at_end (tree_of flow.now) path.now }
{
    let Some((turn, rest)) = path.split_first() else {
        return Some(flow);
    };
    let Some(place) = turn.item else {
        return None;
    };
    match item_at(flow.items.items(), place) {
        None => None,
        Some(item) => flow_below(item, rest),
    }
}

/// The flow to which a path leads in an item.
#[cycle(flows)]
fn flow_below<'a>(item: &'a Item, path: &[Turn]) -> Option<&'a Flow>
    ensures { option_map (λ found. tree_of found.now) result ≡ flow_at_end (item_tree item.now) path.now }
{
    match item {
        Item::Task(_) => None,
        Item::Flow(flow) => flow_in(flow, path),
    }
}
