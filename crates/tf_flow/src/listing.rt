ghost use Rattle.std.specs.Prelude.{◌≡◌, ℕ, ◌+◌, ◌<◌, ◌≤◌, List, [], ◌∷◌, ◌++◌, Option, None, Some, length, map, OnOk, IfOk};
ghost use Rattle.tf_flow.specs.Tree.{Tree, tree_of, item_tree};
ghost use Rattle.tf_numbers.specs.Numbers.{numbers_below};
ghost use Rattle.tf_flow.specs.Outline as model;
ghost use Rattle.tf_flow.specs.Listing.{shown_atoms, shown_level, shown_levels, shown_item, under, with_items_at, level_number};

use crate::atoms::Retry;
use crate::nested::{Flow, Item};
use crate::paths::{Part, Path, Turn};
use crate::plans::Plan;
use std::alloc::Global;
use tf_values::{Memory, Name};

/// An atom and its path from the root.
#[derive(Drop)]
pub struct AtomPlace<'a> {
    pub part: Part<'a>,
    pub path: Path,
}

/// What an item is: a task by its number among the atoms, or a flow by its number among the flows.
#[derive(Clone, Copy)]
pub enum Standing {
    Task(usize),
    Flow(usize),
}

/// An item of a flow.
#[derive(Clone, Copy)]
pub struct ItemPlace {
    pub name: Name,
    pub standing: Standing,
}

/// A flow: what it is, the number of its retry controller among the atoms, its items, and its number.
#[derive(Drop)]
pub struct Level<'a> {
    pub flow: &'a Flow,
    pub retry: Option<usize>,
    pub items: Vec<ItemPlace>,
    pub number: usize,
}

/// The nested flows of a plan as lists: its atoms and its flows in tree order, where each has its
/// place in the list as its number, and the numbers of the flows with the innermost first.
#[derive(Drop)]
pub struct Outline<'a> {
    pub atoms: Vec<AtomPlace<'a>>,
    pub levels: Vec<Level<'a>>,
    pub inner_first: Vec<usize>,
}

/// The outline of a plan.
#[tactic(auto)]
pub fn outline_of<'a>(alloc: Global, plan: &'a Plan) -> Result<Outline<'a>, Memory>
    ensures atoms { IfOk result (λ o. shown_atoms o.atoms.items ≡ model.atoms_of 0 (tree_of plan.now.root)) }
    ensures levels { IfOk result (λ o. shown_levels o.levels.items ≡ model.flows_of 0 0 (tree_of plan.now.root)) }
    ensures inner_first { IfOk result (λ o. o.inner_first.items ≡ model.innermost_first 0 (tree_of plan.now.root)) }
    ensures few_atoms { IfOk result (λ o. length o.atoms.items ≤ 1000) }
    ensures few_flows { IfOk result (λ o. length o.levels.items ≤ 500) }
    ensures numbers { IfOk result (λ o. map level_number o.levels.items ≡ numbers_below (length o.levels.items)) }
{
    let mut outline = Outline {
        atoms: Vec::with_capacity(alloc, plan.atoms() as usize)?,
        levels: Vec::with_capacity(alloc, plan.flows() as usize)?,
        inner_first: Vec::with_capacity(alloc, plan.flows() as usize)?,
    };
    add_flow(alloc, plan.root(), &[], &mut outline)?;
    Ok(outline)
}

/// Adds what stands in a flow to which this path leads.
#[cycle(walk)]
#[tactic(auto)]
fn add_flow<'a>(
    alloc: Global,
    flow: &'a Flow,
    path: &[Turn],
    outline: &mut Outline<'a>,
) -> Result<(), Memory>
    ensures atoms { OnOk result (shown_atoms outline.new.atoms.items ≡ shown_atoms outline.old.atoms.items
        ++ map (under path.now) (model.atoms_of (length outline.old.levels.items) (tree_of flow.now))) }
    ensures levels { OnOk result (shown_levels outline.new.levels.items ≡ shown_levels outline.old.levels.items
        ++ model.flows_of (length outline.old.levels.items) (length outline.old.atoms.items) (tree_of flow.now)) }
    ensures inner { OnOk result (outline.new.inner_first.items ≡ outline.old.inner_first.items
        ++ model.innermost_first (length outline.old.levels.items) (tree_of flow.now)) }
{
    let number = outline.levels.len();
    let retry = add_retry(alloc, &flow.retry, path, number, &mut outline.atoms)?;
    outline.levels.push(Level {
        flow,
        retry,
        items: Vec::new(alloc),
        number,
    })?;
    let mut items = Vec::new(alloc);
    for (place, item) in flow.items.items().iter().enumerate() {
        let turn = Turn {
            flow: number,
            item: Some(place),
        };
        let below = longer(alloc, path, turn)?;
        items.push(add_item(alloc, item, &below, outline)?)?;
    }
    put_items(&mut outline.levels, number, items);
    outline.inner_first.push(number)?;
    Ok(())
}

/// Adds what stands in an item to which this path leads, and answers what the item is.
#[cycle(walk)]
#[tactic(auto)]
fn add_item<'a>(
    alloc: Global,
    item: &'a Item,
    path: &[Turn],
    outline: &mut Outline<'a>,
) -> Result<ItemPlace, Memory>
    ensures item { IfOk result (λ place. shown_item place
        ≡ model.item_of (length outline.old.levels.items) (length outline.old.atoms.items) (item_tree item.now)) }
    ensures atoms { OnOk result (shown_atoms outline.new.atoms.items ≡ shown_atoms outline.old.atoms.items
        ++ map (under path.now) (model.atoms_of (length outline.old.levels.items) (item_tree item.now))) }
    ensures levels { OnOk result (shown_levels outline.new.levels.items ≡ shown_levels outline.old.levels.items
        ++ model.flows_of (length outline.old.levels.items) (length outline.old.atoms.items) (item_tree item.now)) }
    ensures inner { OnOk result (outline.new.inner_first.items ≡ outline.old.inner_first.items
        ++ model.innermost_first (length outline.old.levels.items) (item_tree item.now)) }
{
    match item {
        Item::Task(task) => {
            let number = outline.atoms.len();
            let path = Path::make(path.to_vec(alloc)?);
            let part = Part::Task(task);
            outline.atoms.push(AtomPlace { part, path })?;
            Ok(ItemPlace {
                name: task.name,
                standing: Standing::Task(number),
            })
        }
        Item::Flow(flow) => {
            let number = outline.levels.len();
            add_flow(alloc, flow, path, outline)?;
            Ok(ItemPlace {
                name: flow.name,
                standing: Standing::Flow(number),
            })
        }
    }
}

/// Adds the retry controller of a flow, where it has one, and answers its number.
fn add_retry<'a>(
    alloc: Global,
    retry: &'a Option<Retry>,
    path: &[Turn],
    flow: usize,
    atoms: &mut Vec<AtomPlace<'a>>,
) -> Result<Option<usize>, Memory>
    ensures number { IfOk result (λ number. number ≡ model.retry_number (length atoms.old.items) retry.now) }
    ensures atoms { OnOk result (shown_atoms atoms.new.items ≡ shown_atoms atoms.old.items
        ++ map (under path.now) (model.retry_atoms flow retry.now)) }
{
    match retry {
        None => Ok(None),
        Some(retry) => {
            let number = atoms.len();
            let turn = Turn { flow, item: None };
            let path = Path::make(longer(alloc, path, turn)?);
            let part = Part::Retry(retry);
            atoms.push(AtomPlace { part, path })?;
            Ok(Some(number))
        }
    }
}

/// A path with one turn more.
fn longer(alloc: Global, path: &[Turn], turn: Turn) -> Result<Vec<Turn>, Memory>
    ensures { IfOk result (λ turns. turns.items ≡ path.now ++ turn ∷ []) }
{
    let mut turns = path.to_vec(alloc)?;
    turns.push(turn)?;
    Ok(turns)
}

/// Puts the items of a flow into its level.
fn put_items(levels: &mut Vec<Level<'_>>, number: usize, items: Vec<ItemPlace>)
    requires { number < length levels.old.items }
    ensures { shown_levels levels.new.items ≡ with_items_at (map shown_item items.items) number
        (shown_levels levels.old.items) }
{
    levels[number].items = items;
}
