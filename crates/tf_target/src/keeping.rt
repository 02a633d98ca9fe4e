//! A flow with some of its items.

ghost use Rattle.std.specs.Prelude.{◌≡◌, ◌&&◌, map, filter, IfOk};
ghost use Rattle.indexmap.specs.IndexSet.{contains};
ghost use Rattle.tf_flow.specs.Outline.{connection_of};
ghost use Rattle.tf_flow.specs.Tree.{same_name, member_of, item_tree, tree_of};
ghost use Rattle.tf_flow.specs.Rules.{member_names};
ghost use Rattle.tf_flow.specs.Shown.{members};
ghost use Rattle.tf_flow.specs.Plan.{as_written, item_as_written};
ghost use Rattle.tf_target.specs.Target.{is_marked, kept_tree, elements_kept};

use crate::atoms::copy_control;
use crate::flows::copy_item;
use crate::links::copy_link;
use indexmap::IndexSet;
use std::alloc::Global;
use tf_flow::{Flow, Item, Items, Link, Links, set_of};
use tf_values::{Memory, Name};

/// A flow with those of its items alone that are marked, and the links between these.
pub fn kept_flow(alloc: Global, flow: &Flow, marks: &[bool]) -> Result<Flow, Memory>
    ensures { IfOk result (λ kept. as_written (tree_of kept)
        ≡ as_written (kept_tree (is_marked marks.now) (tree_of flow.now))) }
{
    let retry = copy_control(alloc, &flow.retry)?;
    let items = kept_items(alloc, flow.items.items(), marks)?;
    let names = item_names(alloc, &items)?;
    let set = set_of(alloc, &names)?;
    let links = kept_links(alloc, flow.links.items(), &set)?;
    Ok(Flow {
        name: flow.name,
        kind: flow.kind,
        retry,
        items: Items::make(items),
        links: Links::make(links),
    })
}

/// The items that are marked, in order.
fn kept_items(alloc: Global, items: &[Item], marks: &[bool]) -> Result<Vec<Item>, Memory>
    ensures { IfOk result (λ kept. map item_as_written kept.items
        ≡ map item_as_written (elements_kept (is_marked marks.now) items.now)) }
{
    let mut kept = Vec::new(alloc);
    for (u, item) in items.iter().enumerate() {
        if is_marked(marks, u) {
            kept.push(copy_item(alloc, item)?)?;
        }
    }
    Ok(kept)
}

/// Whether the item of a number is marked.
fn is_marked(marks: &[bool], item: usize) -> bool
    ensures { result ≡ is_marked marks.now item }
{
    match marks.get(item) {
        Some(mark) => *mark,
        None => false,
    }
}

/// The names of items, in order.
fn item_names(alloc: Global, items: &[Item]) -> Result<Vec<Name>, Memory>
    ensures { IfOk result (λ names. names.items ≡ member_names (members items.now)) }
{
    let mut names = Vec::with_capacity(alloc, items.len())?;
    for item in items {
        names.push(item_name(item))?;
    }
    Ok(names)
}

/// The name of an item.
pub fn item_name(item: &Item) -> Name
    ensures { result ≡ (member_of (item_tree item.now)).name }
{
    match item {
        Item::Task(task) => task.name,
        Item::Flow(flow) => flow.name,
    }
}

/// The links whose ends are both among these names, in order.
fn kept_links(alloc: Global, links: &[Link], names: &IndexSet<Name>) -> Result<Vec<Link>, Memory>
    ensures { IfOk result (λ kept. map connection_of kept.items ≡ map connection_of (filter
        (λ link. contains same_name names.now link.from && contains same_name names.now link.to) links.now)) }
{
    let mut kept = Vec::new(alloc);
    for link in links {
        if joins(link, names) {
            kept.push(copy_link(alloc, link)?)?;
        }
    }
    Ok(kept)
}

/// Whether both ends of a link are among these names.
fn joins(link: &Link, names: &IndexSet<Name>) -> bool
    ensures { result ≡ (contains same_name names.now link.now.from && contains same_name names.now link.now.to) }
{
    names.contains(&link.from) && names.contains(&link.to)
}
