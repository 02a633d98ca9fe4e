//! Items that are written alike.

ghost use Rattle.std.specs.Prelude.{◌≡◌, map, IfOk};
ghost use Rattle.tf_flow.specs.Outline.{connection_of};
ghost use Rattle.tf_flow.specs.Tree.{tree_of};
ghost use Rattle.tf_flow.specs.Plan.{as_written, item_as_written};

use crate::atoms::{copy_control, copy_task};
use crate::links::copy_link;
use std::alloc::Global;
use tf_flow::{Flow, Item, Items, Link, Links};
use tf_values::Memory;

/// An item that is written alike.
#[cycle(items)]
#[tactic(auto, using(tf_flow::proofs::WrittenLemmas::items_as_written))]
pub fn copy_item(alloc: Global, item: &Item) -> Result<Item, Memory>
    ensures { IfOk result (λ copy. item_as_written copy ≡ item_as_written item.now) }
{
    match item {
        Item::Task(task) => Ok(Item::Task(copy_task(alloc, task)?)),
        Item::Flow(flow) => Ok(Item::Flow(copy_flow(alloc, flow)?)),
    }
}

#[cycle(items)]
#[tactic(auto, using(tf_flow::proofs::WrittenLemmas::flow_written))]
fn copy_flow(alloc: Global, flow: &Flow) -> Result<Flow, Memory>
    ensures { IfOk result (λ copy. as_written (tree_of copy) ≡ as_written (tree_of flow.now)) }
{
    let retry = copy_control(alloc, &flow.retry)?;
    let items = copy_items(alloc, flow.items.items())?;
    let links = copy_links(alloc, flow.links.items())?;
    Ok(Flow {
        name: flow.name,
        kind: flow.kind,
        retry,
        items: Items::make(items),
        links: Links::make(links),
    })
}

#[cycle(items)]
fn copy_items(alloc: Global, items: &[Item]) -> Result<Vec<Item>, Memory>
    ensures { IfOk result (λ copies. map item_as_written copies.items ≡ map item_as_written items.now) }
{
    let mut copies = Vec::with_capacity(alloc, items.len())?;
    for item in items {
        copies.push(copy_item(alloc, item)?)?;
    }
    Ok(copies)
}

fn copy_links(alloc: Global, links: &[Link]) -> Result<Vec<Link>, Memory>
    ensures { IfOk result (λ copies. map connection_of copies.items ≡ map connection_of links.now) }
{
    let mut copies = Vec::with_capacity(alloc, links.len())?;
    for link in links {
        copies.push(copy_link(alloc, link)?)?;
    }
    Ok(copies)
}
