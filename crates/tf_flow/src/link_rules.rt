ghost use Rattle.std.specs.Prelude.{◌≡◌, IfOk, is_some, map, not};
ghost use Rattle.std.specs.List.{list_any};
ghost use Rattle.tf_flow.specs.Tree.{first_some, is_among, first_again, member_of, at_flow, item_tree};
ghost use Rattle.tf_flow.specs.Rules as rule;
ghost use Rattle.tf_flow.specs.Shown.{level, members, shown, shown_places};

use crate::deciders::Link;
use crate::nested::{Flow, FlowKind, Item};
use crate::outline::Place;
use crate::repeats::{indexed, set_of};
use indexmap::IndexSet;
use std::alloc::Global;
use tf_values::{Memory, Name};

/// The first end of a link, in tree order, that names no item of its flow.
pub fn first_unknown(alloc: Global, order: &[Place<'_>]) -> Result<Option<Name>, Memory>
    ensures { IfOk result (λ name. name ≡ first_some rule.unknown_at (shown_places order.now)) }
{
    for place in order {
        if let Some(name) = unknown_at(alloc, *place)? {
            return Ok(Some(name));
        }
    }
    Ok(None)
}

fn unknown_at(alloc: Global, place: Place<'_>) -> Result<Option<Name>, Memory>
    ensures { IfOk result (λ name. name ≡ rule.unknown_at (shown place.entry)) }
{
    match place {
        Place::Flow(flow) => unknown_in(alloc, flow),
        Place::Retry(_) | Place::Task(_) => Ok(None),
    }
}

fn unknown_in(alloc: Global, flow: &Flow) -> Result<Option<Name>, Memory>
    ensures { IfOk result (λ name. name ≡ rule.unknown_at (at_flow (level flow.now))) }
{
    let links = flow.links.items();
    if links.is_empty() {
        return Ok(None);
    }
    stray_among(alloc, flow.items.items(), links)
}

/// The first end of the links that names none of the items.
fn stray_among(alloc: Global, items: &[Item], links: &[Link]) -> Result<Option<Name>, Memory>
    ensures { IfOk result (λ name. name
        ≡ first_some (rule.stray_end (rule.member_names (members items.now))) links.now) }
{
    let names = member_names(alloc, items)?;
    let set = set_of(alloc, &names)?;
    Ok(first_stray(&set, links))
}

fn first_stray(names: &IndexSet<Name>, links: &[Link]) -> Option<Name>
    ensures { result ≡ first_some (rule.stray_end names.now.keys) links.now }
{
    for link in links {
        if !names.contains(&link.from) {
            return Some(link.from);
        }
        if !names.contains(&link.to) {
            return Some(link.to);
        }
    }
    None
}

fn member_names(alloc: Global, items: &[Item]) -> Result<Vec<Name>, Memory>
    ensures { IfOk result (λ names. names.items ≡ rule.member_names (members items.now)) }
{
    let mut names = Vec::with_capacity(alloc, items.len())?;
    for item in items {
        names.push(item_name(item))?;
    }
    Ok(names)
}

fn nested_names(alloc: Global, items: &[Item]) -> Result<Vec<Name>, Memory>
    ensures { IfOk result (λ names. names.items ≡ rule.nested_names (members items.now)) }
{
    let mut names = Vec::new(alloc);
    for item in items {
        if is_nested(item) {
            names.push(item_name(item))?;
        }
    }
    Ok(names)
}

fn item_name(item: &Item) -> Name
    ensures { result ≡ (member_of (item_tree item.now)).name }
{
    match item {
        Item::Task(task) => task.name,
        Item::Flow(flow) => flow.name,
    }
}

fn is_nested(item: &Item) -> bool
    ensures { result ≡ not (member_of (item_tree item.now)).is_task }
{
    match item {
        Item::Task(_) => false,
        Item::Flow(_) => true,
    }
}

/// The first flow, in tree order, with links in a flow that is no graph, one pair linked twice, or a
/// decider at a nested flow.
pub fn first_bad_link(alloc: Global, order: &[Place<'_>]) -> Result<Option<Name>, Memory>
    ensures { IfOk result (λ name. name ≡ first_some rule.bad_link_at (shown_places order.now)) }
{
    for place in order {
        if let Some(name) = bad_link_at(alloc, *place)? {
            return Ok(Some(name));
        }
    }
    Ok(None)
}

fn bad_link_at(alloc: Global, place: Place<'_>) -> Result<Option<Name>, Memory>
    ensures { IfOk result (λ name. name ≡ rule.bad_link_at (shown place.entry)) }
{
    match place {
        Place::Flow(flow) => bad_link_in(alloc, flow),
        Place::Retry(_) | Place::Task(_) => Ok(None),
    }
}

fn bad_link_in(alloc: Global, flow: &Flow) -> Result<Option<Name>, Memory>
    ensures { IfOk result (λ name. name ≡ rule.bad_link_at (at_flow (level flow.now))) }
{
    if has_bad_link(alloc, flow)? {
        Ok(Some(flow.name))
    } else {
        Ok(None)
    }
}

fn has_bad_link(alloc: Global, flow: &Flow) -> Result<bool, Memory>
    ensures { IfOk result (λ bad. bad ≡ rule.has_bad_link (level flow.now)) }
{
    let links = flow.links.items();
    if is_stranger(flow.kind, links) {
        return Ok(true);
    }
    if links_twice(alloc, links)? {
        return Ok(true);
    }
    decides_flow(alloc, flow.items.items(), links)
}

/// Whether there are links in a flow that is no graph.
fn is_stranger(kind: FlowKind, links: &[Link]) -> bool
    ensures { result ≡ rule.has_stray_links kind links.now }
{
    match kind {
        FlowKind::Graph => false,
        FlowKind::Linear | FlowKind::Unordered => !links.is_empty(),
    }
}

fn links_twice(alloc: Global, links: &[Link]) -> Result<bool, Memory>
    ensures { IfOk result (λ twice. twice ≡ is_some (first_again rule.same_ends (map rule.ends links.now))) }
{
    let pairs = pairs(alloc, links)?;
    match indexed(alloc, &pairs)? {
        Ok(_) => Ok(false),
        Err(_) => Ok(true),
    }
}

fn pairs(alloc: Global, links: &[Link]) -> Result<Vec<(Name, Name)>, Memory>
    ensures { IfOk result (λ pairs. pairs.items ≡ map rule.ends links.now) }
{
    let mut pairs = Vec::with_capacity(alloc, links.len())?;
    for link in links {
        pairs.push((link.from, link.to))?;
    }
    Ok(pairs)
}

/// Whether a link with a decider has a nested flow at one of its ends.
fn decides_flow(alloc: Global, items: &[Item], links: &[Link]) -> Result<bool, Memory>
    ensures { IfOk result (λ decides. decides ≡ list_any
        (rule.decides_flow (rule.nested_names (members items.now))) links.now) }
{
    if links.is_empty() {
        return Ok(false);
    }
    let names = nested_names(alloc, items)?;
    let nested = set_of(alloc, &names)?;
    Ok(any_decides(&nested, links))
}

fn any_decides(nested: &IndexSet<Name>, links: &[Link]) -> bool
    ensures { result ≡ list_any (rule.decides_flow nested.now.keys) links.now }
{
    for link in links {
        if decides(nested, link) {
            return true;
        }
    }
    false
}

fn decides(nested: &IndexSet<Name>, link: &Link) -> bool
    ensures { result ≡ rule.decides_flow nested.now.keys link.now }
{
    link.decider.is_some() && (nested.contains(&link.from) || nested.contains(&link.to))
}
