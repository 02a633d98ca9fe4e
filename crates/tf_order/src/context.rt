ghost use Rattle.std.specs.Prelude.{◌≡◌, ℕ, ◌<◌, List, true, ◌||◌, length, filter, IfOk};
ghost use Rattle.std.specs.List.{list_any};
ghost use Rattle.tf_numbers.specs.Numbers.{which_below, has_number};
ghost use Rattle.tf_model.specs.Before.{Flow};
ghost use Rattle.tf_model.specs.Before as model;
ghost use Rattle.tf_flow.specs.Tree.{is_among};
ghost use Rattle.tf_flow.specs.Limits.{provided};
ghost use Rattle.tf_order.specs.Arranged.{ShowsFlows};
ghost use Rattle.tf_links.specs.Bits.{has, words_for};
ghost use Rattle.tf_order.specs.Marks.{marks, marks_turn, serves_in, leads_to_item, is_other};
ghost use Rattle.tf_order.specs.Context.{atoms_seen, place_seen, count_seen, HasProviders, HasReach};

use crate::arranged::{Arranged, is_path_before};
use crate::index::NameIndex;
use crate::paths::passes_item;
use std::alloc::Global;
use tf_flow::{AtomPlace, Level, Provides, Retry, Turn};
use tf_links::{Bits, has_in};
use tf_values::{Memory, Name};

/// What is looked at to find the links of a flow: all atoms, who provides which symbol, the flows that
/// are arranged already, among which are the nested ones, and the flow.
#[derive(Clone, Copy)]
pub struct Context<'b, 'a> {
    pub atoms: &'b [AtomPlace<'a>],
    pub providers: &'b NameIndex,
    pub table: &'b [Option<Arranged>],
    pub level: &'b Level<'a>,
}

/// Whether no atom that is before an atom in the item provides the symbol.
#[tactic(auto, using(crate::proofs::ContextLemmas::unserved_start, crate::proofs::ContextLemmas::unserved_more, crate::proofs::ContextLemmas::unserved_not, crate::proofs::ContextLemmas::unserved_all, crate::proofs::ContextLemmas::provider_within))]
pub fn is_unserved(context: &Context<'_, '_>, item: usize, atom: usize, symbol: &Name) -> bool
    requires providers { HasProviders context.now }
    requires atom { atom < length context.now.atoms.now }
    ensures { (inner : List Flow) → ShowsFlows context.now.table.now inner
        → result ≡ model.is_unserved (atoms_seen context.now) inner (place_seen context.now).number item atom symbol.now }
{
    for other in context.providers.numbers(symbol) {
        if serves(context, item, atom, *other) {
            return false;
        }
    }
    true
}

/// Whether another atom stands in the item too and is before this one.
#[tactic(auto, using(crate::proofs::ContextLemmas::path_seen))]
fn serves(context: &Context<'_, '_>, item: usize, atom: usize, other: usize) -> bool
    requires atom { atom < length context.now.atoms.now }
    requires other { other < length context.now.atoms.now }
    ensures { (inner : List Flow) → ShowsFlows context.now.table.now inner
        → result ≡ serves_in (atoms_seen context.now) inner (place_seen context.now).number item atom other }
{
    let path = context.atoms[other].path.turns();
    passes_item(path, context.level.number, item)
        && is_path_before(context.table, path, context.atoms[atom].path.turns())
}

/// The items that provide a symbol, ascending.
#[tactic(auto, using(crate::proofs::ContextLemmas::marked_start, crate::proofs::ContextLemmas::marked_more, crate::proofs::ContextLemmas::marked_all, crate::proofs::ContextLemmas::provider_within, crate::proofs::ContextLemmas::path_seen))]
pub fn providing_items(
    alloc: Global,
    context: &Context<'_, '_>,
    symbol: &Name,
) -> Result<Vec<usize>, Memory>
    requires providers { HasProviders context.now }
    ensures { IfOk result (λ items. items.items ≡ which_below (count_seen context.now)
        (model.item_provides (atoms_seen context.now) (place_seen context.now).number symbol.now)) }
{
    let count = context.level.items.len();
    let mut set = Bits::new(alloc, count)?;
    for atom in context.providers.numbers(symbol) {
        let path = context.atoms[*atom].path.turns();
        mark_items(path, context.level.number, count, &mut set);
    }
    let items = set.numbers(alloc)?;
    Ok(items)
}

/// Adds the items of a flow, below the count, that a path leads through.
#[tactic(auto, using(crate::proofs::ContextLemmas::marks_start, crate::proofs::ContextLemmas::marks_more, crate::proofs::ContextLemmas::marks_all))]
fn mark_items(path: &[Turn], flow: usize, count: usize, set: &mut Bits)
    requires wide { length set.old ≡ words_for count }
    ensures wide { length set.new ≡ words_for count }
    ensures set { (u : ℕ) → has set.new u ≡ (has set.old u || marks flow count path.now u) }
{
    for turn in path {
        mark_item(*turn, flow, count, set);
    }
}

/// Adds the item that a turn takes, where it is an item of the flow.
#[tactic(auto, using(crate::proofs::ContextLemmas::mark_other, crate::proofs::ContextLemmas::mark_retry, crate::proofs::ContextLemmas::mark_past, crate::proofs::ContextLemmas::mark_here))]
fn mark_item(turn: Turn, flow: usize, count: usize, set: &mut Bits)
    requires wide { length set.old ≡ words_for count }
    ensures wide { length set.new ≡ words_for count }
    ensures set { (u : ℕ) → has set.new u ≡ (has set.old u || marks_turn flow count turn u) }
{
    if turn.flow != flow {
        return;
    }
    let Some(item) = turn.item else {
        return;
    };
    if item < count {
        set.insert(item);
    }
}

/// The items that give a symbol to an item, where it asks for a link to it: not where the flow's retry
/// controller provides it, or an item that reaches this one by explicit links.
#[tactic(auto, using(crate::proofs::ContextLemmas::givers_by_retry, crate::proofs::ContextLemmas::givers_by_reach, crate::proofs::ContextLemmas::givers_other, tf_numbers::proofs::ListLemmas::none_within, crate::proofs::ContextLemmas::others_within))]
pub fn givers(
    alloc: Global,
    context: &Context<'_, '_>,
    reach: &[Bits],
    item: usize,
    symbol: &Name,
) -> Result<Vec<usize>, Memory>
    requires providers { HasProviders context.now }
    requires reach { HasReach context.now reach.now }
    ensures all { IfOk result (λ found. found.items ≡ model.givers (atoms_seen context.now)
        (place_seen context.now) item symbol.now) }
    ensures within { IfOk result (λ found. (k : ℕ) → has_number found.items k ≡ true → k < count_seen context.now) }
{
    if retry_provides(&context.level.flow.retry, symbol) {
        return Ok(Vec::new(alloc));
    }
    let items = providing_items(alloc, context, symbol)?;
    if one_leads(reach, &items, item) {
        return Ok(Vec::new(alloc));
    }
    let others = others(alloc, &items, item)?;
    Ok(others)
}

/// Whether a retry controller, where there is one, provides the symbol.
fn retry_provides(retry: &Option<Retry>, symbol: &Name) -> bool
    ensures { result ≡ model.retry_provides retry.now symbol.now }
{
    match retry {
        Some(retry) => provides(&retry.provides, symbol),
        None => false,
    }
}

/// Whether the symbol is among those provided.
fn provides(provides: &Provides, symbol: &Name) -> bool
    ensures { result ≡ is_among (provided provides.now) symbol.now }
{
    match provides {
        Provides::Nothing => false,
        Provides::Whole(name) => symbol == name,
        Provides::Parts(names) => names.items().contains(symbol),
    }
}

/// Whether the row of one of the items has this one.
fn one_leads(reach: &[Bits], items: &[usize], item: usize) -> bool
    ensures { result ≡ list_any (leads_to_item reach.now item) items.now }
{
    for other in items {
        if has_in(reach, *other, item) {
            return true;
        }
    }
    false
}

/// The items but one.
fn others(alloc: Global, items: &[usize], item: usize) -> Result<Vec<usize>, Memory>
    ensures { IfOk result (λ others. others.items ≡ filter (is_other item) items.now) }
{
    let mut others = Vec::new(alloc);
    for other in items {
        if *other != item {
            others.push(*other)?;
        }
    }
    Ok(others)
}
