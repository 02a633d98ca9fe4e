ghost use Rattle.tf_flow.specs.Paths.{shown_part};
ghost use Rattle.std.specs.Prelude.{◌≡◌, ℕ, ◌<◌, List, [], ◌∷◌, true, ◌&&◌, ◌||◌, nat_eq, length, if◌then◌else◌, flat_map, OnOk, IfOk};
ghost use Rattle.tf_numbers.specs.Numbers.{has_number};
ghost use Rattle.tf_model.specs.Before.{Flow, path_at};
ghost use Rattle.tf_model.specs.Before as model;
ghost use Rattle.tf_flow.specs.Tree.{is_among};
ghost use Rattle.tf_flow.specs.Rules.{bind_symbols};
ghost use Rattle.tf_order.specs.Arranged.{ShowsFlows};
ghost use Rattle.tf_links.specs.Bits.{has, words_for};
ghost use Rattle.tf_links.specs.Links.{leads, LinksValue, AreLinks};
ghost use Rattle.tf_flow.specs.Listing.{shown_level};
ghost use Rattle.tf_order.specs.Context.{atoms_seen, place_seen, count_seen, HasProviders, HasReach, LinksBy, for_item, needed_by, needed_at, taken_at, passed_at};

use crate::context::{Context, givers, is_unserved};
use crate::index::item_names;
use std::alloc::Global;
use tf_flow::{Arg, Bind, Level, Part, Turn};
use tf_links::{Bits, Links};
use tf_values::{Memory, Name};

/// The links of a flow, and the items that two or more others give a symbol.
#[derive(Drop)]
pub struct Found {
    pub links: Links,
    pub ambiguities: Bits,
}

/// Adds the links that are inferred to the explicit ones, and tells the items that have an ambiguous
/// symbol.
#[tactic(auto, using(crate::proofs::TurnLemmas::inferred_start, crate::proofs::TurnLemmas::inferred_more, crate::proofs::TurnLemmas::inferred_all))]
pub fn infer(
    alloc: Global,
    context: &Context<'_, '_>,
    reach: &[Bits],
    found: &mut Found,
) -> Result<(), Memory>
    requires providers { HasProviders context.now }
    requires reach { HasReach context.now reach.now }
    requires count { found.old.links.count ≡ count_seen context.now }
    requires wide { length found.old.ambiguities ≡ words_for (count_seen context.now) }
    ensures count { OnOk result (found.new.links.count ≡ count_seen context.now) }
    ensures wide { OnOk result (length found.new.ambiguities ≡ words_for (count_seen context.now)) }
    ensures links { OnOk result ((inner : List Flow) → ShowsFlows context.now.table.now inner
        → LinksBy context.now (model.needs (atoms_seen context.now) inner
        (place_seen context.now).number)
        found.old.links found.old.ambiguities found.new.links found.new.ambiguities) }
{
    for atom in 0..context.atoms.len() {
        link_atom(alloc, context, reach, atom, found)?;
    }
    Ok(())
}

/// Adds what an atom's symbols give the item that it stands in.
#[tactic(auto, using(crate::proofs::TurnLemmas::turns_start, crate::proofs::TurnLemmas::turns_more, crate::proofs::TurnLemmas::turns_all, crate::proofs::ContextLemmas::path_seen))]
fn link_atom(
    alloc: Global,
    context: &Context<'_, '_>,
    reach: &[Bits],
    atom: usize,
    found: &mut Found,
) -> Result<(), Memory>
    requires providers { HasProviders context.now }
    requires reach { HasReach context.now reach.now }
    requires atom { atom < length context.now.atoms.now }
    requires count { found.old.links.count ≡ count_seen context.now }
    requires wide { length found.old.ambiguities ≡ words_for (count_seen context.now) }
    ensures count { OnOk result (found.new.links.count ≡ count_seen context.now) }
    ensures wide { OnOk result (length found.new.ambiguities ≡ words_for (count_seen context.now)) }
    ensures links { OnOk result ((inner : List Flow) → ShowsFlows context.now.table.now inner
        → LinksBy context.now (passed_at context.now inner atom
        (path_at (atoms_seen context.now) atom))
        found.old.links found.old.ambiguities found.new.links found.new.ambiguities) }
{
    for turn in context.atoms[atom].path.turns() {
        link_turn(alloc, context, reach, atom, *turn, found)?;
    }
    Ok(())
}

/// Adds what an atom's symbols give the item that a turn takes, where it is an item of the flow.
#[tactic(auto, using(crate::proofs::TurnLemmas::turn_other, crate::proofs::TurnLemmas::turn_retry, crate::proofs::TurnLemmas::turn_past, crate::proofs::TurnLemmas::turn_here))]
fn link_turn(
    alloc: Global,
    context: &Context<'_, '_>,
    reach: &[Bits],
    atom: usize,
    turn: Turn,
    found: &mut Found,
) -> Result<(), Memory>
    requires providers { HasProviders context.now }
    requires reach { HasReach context.now reach.now }
    requires atom { atom < length context.now.atoms.now }
    requires count { found.old.links.count ≡ count_seen context.now }
    requires wide { length found.old.ambiguities ≡ words_for (count_seen context.now) }
    ensures count { OnOk result (found.new.links.count ≡ count_seen context.now) }
    ensures wide { OnOk result (length found.new.ambiguities ≡ words_for (count_seen context.now)) }
    ensures links { OnOk result ((inner : List Flow) → ShowsFlows context.now.table.now inner
        → LinksBy context.now
        (taken_at context.now inner atom turn)
        found.old.links found.old.ambiguities found.new.links found.new.ambiguities) }
{
    if turn.flow != context.level.number {
        return Ok(());
    }
    let Some(item) = turn.item else {
        return Ok(());
    };
    if context.level.items.len() <= item {
        return Ok(());
    }
    link_item(alloc, context, reach, atom, item, found)?;
    Ok(())
}

/// Adds what an atom's symbols give an item.
#[tactic(auto, using(crate::proofs::LinkingLemmas::args_start, crate::proofs::LinkingLemmas::args_more, crate::proofs::LinkingLemmas::args_all, crate::proofs::LinkingLemmas::part_seen))]
fn link_item(
    alloc: Global,
    context: &Context<'_, '_>,
    reach: &[Bits],
    atom: usize,
    item: usize,
    found: &mut Found,
) -> Result<(), Memory>
    requires providers { HasProviders context.now }
    requires reach { HasReach context.now reach.now }
    requires atom { atom < length context.now.atoms.now }
    requires item { item < count_seen context.now }
    requires count { found.old.links.count ≡ count_seen context.now }
    requires wide { length found.old.ambiguities ≡ words_for (count_seen context.now) }
    ensures count { OnOk result (found.new.links.count ≡ count_seen context.now) }
    ensures wide { OnOk result (length found.new.ambiguities ≡ words_for (count_seen context.now)) }
    ensures links { OnOk result ((inner : List Flow) → ShowsFlows context.now.table.now inner
        → LinksBy context.now (for_item item
        (needed_at context.now inner atom item)) found.old.links found.old.ambiguities
        found.new.links found.new.ambiguities) }
{
    let part = context.atoms[atom].part;
    for arg in part.args() {
        link_argument(alloc, context, reach, atom, item, part, arg, found)?;
    }
    Ok(())
}

/// Adds what the symbol of an atom's argument gives an item.
#[tactic(auto, using(crate::proofs::LinkingLemmas::argument_bound, crate::proofs::LinkingLemmas::argument_served, crate::proofs::LinkingLemmas::argument_needed))]
fn link_argument(
    alloc: Global,
    context: &Context<'_, '_>,
    reach: &[Bits],
    atom: usize,
    item: usize,
    part: Part<'_>,
    arg: &Arg,
    found: &mut Found,
) -> Result<(), Memory>
    requires providers { HasProviders context.now }
    requires reach { HasReach context.now reach.now }
    requires atom { atom < length context.now.atoms.now }
    requires item { item < count_seen context.now }
    requires count { found.old.links.count ≡ count_seen context.now }
    requires wide { length found.old.ambiguities ≡ words_for (count_seen context.now) }
    ensures count { OnOk result (found.new.links.count ≡ count_seen context.now) }
    ensures wide { OnOk result (length found.new.ambiguities ≡ words_for (count_seen context.now)) }
    ensures links { OnOk result ((inner : List Flow) → ShowsFlows context.now.table.now inner
        → LinksBy context.now (for_item item (needed_by context.now inner item atom (shown_part part.entry)
        (arg.now ∷ [])))
        found.old.links found.old.ambiguities found.new.links found.new.ambiguities) }
{
    if binds(part.injects(), &arg.symbol) {
        return Ok(());
    }
    if !is_unserved(context, item, atom, &arg.symbol) {
        return Ok(());
    }
    link_symbol(alloc, context, reach, item, &arg.symbol, found)?;
    Ok(())
}

/// Whether one of them binds the symbol.
#[tactic(auto, using(crate::proofs::ContextLemmas::bound_start, crate::proofs::ContextLemmas::bound_more, crate::proofs::ContextLemmas::bound_here))]
pub fn binds(injects: &[Bind], symbol: &Name) -> bool
    ensures { result ≡ is_among (bind_symbols injects.now) symbol.now }
{
    for bind in injects {
        if *symbol == bind.symbol {
            return true;
        }
    }
    false
}

/// Adds what a symbol gives an item that needs it: a link from the only other item that provides it, or
/// a ambiguity where there are several.
#[tactic(auto, using(crate::proofs::LinkingLemmas::symbol_none, crate::proofs::LinkingLemmas::symbol_one, crate::proofs::LinkingLemmas::symbol_several, crate::proofs::LinkingLemmas::giver_within))]
fn link_symbol(
    alloc: Global,
    context: &Context<'_, '_>,
    reach: &[Bits],
    item: usize,
    symbol: &Name,
    found: &mut Found,
) -> Result<(), Memory>
    requires providers { HasProviders context.now }
    requires reach { HasReach context.now reach.now }
    requires item { item < count_seen context.now }
    requires count { found.old.links.count ≡ count_seen context.now }
    requires wide { length found.old.ambiguities ≡ words_for (count_seen context.now) }
    ensures count { OnOk result (found.new.links.count ≡ count_seen context.now) }
    ensures wide { OnOk result (length found.new.ambiguities ≡ words_for (count_seen context.now)) }
    ensures links { OnOk result (LinksBy context.now (for_item item
        (symbol.now ∷ []))
        found.old.links found.old.ambiguities found.new.links found.new.ambiguities) }
{
    let from = givers(alloc, context, reach, item, symbol)?;
    if from.is_empty() {
        return Ok(());
    }
    if from.len() > 1 {
        found.ambiguities.insert(item);
        return Ok(());
    }
    found.links.insert(from[0], item);
    Ok(())
}

/// The links that are written in a flow.
#[tactic(auto, using(crate::proofs::ExplicitLemmas::explicit_start, crate::proofs::ExplicitLemmas::explicit_more, crate::proofs::ExplicitLemmas::explicit_all, crate::proofs::ExplicitLemmas::named_below))]
pub fn explicit(alloc: Global, level: &Level<'_>) -> Result<Links, Memory>
    ensures count { IfOk result (λ links. links.count ≡ length level.now.items.items) }
    ensures links { IfOk result (λ links. AreLinks links (model.explicit (shown_level level.now))) }
{
    let names = item_names(alloc, &level.items)?;
    let mut links = Links::new(alloc, level.items.len())?;
    for link in level.flow.links.items() {
        link_all(
            names.numbers(&link.from),
            names.numbers(&link.to),
            &mut links,
        );
    }
    Ok(links)
}

/// Links each of the first items to each of the second.
#[tactic(auto, using(crate::proofs::ExplicitLemmas::all_start, crate::proofs::ExplicitLemmas::all_more, crate::proofs::ExplicitLemmas::all_done, crate::proofs::ExplicitLemmas::number_within))]
fn link_all(from: &[usize], to: &[usize], links: &mut Links)
    requires from { (k : ℕ) → has_number from.now k ≡ true → k < links.old.count }
    requires to { (k : ℕ) → has_number to.now k ≡ true → k < links.old.count }
    ensures count { links.new.count ≡ links.old.count }
    ensures more { (u v : ℕ)
        → leads links.new.rows u v ≡ ((has_number from.now u && has_number to.now v) || leads links.old.rows u v) }
{
    for first in from {
        link_each(*first, to, links);
    }
}

/// Links an item to each of these.
#[tactic(auto, using(crate::proofs::ExplicitLemmas::each_start, crate::proofs::ExplicitLemmas::each_more, crate::proofs::ExplicitLemmas::each_done, crate::proofs::ExplicitLemmas::number_within))]
fn link_each(first: usize, to: &[usize], links: &mut Links)
    requires first { first < links.old.count }
    requires to { (k : ℕ) → has_number to.now k ≡ true → k < links.old.count }
    ensures count { links.new.count ≡ links.old.count }
    ensures more { (u v : ℕ)
        → leads links.new.rows u v ≡ ((nat_eq first u && has_number to.now v) || leads links.old.rows u v) }
{
    for second in to {
        links.insert(first, *second);
    }
}
