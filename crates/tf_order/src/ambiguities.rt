ghost use Rattle.tf_flow.specs.Paths.{shown_part};
ghost use Rattle.std.specs.Prelude.{◌≡◌, ◌++◌, ◌∷◌, [], ℕ, ◌<◌, List, Option, None, Some, true, filter, map, drop, length, IfOk, OnOk, option_copied};
ghost use Rattle.tf_flow.specs.Tree.{is_among};
ghost use Rattle.tf_flow.specs.Rules.{bind_symbols};
ghost use Rattle.tf_model.specs.Before.{Flow};
ghost use Rattle.tf_model.specs.Plan as compiling;
ghost use Rattle.tf_model.specs.Before as model;
ghost use Rattle.tf_numbers.specs.Numbers.{Pair, has_number};
ghost use Rattle.tf_links.specs.Graphs.{reached};
ghost use Rattle.tf_flow.specs.Outline.{arguments_of};
ghost use Rattle.tf_order.specs.Arranged.{ShowsFlows};
ghost use Rattle.tf_order.specs.Ambiguities.{ambiguities_by, ambiguities_inside};
ghost use Rattle.tf_model.specs.Plan.{first_cycle};
ghost use Rattle.tf_links.specs.Links.{AreLinks, AreReached};
ghost use Rattle.tf_order.specs.Looked.{told_in};
ghost use Rattle.tf_flow.specs.Listing.{shown_level};
ghost use Rattle.tf_order.specs.Context.{HasProviders, HasReach, atoms_seen, place_seen, count_seen, needed_by, needed_at};

use crate::context::{Context, givers, is_unserved};
use crate::faults::CompileFault;
use crate::linking::binds;
use crate::paths::passes_item;
use std::alloc::Global;
use tf_flow::{Arg, Part};
use tf_links::{Bits, Links, has_in};
use tf_values::{Memory, Name, Names};

/// The refusal of an item: its first ambiguous symbol in byte order, and the first two items that provide
/// it. There is none where no symbol is ambiguous.
#[tactic(auto, using(crate::proofs::AmbiguityLemmas::no_symbol, crate::proofs::AmbiguityLemmas::too_few, crate::proofs::AmbiguityLemmas::two_named, crate::proofs::AmbiguityLemmas::number_read))]
pub fn ambiguity(
    alloc: Global,
    context: &Context<'_, '_>,
    reach: &[Bits],
    item: usize,
) -> Result<Option<CompileFault>, Memory>
    requires providers { HasProviders context.now }
    requires reach { HasReach context.now reach.now }
    ensures { IfOk result (λ fault. (inner : List Flow) → ShowsFlows context.now.table.now inner
        → told_in fault ≡ compiling.ambiguity_at (atoms_seen context.now) inner (place_seen context.now) item) }
{
    let symbols = ambiguous_symbols(alloc, context, reach, item)?;
    let Some(symbol) = least(&symbols) else {
        return Ok(None);
    };
    let from = givers(alloc, context, reach, item, &symbol)?;
    if from.len() < 2 {
        return Ok(None);
    }
    Ok(Some(CompileFault::Ambiguous {
        symbol,
        first: item_name(context, from[0]),
        second: item_name(context, from[1]),
    }))
}

/// The name of an item.
#[tactic(auto, using(crate::proofs::AmbiguityLemmas::name_seen))]
pub fn item_name(context: &Context<'_, '_>, item: usize) -> Name
    requires { item < count_seen context.now }
    ensures { result ≡ model.item_name (place_seen context.now) item }
{
    context.level.items[item].name
}

/// The refusal of a flow for its links: the shortest cycle through the first item that lies on one. There
/// is none where no item reaches itself.
#[tactic(auto, using(crate::proofs::AmbiguityLemmas::cycle_found, crate::proofs::AmbiguityLemmas::no_cycle, crate::proofs::AmbiguityLemmas::none_back_more))]
pub fn cycle_fault(
    alloc: Global,
    context: &Context<'_, '_>,
    links: &Links,
    reach: &[Bits],
) -> Result<Option<CompileFault>, Memory>
    requires { links.now.count ≡ count_seen context.now }
    ensures { IfOk result (λ fault. (pairs : List Pair) → AreLinks links.now pairs
        → AreReached (count_seen context.now) (reached (count_seen context.now) pairs) reach.now
        → told_in fault ≡ first_cycle (place_seen context.now) (count_seen context.now) pairs) }
{
    for item in 0..links.count() {
        if has_in(reach, item, item) {
            let items = links.cycle(alloc, item)?;
            let names = names_of(alloc, context, &items)?;
            return Ok(Some(CompileFault::Cycle(Names::make(names))));
        }
    }
    Ok(None)
}

/// The names of items.
#[tactic(auto, using(crate::proofs::AmbiguityLemmas::names_more, crate::proofs::ExplicitLemmas::number_within))]
fn names_of(alloc: Global, context: &Context<'_, '_>, items: &[usize]) -> Result<Vec<Name>, Memory>
    requires { (k : ℕ) → has_number items.now k ≡ true → k < count_seen context.now }
    ensures { IfOk result (λ names. names.items ≡ map (model.item_name (place_seen context.now)) items.now) }
{
    let mut names = Vec::new(alloc);
    for item in items {
        names.push(item_name(context, *item))?;
    }
    Ok(names)
}

/// The symbols that an item needs and that two or more others provide.
#[tactic(auto, using(crate::proofs::AmbiguityLemmas::all_start, crate::proofs::AmbiguityLemmas::all_more, crate::proofs::AmbiguityLemmas::all_done))]
fn ambiguous_symbols(
    alloc: Global,
    context: &Context<'_, '_>,
    reach: &[Bits],
    item: usize,
) -> Result<Vec<Name>, Memory>
    requires providers { HasProviders context.now }
    requires reach { HasReach context.now reach.now }
    ensures { IfOk result (λ symbols. (inner : List Flow) → ShowsFlows context.now.table.now inner
        → symbols.items ≡ filter (compiling.is_ambiguous (atoms_seen context.now) (place_seen context.now) item)
        (model.needs (atoms_seen context.now) inner (place_seen context.now).number item)) }
{
    let mut symbols = Vec::new(alloc);
    for atom in 0..context.atoms.len() {
        add_of_atom(alloc, context, reach, item, atom, &mut symbols)?;
    }
    Ok(symbols)
}

/// Adds the ambiguous symbols of an atom, where it stands in the item.
#[tactic(auto, using(crate::proofs::AmbiguityLemmas::atom_outside, crate::proofs::AmbiguityLemmas::atom_inside, crate::proofs::ContextLemmas::path_seen))]
fn add_of_atom(
    alloc: Global,
    context: &Context<'_, '_>,
    reach: &[Bits],
    item: usize,
    atom: usize,
    symbols: &mut Vec<Name>,
) -> Result<(), Memory>
    requires providers { HasProviders context.now }
    requires reach { HasReach context.now reach.now }
    requires atom { atom < length context.now.atoms.now }
    ensures { OnOk result ((inner : List Flow) → ShowsFlows context.now.table.now inner
        → symbols.new.items ≡ symbols.old.items ++ ambiguities_inside context.now inner item atom) }
{
    let place = &context.atoms[atom];
    if !passes_item(place.path.turns(), context.level.number, item) {
        return Ok(());
    }
    add_of_part(alloc, context, reach, item, atom, place.part, symbols)?;
    Ok(())
}

/// Adds the ambiguous symbols of an atom that stands in the item.
#[tactic(auto, using(crate::proofs::AmbiguityLemmas::part_start, crate::proofs::AmbiguityLemmas::part_more, crate::proofs::AmbiguityLemmas::part_all))]
fn add_of_part(
    alloc: Global,
    context: &Context<'_, '_>,
    reach: &[Bits],
    item: usize,
    atom: usize,
    part: Part<'_>,
    symbols: &mut Vec<Name>,
) -> Result<(), Memory>
    requires providers { HasProviders context.now }
    requires reach { HasReach context.now reach.now }
    requires atom { atom < length context.now.atoms.now }
    ensures { OnOk result ((inner : List Flow) → ShowsFlows context.now.table.now inner
        → symbols.new.items ≡ symbols.old.items ++ ambiguities_by context.now inner item atom (shown_part part.entry)
        (arguments_of (shown_part part.entry))) }
{
    for arg in part.args() {
        add_of_argument(alloc, context, reach, item, atom, part, arg, symbols)?;
    }
    Ok(())
}

/// Adds the symbol of an argument, where it is ambiguous.
#[tactic(auto, using(crate::proofs::AmbiguityLemmas::argument_bound, crate::proofs::AmbiguityLemmas::argument_served, crate::proofs::AmbiguityLemmas::argument_clear, crate::proofs::AmbiguityLemmas::argument_ambiguous))]
fn add_of_argument(
    alloc: Global,
    context: &Context<'_, '_>,
    reach: &[Bits],
    item: usize,
    atom: usize,
    part: Part<'_>,
    arg: &Arg,
    symbols: &mut Vec<Name>,
) -> Result<(), Memory>
    requires providers { HasProviders context.now }
    requires reach { HasReach context.now reach.now }
    requires atom { atom < length context.now.atoms.now }
    ensures { OnOk result ((inner : List Flow) → ShowsFlows context.now.table.now inner
        → symbols.new.items ≡ symbols.old.items ++ ambiguities_by context.now inner item atom (shown_part part.entry)
        (arg.now ∷ [])) }
{
    if binds(part.injects(), &arg.symbol) {
        return Ok(());
    }
    if !is_unserved(context, item, atom, &arg.symbol) {
        return Ok(());
    }
    let from = givers(alloc, context, reach, item, &arg.symbol)?;
    if from.len() < 2 {
        return Ok(());
    }
    symbols.push(arg.symbol)?;
    Ok(())
}

/// The first of the names in byte order.
fn least(names: &[Name]) -> Option<Name>
    ensures { result ≡ compiling.least names.now }
{
    let mut best = None;
    for i in (0..names.len()).rev() {
        best = Some(lesser(names[i], best));
    }
    best
}

/// The name, or the other where that stands before it.
fn lesser(name: Name, other: Option<Name>) -> Name
    ensures { result ≡ compiling.lesser name other }
{
    match other {
        None => name,
        Some(other) => {
            if is_less(other.bytes(), name.bytes()) {
                other
            } else {
                name
            }
        }
    }
}

/// Whether the first bytes stand before the second.
#[tactic(auto, using(crate::proofs::AmbiguityLemmas::less_apart, crate::proofs::AmbiguityLemmas::less_same, crate::proofs::AmbiguityLemmas::less_over))]
fn is_less(a: &[u8], b: &[u8]) -> bool
    ensures { result ≡ compiling.name_less a.now b.now }
{
    for i in 0..a.len().min(b.len()) {
        if a[i] != b[i] {
            return a[i] < b[i];
        }
    }
    a.len() < b.len()
}
