ghost use Rattle.std.specs.Prelude.{◌≡◌, ◌++◌, [], IfOk, OnOk, List, ℕ, not, map, filter, unwrap_or};
ghost use Rattle.std.specs.List.{list_any};
ghost use Rattle.indexmap.specs.IndexMap.{get as found_in};
ghost use Rattle.indexmap.specs.IndexSet.{contains as has};
ghost use Rattle.tf_flow.specs.Tree.{same_name, is_among as among};
ghost use Rattle.tf_files.specs.document.Tasks.{arguments_of, named_arguments as arguments_named, required_argument, symbol_for as symbol_of, is_additional, speaks_of as speaks, is_unnamed, injected_argument};

use indexmap::{IndexMap, IndexSet};
use std::alloc::Global;
use tf_flow::{Arg, Bind, set_of};
use tf_values::{Memory, Name};

/// The arguments of a task: the required names, the others that are bound to symbols, and the injected
/// symbols that no other argument speaks of.
pub fn arguments(
    alloc: Global,
    required: &[Name],
    rebound: &[Arg],
    inject: &[Bind],
) -> Result<Vec<Arg>, Memory>
    ensures { IfOk result (λ args. args.items ≡ arguments_of required.now rebound.now inject.now) }
{
    let mut args = named_arguments(alloc, required, rebound)?;
    let injected = injected_arguments(alloc, &args, inject)?;
    if args.is_empty() {
        return Ok(injected);
    }
    args.extend_from_slice(&injected)?;
    Ok(args)
}

/// The required arguments in order, and then the others that are bound to symbols.
fn named_arguments(alloc: Global, required: &[Name], rebound: &[Arg]) -> Result<Vec<Arg>, Memory>
    ensures { IfOk result (λ args. args.items ≡ arguments_named required.now rebound.now) }
{
    let mut args = required_arguments(alloc, required, rebound)?;
    let additional = additional_arguments(alloc, required, rebound)?;
    args.extend_from_slice(&additional)?;
    Ok(args)
}

/// An argument for each required name.
fn required_arguments(alloc: Global, required: &[Name], rebound: &[Arg]) -> Result<Vec<Arg>, Memory>
    ensures { IfOk result (λ args. args.items ≡ map (required_argument rebound.now) required.now) }
{
    if rebound.is_empty() {
        return arguments_by_name(alloc, required);
    }
    arguments_bound(alloc, required, rebound)
}

/// An argument for each name, whose symbol is the name.
fn arguments_by_name(alloc: Global, names: &[Name]) -> Result<Vec<Arg>, Memory>
    ensures { IfOk result (λ args. args.items ≡ map (required_argument []) names.now) }
{
    let mut args = Vec::with_capacity(alloc, names.len())?;
    for name in names {
        args.push(Arg {
            name: *name,
            symbol: *name,
        })?;
    }
    Ok(args)
}

/// An argument for each required name, whose symbol is the one that the name is bound to, if it is bound.
fn arguments_bound(alloc: Global, required: &[Name], rebound: &[Arg]) -> Result<Vec<Arg>, Memory>
    ensures { IfOk result (λ args. args.items ≡ map (required_argument rebound.now) required.now) }
{
    let symbols = symbols_of(alloc, rebound)?;
    let mut args = Vec::with_capacity(alloc, required.len())?;
    for name in required {
        let symbol = symbol_for(&symbols, name);
        args.push(Arg {
            name: *name,
            symbol,
        })?;
    }
    Ok(args)
}

/// The symbols by name. They are put in from the last to the first, so that the first one of a name stays.
fn symbols_of(alloc: Global, rebound: &[Arg]) -> Result<IndexMap<Name, Name>, Memory>
    ensures { IfOk result (λ symbols. (name : List ℕ)
        → unwrap_or (found_in same_name symbols name) name ≡ symbol_of rebound.now name) }
{
    let mut symbols = IndexMap::new(alloc);
    for i in (0..rebound.len()).rev() {
        symbols.insert(rebound[i].name, rebound[i].symbol)?;
    }
    Ok(symbols)
}

/// The symbol that a name is bound to, or the name itself.
fn symbol_for(symbols: &IndexMap<Name, Name>, name: &Name) -> Name
    ensures { result ≡ unwrap_or (found_in same_name symbols.now name.now) name.now }
{
    match symbols.get(name) {
        Some(symbol) => *symbol,
        None => *name,
    }
}

/// The arguments bound to symbols whose names aren't required.
fn additional_arguments(
    alloc: Global,
    required: &[Name],
    rebound: &[Arg],
) -> Result<Vec<Arg>, Memory>
    ensures { IfOk result (λ args. args.items ≡ filter (is_additional required.now) rebound.now) }
{
    if rebound.is_empty() {
        return Ok(Vec::new(alloc));
    }
    let names = set_of(alloc, required)?;
    arguments_outside(alloc, &names, rebound)
}

/// The arguments whose names aren't in the set.
fn arguments_outside(
    alloc: Global,
    names: &IndexSet<Name>,
    rebound: &[Arg],
) -> Result<Vec<Arg>, Memory>
    ensures { IfOk result (λ args. args.items ≡ filter (λ arg. not (has same_name names.now arg.name)) rebound.now) }
{
    let mut args = Vec::new(alloc);
    for arg in rebound {
        if !names.contains(&arg.name) {
            args.push(*arg)?;
        }
    }
    Ok(args)
}

/// An argument for each injected symbol that no argument speaks of.
fn injected_arguments(alloc: Global, args: &[Arg], inject: &[Bind]) -> Result<Vec<Arg>, Memory>
    ensures { IfOk result (λ made. made.items ≡ map injected_argument (filter (is_unnamed args.now) inject.now)) }
{
    if inject.is_empty() {
        return Ok(Vec::new(alloc));
    }
    let spoken = spoken_of(alloc, args)?;
    injected_outside(alloc, &spoken, inject)
}

/// The arguments of the injected symbols that aren't in the set.
fn injected_outside(
    alloc: Global,
    spoken: &IndexSet<Name>,
    inject: &[Bind],
) -> Result<Vec<Arg>, Memory>
    ensures { IfOk result (λ made. made.items ≡ map injected_argument
        (filter (λ bind. not (has same_name spoken.now bind.symbol)) inject.now)) }
{
    let mut made = Vec::with_capacity(alloc, inject.len())?;
    for bind in inject {
        if !spoken.contains(&bind.symbol) {
            made.push(Arg {
                name: bind.symbol,
                symbol: bind.symbol,
            })?;
        }
    }
    Ok(made)
}

/// The set of all names and symbols of the arguments.
fn spoken_of(alloc: Global, args: &[Arg]) -> Result<IndexSet<Name>, Memory>
    ensures { IfOk result (λ set. (symbol : List ℕ) → has same_name set symbol ≡ list_any (speaks symbol) args.now) }
{
    let mut set = IndexSet::new(alloc);
    for arg in args {
        set.insert(arg.name)?;
        set.insert(arg.symbol)?;
    }
    Ok(set)
}
