ghost use Rattle.std.specs.Prelude.{◌≡◌, IfOk, None, map};
ghost use Rattle.tf_flow.specs.Tree.{first_again, same_name, name_at};
ghost use Rattle.tf_flow.specs.Limits.{too_large};
ghost use Rattle.tf_flow.specs.Rules as refusal;
ghost use Rattle.std.specs.Option.{option_or};
ghost use Rattle.tf_flow.specs.Shown.{shown, shown_places};

use crate::atom_rules::first_bad_atom;
use crate::atoms::Bind;
use crate::faults::PlanFault;
use crate::limits::{atom_count, first_limit};
use crate::link_rules::{first_bad_link, first_unknown};
use crate::outline::Place;
use crate::repeats::{has_name_twice, indexed};
use std::alloc::Global;
use tf_values::{Memory, Name};

/// The first limit that is passed, or else the first rule that is broken.
pub fn first_refusal(
    alloc: Global,
    root: Name,
    nesting: u64,
    order: &[Place<'_>],
    store: &[Bind],
) -> Result<Option<PlanFault>, Memory>
    ensures { IfOk result (λ fault. fault ≡ option_or (too_large nesting (shown_places order.now) store.now)
        (refusal.broken_rule root store.now (shown_places order.now))) }
{
    if let Some(fault) = first_limit(nesting, order, store) {
        return Ok(Some(fault));
    }
    broken_rule(alloc, root, order, store)
}

fn broken_rule(
    alloc: Global,
    root: Name,
    order: &[Place<'_>],
    store: &[Bind],
) -> Result<Option<PlanFault>, Memory>
    ensures { IfOk result (λ fault. fault ≡ refusal.broken_rule root store.now (shown_places order.now)) }
{
    if atom_count(order) == 0 {
        return Ok(Some(PlanFault::Empty));
    }
    if let Some(name) = first_duplicate(alloc, order)? {
        return Ok(Some(PlanFault::Duplicate(name)));
    }
    if let Some(name) = first_unknown(alloc, order)? {
        return Ok(Some(PlanFault::Unknown(name)));
    }
    if let Some(name) = first_bad_link(alloc, order)? {
        return Ok(Some(PlanFault::BadLink(name)));
    }
    bad_atom(alloc, root, order, store)
}

/// The first name that stands earlier already.
fn first_duplicate(alloc: Global, order: &[Place<'_>]) -> Result<Option<Name>, Memory>
    ensures { IfOk result (λ name. name ≡ first_again same_name (map name_at (shown_places order.now))) }
{
    let names = names(alloc, order)?;
    match indexed(alloc, &names)? {
        Ok(_) => Ok(None),
        Err(name) => Ok(Some(name)),
    }
}

fn names(alloc: Global, order: &[Place<'_>]) -> Result<Vec<Name>, Memory>
    ensures { IfOk result (λ names. names.items ≡ map name_at (shown_places order.now)) }
{
    let mut names = Vec::with_capacity(alloc, order.len())?;
    for place in order {
        names.push(place.name())?;
    }
    Ok(names)
}

fn bad_atom(
    alloc: Global,
    root: Name,
    order: &[Place<'_>],
    store: &[Bind],
) -> Result<Option<PlanFault>, Memory>
    ensures { IfOk result (λ fault. fault ≡ refusal.bad_atom root store.now (shown_places order.now)) }
{
    if has_name_twice(alloc, store)? {
        return Ok(Some(PlanFault::BadAtom(root)));
    }
    match first_bad_atom(alloc, order)? {
        Some(name) => Ok(Some(PlanFault::BadAtom(name))),
        None => Ok(None),
    }
}
