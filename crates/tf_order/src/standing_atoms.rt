ghost use Rattle.std.specs.Prelude.{◌≡◌, ◌++◌, List, IfOk, OnOk};
ghost use Rattle.std.specs.Option.{option_to_list};
ghost use Rattle.tf_model.specs.Before.{Flow, flow_at};
ghost use Rattle.tf_model.specs.Before as model;
ghost use Rattle.tf_numbers.specs.Numbers.{Pair};
ghost use Rattle.tf_order.specs.Arranged.{ShowsFlows};
ghost use Rattle.tf_links.specs.Links.{AreLinks};
ghost use Rattle.tf_order.specs.Context.{place_seen, count_seen};

use crate::arranged::Arranged;
use crate::context::Context;
use std::alloc::Global;
use tf_flow::Standing;
use tf_links::Links;
use tf_values::Memory;

/// The atoms of a flow in standing order: its retry controller, and then those of its items, which come
/// in the standing order of their links.
#[tactic(auto, using(crate::proofs::StandingAtomLemmas::atoms_start, crate::proofs::StandingAtomLemmas::atoms_more, crate::proofs::StandingAtomLemmas::atoms_all))]
pub fn standing_atoms(
    alloc: Global,
    context: &Context<'_, '_>,
    links: &Links,
) -> Result<Vec<usize>, Memory>
    requires { links.now.count ≡ count_seen context.now }
    ensures { IfOk result (λ atoms. (inner : List Flow) (pairs : List Pair) → ShowsFlows context.now.table.now inner
        → AreLinks links.now pairs → atoms.items ≡ model.standing_atoms inner (place_seen context.now) pairs) }
{
    let mut atoms = Vec::new(alloc);
    add_retry(context, &mut atoms)?;
    let order = links.standing(alloc)?;
    for item in &order {
        add_item(context, *item, &mut atoms)?;
    }
    Ok(atoms)
}

/// Adds the flow's retry controller, where it has one.
fn add_retry(context: &Context<'_, '_>, atoms: &mut Vec<usize>) -> Result<(), Memory>
    ensures { OnOk result (atoms.new.items ≡ atoms.old.items ++ option_to_list (place_seen context.now).retry) }
{
    match context.level.retry {
        None => Ok(()),
        Some(retry) => {
            atoms.push(retry)?;
            Ok(())
        }
    }
}

/// Adds the atoms of an item in standing order.
#[tactic(auto, using(crate::proofs::StandingAtomLemmas::item_none, crate::proofs::StandingAtomLemmas::item_task, crate::proofs::StandingAtomLemmas::item_flow))]
fn add_item(context: &Context<'_, '_>, item: usize, atoms: &mut Vec<usize>) -> Result<(), Memory>
    ensures { OnOk result ((inner : List Flow) → ShowsFlows context.now.table.now inner
        → atoms.new.items ≡ atoms.old.items ++ model.standing_of_item inner (place_seen context.now) item) }
{
    let Some(place) = context.level.items.get(item) else {
        return Ok(());
    };
    match place.standing {
        Standing::Task(atom) => {
            atoms.push(atom)?;
            Ok(())
        }
        Standing::Flow(flow) => {
            add_flow(context.table, flow, atoms)?;
            Ok(())
        }
    }
}

/// Adds the atoms of a flow in standing order.
#[tactic(auto, using(crate::proofs::StandingAtomLemmas::flow_found, crate::proofs::StandingAtomLemmas::flow_none))]
fn add_flow(table: &[Option<Arranged>], flow: usize, atoms: &mut Vec<usize>) -> Result<(), Memory>
    ensures { OnOk result ((inner : List Flow) → ShowsFlows table.now inner
        → atoms.new.items ≡ atoms.old.items ++ (flow_at inner flow).standing) }
{
    match table.get(flow) {
        Some(Some(arranged)) => {
            atoms.extend_from_slice(&arranged.standing)?;
            Ok(())
        }
        _ => Ok(()),
    }
}
