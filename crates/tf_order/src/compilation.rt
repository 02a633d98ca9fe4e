ghost use Rattle.std.specs.Prelude.{◌≡◌, ◌+◌, ◌<◌, ℕ, None, length, map, IfOk, IfErr, OnOk, MatchOption};
ghost use Rattle.tf_flow.specs.Tree.{first_some};
ghost use Rattle.tf_model.specs.Plan.{compile_refusal};
ghost use Rattle.tf_numbers.specs.Numbers.{numbers_below};
ghost use Rattle.tf_order.specs.Graph.{IsGraphOf};
ghost use Rattle.tf_flow.specs.Listing.{level_number, shown_atoms, shown_levels};
ghost use Rattle.tf_order.specs.Refusals.{IsRefusedBy};
ghost use Rattle.tf_order.specs.Tables.{told_at, AreLooked, AreNone, AreProviders};

use crate::arranged::Arranged;
use crate::context::Context;
use crate::faults::CompileFault;
use crate::graph::Graph;
use crate::index::{NameIndex, providers};
use crate::looking::look;
use crate::tables::tables;
use std::alloc::Global;
use tf_flow::{Outline, Plan, outline_of};
use tf_values::Memory;

/// The flows as they are arranged and their faults, each at the number of its flow.
#[derive(Drop)]
pub struct Found {
    pub table: Vec<Option<Arranged>>,
    pub faults: Vec<Option<CompileFault>>,
}

/// The graph of a plan, or its first refusal.
pub fn compile(alloc: Global, plan: &Plan) -> Result<Graph, CompileFault>
    ensures graph { IfOk result (λ graph. IsGraphOf graph plan.now) }
    ensures refused { IfErr result (IsRefusedBy (compile_refusal plan.now)) }
{
    let outline = outline_of(alloc, plan)?;
    let providers = providers(alloc, &outline.atoms)?;
    let found = look_at_flows(alloc, &outline, &providers)?;
    if let Some(fault) = first_fault(&outline.inner_first, found.faults) {
        return Err(fault);
    }
    let graph = tables(alloc, &outline, &found.table)?;
    Ok(graph)
}

/// Looks at all flows, from the last one on: those nested in a flow come later than it.
pub fn look_at_flows(
    alloc: Global,
    outline: &Outline<'_>,
    providers: &NameIndex,
) -> Result<Found, Memory>
    requires providers { AreProviders outline.now providers.now }
    requires numbers { map level_number outline.now.levels.items ≡ numbers_below (length outline.now.levels.items) }
    ensures { IfOk result (λ found. AreLooked (shown_atoms outline.now.atoms.items)
        (shown_levels outline.now.levels.items) 0 found.table.items found.faults.items) }
{
    let mut found = nothing_found(alloc, outline.levels.len())?;
    for flow in (0..outline.levels.len()).rev() {
        look_at_flow(alloc, outline, providers, flow, &mut found)?;
    }
    Ok(found)
}

/// So many flows that weren't looked at.
#[tactic(auto, using(crate::proofs::CompilationLemmas::none_start, crate::proofs::CompilationLemmas::none_more, crate::proofs::CompilationLemmas::none_whole))]
fn nothing_found(alloc: Global, count: usize) -> Result<Found, Memory>
    ensures table { IfOk result (λ found. AreNone count found.table.items) }
    ensures faults { IfOk result (λ found. AreNone count found.faults.items) }
{
    let mut table = Vec::with_capacity(alloc, count)?;
    let mut faults = Vec::with_capacity(alloc, count)?;
    for _ in 0..count {
        table.push(None)?;
        faults.push(None)?;
    }
    Ok(Found { table, faults })
}

/// Looks at a flow, where those after it were looked at.
fn look_at_flow(
    alloc: Global,
    outline: &Outline<'_>,
    providers: &NameIndex,
    flow: usize,
    found: &mut Found,
) -> Result<(), Memory>
    requires providers { AreProviders outline.now providers.now }
    requires numbers { map level_number outline.now.levels.items ≡ numbers_below (length outline.now.levels.items) }
    requires flow { flow < length outline.now.levels.items }
    requires looked { AreLooked (shown_atoms outline.now.atoms.items) (shown_levels outline.now.levels.items)
        (flow + 1) found.old.table.items found.old.faults.items }
    ensures { OnOk result (AreLooked (shown_atoms outline.now.atoms.items)
        (shown_levels outline.now.levels.items) flow found.new.table.items found.new.faults.items) }
{
    let context = Context {
        atoms: &outline.atoms,
        providers,
        table: &found.table,
        level: &outline.levels[flow],
    };
    let looked = look(alloc, &context)?;
    found.table[flow] = Some(looked.arranged);
    found.faults[flow] = looked.refusal;
    Ok(())
}

/// The first fault, in the order in which flows are refused.
#[tactic(auto, using(crate::proofs::CompilationLemmas::refused_start, crate::proofs::CompilationLemmas::refused_more, crate::proofs::CompilationLemmas::refused_all, crate::proofs::CompilationLemmas::refused_here))]
fn first_fault(inner_first: &[usize], faults: Vec<Option<CompileFault>>) -> Option<CompileFault>
    ensures { MatchOption result (first_some (told_at faults.items) inner_first.now ≡ None)
        (IsRefusedBy (first_some (told_at faults.items) inner_first.now)) }
{
    let mut faults = faults;
    for flow in inner_first {
        if let Some(fault) = take_fault(*flow, &mut faults) {
            return Some(fault);
        }
    }
    None
}

/// Takes the fault of a flow, where it has one.
#[tactic(auto, using(crate::proofs::CompilationLemmas::refused_told))]
fn take_fault(flow: usize, faults: &mut Vec<Option<CompileFault>>) -> Option<CompileFault>
    ensures fault { MatchOption result (told_at faults.old.items flow ≡ None)
        (IsRefusedBy (told_at faults.old.items flow)) }
    ensures kept { MatchOption result ((g : ℕ)
        → told_at faults.new.items g ≡ told_at faults.old.items g) (λ _. Unit {0}) }
{
    if flow >= faults.len() {
        return None;
    }
    faults[flow].take()
}
