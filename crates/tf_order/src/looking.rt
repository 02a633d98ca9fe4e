ghost use Rattle.std.specs.Prelude.{◌≡◌, ℕ, List, false, Some, None, IfOk};
ghost use Rattle.tf_flow.specs.Rules.{is_graph};
ghost use Rattle.tf_flow.specs.declared.nested.FlowKind.TheVariants as kind;
ghost use Rattle.tf_model.specs.Before.{Flow};
ghost use Rattle.tf_order.specs.Arranged.{IsArranged, ShowsFlows};
ghost use Rattle.tf_order.specs.Looked.{told_in, arranged_seen, refusal_seen};
ghost use Rattle.tf_model.specs.Plan.{ambiguity_at, first_cycle};
ghost use Rattle.tf_numbers.specs.Numbers.{Pair, first_below};
ghost use Rattle.tf_links.specs.Graphs.{reached};
ghost use Rattle.tf_links.specs.Bits.{has, room};
ghost use Rattle.tf_links.specs.Links.{AreLinks, AreReached, IsSquare};
ghost use Rattle.tf_order.specs.Context.{HasProviders, HasReach, atoms_seen, place_seen, count_seen};

use crate::ambiguities::{ambiguity, cycle_fault};
use crate::arranged::Arranged;
use crate::context::Context;
use crate::faults::CompileFault;
use crate::linking::{Found, explicit, infer};
use crate::standing_atoms::standing_atoms;
use std::alloc::Global;
use tf_flow::FlowKind;
use tf_links::{Bits, Links, are_same, copy_rows};
use tf_values::Memory;

/// A flow that was looked at: what its links mean, and why it is refused, if it is.
#[derive(Drop)]
pub struct Looked {
    pub arranged: Arranged,
    pub refusal: Option<CompileFault>,
}

/// Looks at a flow: finds its links, its order and its refusal.
pub fn look(alloc: Global, context: &Context<'_, '_>) -> Result<Looked, Memory>
    requires providers { HasProviders context.now }
    ensures arranged { IfOk result (λ looked. (inner : List Flow) → ShowsFlows context.now.table.now inner
        → IsArranged looked.arranged (arranged_seen context.now inner)) }
    ensures refusal { IfOk result (λ looked. (inner : List Flow) → ShowsFlows context.now.table.now inner
        → told_in looked.refusal ≡ refusal_seen context.now inner) }
{
    match context.level.flow.kind {
        FlowKind::Linear | FlowKind::Unordered => look_at_plain(alloc, context),
        FlowKind::Graph => look_at_graph(alloc, context),
    }
}

/// Looks at a flow without links: a linear or an unordered one.
#[tactic(auto, using(crate::proofs::LookLemmas::plain_arranged, crate::proofs::LookLemmas::plain_refusal))]
fn look_at_plain(alloc: Global, context: &Context<'_, '_>) -> Result<Looked, Memory>
    requires kind { is_graph (place_seen context.now).kind ≡ false }
    ensures arranged { IfOk result (λ looked. (inner : List Flow) → ShowsFlows context.now.table.now inner
        → IsArranged looked.arranged (arranged_seen context.now inner)) }
    ensures refusal { IfOk result (λ looked. (inner : List Flow) → ShowsFlows context.now.table.now inner
        → told_in looked.refusal ≡ refusal_seen context.now inner) }
{
    let links = Links::new(alloc, context.level.items.len())?;
    let standing = standing_atoms(alloc, context, &links)?;
    let arranged = Arranged {
        kind: context.level.flow.kind,
        links,
        reach: Vec::new(alloc),
        standing,
    };
    Ok(Looked {
        arranged,
        refusal: None,
    })
}

/// Looks at a graph flow.
#[tactic(auto, using(crate::proofs::LookLemmas::graph_links, crate::proofs::LookLemmas::graph_arranged))]
fn look_at_graph(alloc: Global, context: &Context<'_, '_>) -> Result<Looked, Memory>
    requires providers { HasProviders context.now }
    requires kind { (place_seen context.now).kind ≡ kind.Graph }
    ensures arranged { IfOk result (λ looked. (inner : List Flow) → ShowsFlows context.now.table.now inner
        → IsArranged looked.arranged (arranged_seen context.now inner)) }
    ensures refusal { IfOk result (λ looked. (inner : List Flow) → ShowsFlows context.now.table.now inner
        → told_in looked.refusal ≡ refusal_seen context.now inner) }
{
    let links = explicit(alloc, context.level)?;
    let explicit_reach = links.reach(alloc)?;
    let written = copy_rows(alloc, links.rows())?;
    let ambiguities = Bits::new(alloc, links.count())?;
    let mut found = Found { links, ambiguities };
    infer(alloc, context, &explicit_reach, &mut found)?;
    let Found { links, ambiguities } = found;
    let reach = reach_of(alloc, &links, &written, &explicit_reach)?;
    let refusal = refusal(
        alloc,
        context,
        &explicit_reach,
        &ambiguities,
        &links,
        &reach,
    )?;
    let standing = standing_atoms(alloc, context, &links)?;
    let arranged = Arranged {
        kind: FlowKind::Graph,
        links,
        reach,
        standing,
    };
    Ok(Looked { arranged, refusal })
}

/// Which item reaches which by links. Where these are still the written ones, it is known.
#[tactic(auto, using(crate::proofs::LookLemmas::reach_kept))]
fn reach_of(
    alloc: Global,
    links: &Links,
    written: &[Bits],
    explicit_reach: &[Bits],
) -> Result<Vec<Bits>, Memory>
    requires written { IsSquare links.now.count written.now }
    requires reach { (pairs : List Pair) → AreLinks record { count = links.now.count; rows = written.now } pairs
        → AreReached links.now.count (reached links.now.count pairs) explicit_reach.now }
    ensures { IfOk result (λ rows. (pairs : List Pair) → AreLinks links.now pairs
        → AreReached links.now.count (reached links.now.count pairs) rows.items) }
{
    if are_same(links.count(), written, links.rows()) {
        let rows = copy_rows(alloc, explicit_reach)?;
        return Ok(rows);
    }
    let rows = links.reach(alloc)?;
    Ok(rows)
}

/// The refusal of a graph flow: that of the first item with an ambiguous symbol, or else that of its links.
fn refusal(
    alloc: Global,
    context: &Context<'_, '_>,
    explicit_reach: &[Bits],
    ambiguities: &Bits,
    links: &Links,
    reach: &[Bits],
) -> Result<Option<CompileFault>, Memory>
    requires providers { HasProviders context.now }
    requires reach { HasReach context.now explicit_reach.now }
    requires count { links.now.count ≡ count_seen context.now }
    ensures ambiguity { IfOk result (λ fault. (item : ℕ) (inner : List Flow)
        → first_below (room ambiguities.now) (has ambiguities.now) ≡ Some item → ShowsFlows context.now.table.now inner
        → told_in fault ≡ ambiguity_at (atoms_seen context.now) inner (place_seen context.now) item) }
    ensures cycle { IfOk result (λ fault. (pairs : List Pair)
        → first_below (room ambiguities.now) (has ambiguities.now) ≡ None → AreLinks links.now pairs
        → AreReached (count_seen context.now) (reached (count_seen context.now) pairs) reach.now
        → told_in fault ≡ first_cycle (place_seen context.now) (count_seen context.now) pairs) }
{
    match ambiguities.first() {
        Some(item) => ambiguity(alloc, context, explicit_reach, item),
        None => cycle_fault(alloc, context, links, reach),
    }
}
