ghost use Rattle.std.specs.Prelude.{◌≡◌, List, length, map, IfOk};
ghost use Rattle.tf_flow.specs.Items.{item_list};
ghost use Rattle.tf_model.specs.Before as before;
ghost use Rattle.tf_model.specs.Before.{Flow};
ghost use Rattle.tf_model.specs.Plan.{outline_of as plan_outline, root_item_before};
ghost use Rattle.tf_numbers.specs.Numbers.{numbers_below};
ghost use Rattle.tf_order.specs.Arranged.{ShowsFlows};

use crate::arranged::{Arranged, item_before};
use crate::compilation::look_at_flows;
use crate::index::providers;
use std::alloc::Global;
use tf_flow::{Plan, outline_of};
use tf_values::Memory;

/// Of each item of a plan's root flow, in order, whether it comes before the item of this number: in a
/// linear flow whether it stands earlier, in an unordered one never, and in a graph flow whether it reaches
/// that item by links, those that are inferred included. No item comes before a number that no item has.
pub fn items_before(alloc: Global, plan: &Plan, item: usize) -> Result<Vec<bool>, Memory>
    ensures { IfOk result (λ marks. marks.items ≡ map (root_item_before (plan_outline plan.now) item)
        (numbers_below (length (item_list plan.now.root.items)))) }
{
    let outline = outline_of(alloc, plan)?;
    let providers = providers(alloc, &outline.atoms)?;
    let found = look_at_flows(alloc, &outline, &providers)?;
    let marks = marks_before(alloc, &found.table, plan.root().items.items().len(), item)?;
    Ok(marks)
}

/// Of each of so many items of the first flow whether it comes before an item.
fn marks_before(
    alloc: Global,
    table: &[Option<Arranged>],
    count: usize,
    item: usize,
) -> Result<Vec<bool>, Memory>
    ensures { IfOk result (λ marks. (flows : List Flow) → ShowsFlows table.now flows
        → marks.items ≡ map (λ u. before.item_before flows 0 u item) (numbers_below count)) }
{
    let mut marks = Vec::with_capacity(alloc, count)?;
    for u in 0..count {
        marks.push(item_before(table, 0, u, item))?;
    }
    Ok(marks)
}
