ghost use Rattle.std.specs.Prelude.{◌≡◌, ◌++◌, IfOk, OnOk};
ghost use Rattle.tf_flow.specs.Limits.{capped};
ghost use Rattle.tf_flow.specs.Tree.{places, places_among, retry_places, tree_order, name_at, is_flow, is_retry_place, tree_of, item_tree, trees_of, nesting};
ghost use Rattle.tf_flow.specs.Shown.{shown, shown_places};

use crate::atoms::{Retry, Task};
use crate::nested::{Flow, Item};
use tf_values::{Memory, Name};

/// What stands at one place of a flow.
#[derive(Clone, Copy)]
pub enum Place<'a> {
    Flow(&'a Flow),
    Retry(&'a Retry),
    Task(&'a Task),
}

impl Place<'_> {
    /// The name of the flow or the atom that stands there.
    pub fn name(&self) -> Name
        ensures { result ≡ name_at (shown self.now) }
    {
        match self {
            Place::Flow(flow) => flow.name,
            Place::Retry(retry) => retry.name,
            Place::Task(task) => task.name,
        }
    }

    /// Whether a flow stands there, and no atom.
    pub fn is_flow(&self) -> bool
        ensures { result ≡ is_flow (shown self.now) }
    {
        matches!(self, Place::Flow(_))
    }

    pub fn is_retry(&self) -> bool
        ensures { result ≡ is_retry_place (shown self.now) }
    {
        matches!(self, Place::Retry(_))
    }
}

/// Adds what stands in a flow, in tree order, and answers how many flows stand in one another.
#[cycle(outline)]
pub fn add_flow<'a>(flow: &'a Flow, order: &mut Vec<Place<'a>>) -> Result<u64, Memory>
    ensures listed { OnOk result (shown_places order.new.items ≡ shown_places order.old.items ++ tree_order flow.now) }
    ensures nested { IfOk result (λ n. n ≡ capped (nesting (tree_of flow.now))) }
{
    order.push(Place::Flow(flow))?;
    add_retry(&flow.retry, order)?;
    let mut below = 0u64;
    for item in flow.items.items() {
        let nesting = add_item(item, order)?;
        below = below.max(nesting);
    }
    Ok(below.saturating_add(1))
}

/// Adds what stands in an item.
#[cycle(outline)]
fn add_item<'a>(item: &'a Item, order: &mut Vec<Place<'a>>) -> Result<u64, Memory>
    ensures listed { OnOk result (shown_places order.new.items ≡ shown_places order.old.items
        ++ places (item_tree item.now)) }
    ensures nested { IfOk result (λ n. n ≡ capped (nesting (item_tree item.now))) }
{
    match item {
        Item::Task(task) => {
            order.push(Place::Task(task))?;
            Ok(0)
        }
        Item::Flow(flow) => add_flow(flow, order),
    }
}

/// Adds the retry controller of a flow, where it has one.
fn add_retry<'a>(retry: &'a Option<Retry>, order: &mut Vec<Place<'a>>) -> Result<(), Memory>
    ensures { OnOk result (shown_places order.new.items ≡ shown_places order.old.items ++ retry_places retry.now) }
{
    match retry {
        None => Ok(()),
        Some(retry) => {
            order.push(Place::Retry(retry))?;
            Ok(())
        }
    }
}
