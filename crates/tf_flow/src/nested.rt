ghost use Rattle.std.specs.Prelude.{◌≡◌};
ghost use Rattle.tf_flow.specs.Items.{item_list};

use crate::atoms::{Retry, Task};
use crate::deciders::Links;
use tf_values::Name;

/// In which order a flow's items run.
#[derive(Clone, Copy, Debug, PartialEq, Eq)]
pub enum FlowKind {
    /// As they stand.
    Linear,
    /// In no order.
    Unordered,
    /// As links lead from one to another.
    Graph,
}

/// An item of a flow.
#[cycle(nest)]
#[derive(Debug, Drop)]
pub enum Item {
    Task(Task),
    Flow(Flow),
}

/// Items in order. Contracts see the list as `item_list`.
#[cycle(nest)]
#[derive(Debug, Drop)]
pub struct Items {
    items: Vec<Item>,
}

impl Items {
    /// A list of these items. It takes no memory and sets no limit.
    pub fn make(items: Vec<Item>) -> Items
        ensures { item_list result ≡ items.items }
    {
        Items { items }
    }

    /// The items, in order.
    pub fn items(&self) -> &[Item]
        ensures { result.now ≡ item_list self.now }
    {
        &self.items
    }
}

/// A flow: items, which are tasks and nested flows, and perhaps a retry controller.
#[cycle(nest)]
#[derive(Debug, Drop)]
pub struct Flow {
    pub name: Name,
    pub kind: FlowKind,
    pub retry: Option<Retry>,
    pub items: Items,
    pub links: Links,
}
