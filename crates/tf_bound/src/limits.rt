//! The premise of the bound, as the types give it: each value that they hold has short lists, and each
//! plan is within its limits. The calls look at what they are given and change nothing.

ghost use Rattle.std.specs.List.{AllByRecursion};
ghost use Rattle.tf_flow.specs.Plan.{PlanValue};
ghost use Rattle.tf_flow.specs.Tree.{tree_of, item_tree};
ghost use Rattle.tf_model.specs.Plan.{outline_of};
ghost use Rattle.tf_bound.specs.Short.{IsShortValue, IsShortEvent, IsShortBind, IsShortControl, IsShortTree, IsWithinLimits};

use tf_flow::{Bind, Flow, Item, Plan, Retry};
use tf_states::{Payload, What};
use tf_values::Val;

/// A value that is a list has at most 1,024 items.
pub fn value_is_short(value: &Val)
    ensures { IsShortValue value.now }
{
    if let Val::List(scalars) = value {
        scalars.items();
    }
}

/// A value that an entry records has at most 1,024 items where it is a list.
pub fn event_is_short(event: &What)
    ensures { IsShortEvent event.now }
{
    if let What::Atom {
        payload: Payload::Value(value),
        ..
    } = event
    {
        value_is_short(value);
    }
}

/// Each retry controller of a plan has an attempt at least, and each list of its store and its injects
/// has at most 1,024 items.
#[tactic(auto, using(crate::proofs::AcceptedLemmas::accepted_within))]
pub fn plan_is_within_limits(plan: &Plan)
    ensures { IsWithinLimits (outline_of plan.now) }
{
    binds_are_short(plan.store().items());
    flow_is_short(plan.root());
}

fn binds_are_short(binds: &[Bind])
    ensures { AllByRecursion IsShortBind binds.now }
{
    for bind in binds {
        value_is_short(&bind.value);
    }
}

fn control_is_short(control: &Option<Retry>)
    ensures { IsShortControl control.now }
{
    if let Some(retry) = control {
        binds_are_short(retry.inject.items());
    }
}

#[cycle(short)]
fn flow_is_short(flow: &Flow)
    ensures { IsShortTree (tree_of flow.now) }
{
    control_is_short(&flow.retry);
    for item in flow.items.items() {
        item_is_short(item);
    }
}

#[cycle(short)]
fn item_is_short(item: &Item)
    ensures { IsShortTree (item_tree item.now) }
{
    match item {
        Item::Task(task) => binds_are_short(task.inject.items()),
        Item::Flow(flow) => flow_is_short(flow),
    }
}
