ghost use Rattle.std.specs.Prelude.{◌≡◌, ◌≤◌, ◌+◌, ◌*◌, ◌++◌, map, IfOk, OnOk};
ghost use Rattle.tf_flow.specs.Tree.{tree_of, item_tree};
ghost use Rattle.tf_demo.specs.Demo.{after, retry_of as retry_said, pattern_drawn as pattern_said, group_flow as group_said, group_size as size_of_group, group_count as groups_of, groups_from, tasks_from};

use crate::draws::draw;
use crate::names::numbered;
use crate::tasks::task_drawn;
use std::alloc::Global;
use tf_flow::{ArgList, Binds, Flow, FlowKind, Item, Items, Links, Provides, Retry, RetryKind};
use tf_values::Memory;

/// All groups of a size.
#[tactic(auto, using(crate::proofs::GroupLemmas::group_made, crate::proofs::GroupLemmas::groups_made))]
pub fn groups(alloc: Global, size: u16, seed: u32) -> Result<Vec<Item>, Memory>
    requires seed { seed ≤ 65536 }
    requires size { size ≤ 900 }
    ensures { IfOk result (λ items. map item_tree items.items ≡ groups_from size (groups_of size) 0 seed) }
{
    let mut state = seed;
    let mut items = Vec::new(alloc);
    for group in 0..(size + 9) / 10 {
        let flow = group_flow(alloc, size, group, &mut state)?;
        items.push(Item::Flow(flow))?;
    }
    Ok(items)
}

/// A group. It draws its kind, and then its tasks draw theirs.
#[tactic(auto, using(crate::proofs::TreeLemmas::flow_tree))]
fn group_flow(alloc: Global, size: u16, group: u16, state: &mut u32) -> Result<Flow, Memory>
    requires state { state.old ≤ 65536 }
    requires group { 10 * group ≤ size }
    requires size { size ≤ 900 }
    ensures flow { IfOk result (λ flow. tree_of flow ≡ group_said size group state.old) }
    ensures state { OnOk result (state.new ≡ after (1 + size_of_group size group) state.old) }
    ensures small { state.new ≤ 65536 }
{
    let kind = pattern_drawn(draw(state, 3));
    let first = 10 * group;
    let items = tasks(alloc, group, first, (size - first).min(10), state)?;
    Ok(Flow {
        name: numbered(alloc, b'g', group)?,
        kind,
        retry: Some(retry_of(alloc, group)?),
        items: Items::make(items),
        links: Links::make(Vec::new(alloc)),
    })
}

/// So many tasks of a group, from a number on. Each draws its kind.
#[tactic(auto, using(crate::proofs::GroupLemmas::task_made, crate::proofs::GroupLemmas::tasks_made, crate::proofs::GroupLemmas::draw_made, crate::proofs::GroupLemmas::draws_made))]
fn tasks(
    alloc: Global,
    group: u16,
    first: u16,
    count: u16,
    state: &mut u32,
) -> Result<Vec<Item>, Memory>
    requires state { state.old ≤ 65536 }
    requires first { first ≤ 900 }
    requires count { count ≤ 900 }
    ensures tasks { IfOk result (λ items. map item_tree items.items ≡ tasks_from group count first state.old) }
    ensures state { OnOk result (state.new ≡ after count state.old) }
    ensures small { state.new ≤ 65536 }
{
    let mut items = Vec::new(alloc);
    for place in 0..count {
        let task = task_drawn(alloc, group, first + place, draw(state, 4))?;
        items.push(Item::Task(task))?;
    }
    Ok(items)
}

/// The kind of a group, by a draw of 3.
fn pattern_drawn(draw: u32) -> FlowKind
    ensures { result ≡ pattern_said draw }
{
    if draw == 0 {
        return FlowKind::Linear;
    }
    if draw == 1 {
        return FlowKind::Unordered;
    }
    FlowKind::Graph
}

/// The retry controller of a group.
fn retry_of(alloc: Global, group: u16) -> Result<Retry, Memory>
    ensures { IfOk result (λ retry. retry ≡ retry_said group) }
{
    Ok(Retry {
        name: numbered(alloc, b'r', group)?,
        kind: RetryKind::Times {
            attempts: 2,
            all: false,
        },
        args: ArgList::make(Vec::new(alloc)),
        inject: Binds::make(Vec::new(alloc)),
        provides: Provides::Whole(numbered(alloc, b'n', group)?),
    })
}
