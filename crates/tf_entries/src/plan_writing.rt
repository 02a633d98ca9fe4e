ghost use Rattle.std.specs.Prelude.{◌≡◌, ◌≤◌, ◌++◌, ◌∷◌, [], length, OnOk, OnErr};
ghost use Rattle.std.specs.List.{flat_map, AllByRecursion};
ghost use Rattle.tf_flow.specs.Tree.{tree_of};
ghost use Rattle.tf_flow.specs.Plan.{as_written};
ghost use Rattle.tf_values.specs.Growth.{KeepsPrefix};
ghost use Rattle.tf_entries.specs.Plans.{IsName, name_bytes, listed, AreFew};
ghost use Rattle.tf_entries.specs.Plans as form;
ghost use Rattle.tf_entries.specs.Shown.{item_bytes, IsItem};

use crate::appending::{append, append_name};
use crate::atom_writing::{append_count, append_listed, append_retry, append_task, truth_byte};
use tf_flow::{Flow, FlowKind, Item, Plan, Retry};
use tf_values::{Memory, Name};

/// Appends the form of a plan. A plan has none where its deciders hold a list of more than 65,535 tests,
/// which no file spells; it is answered as want of memory. That leaves the output as it was.
pub fn encode_plan(plan: &Plan, out: &mut Vec<u8>) -> Result<(), Memory>
    ensures ok { OnOk result (out.new.items ≡ out.old.items ++ form.plan_bytes plan.now) }
    ensures is_plan { OnOk result (form.IsPlan plan.now) }
    ensures long { OnOk result ((1 ≤ length (form.plan_bytes plan.now))
        × (length (form.plan_bytes plan.now) ≤ 1048576)) }
    ensures err { OnErr result (out.new.items ≡ out.old.items) }
{
    let before = out.len();
    match append_plan(plan, out) {
        Ok(()) => Ok(()),
        Err(fault) => {
            out.truncate(before);
            Err(fault)
        }
    }
}

#[tactic(auto, using(tf_values::proofs::GrowthLemmas::keeps_shorter, crate::proofs::LengthLemmas::plan_bounds))]
fn append_plan(plan: &Plan, out: &mut Vec<u8>) -> Result<(), Memory>
    ensures ok { OnOk result (out.new.items ≡ out.old.items ++ form.plan_bytes plan.now) }
    ensures is_plan { OnOk result (form.IsPlan plan.now) }
    ensures long { OnOk result ((1 ≤ length (form.plan_bytes plan.now))
        × (length (form.plan_bytes plan.now) ≤ 1048576)) }
    ensures err { OnErr result (KeepsPrefix out.old.items out.new.items) }
{
    append_flow(plan.root(), out)?;
    append_listed(plan.store().items(), out)?;
    append(&[truth_byte(plan.defer())], out)
}

/// Appends a flow.
#[cycle(writing)]
#[tactic(auto, using(tf_values::proofs::GrowthLemmas::keeps_shorter))]
fn append_flow(flow: &Flow, out: &mut Vec<u8>) -> Result<(), Memory>
    ensures ok { OnOk result (out.new.items ≡ out.old.items ++ form.tree_bytes (as_written (tree_of flow.now))) }
    ensures good { OnOk result (form.IsTree (as_written (tree_of flow.now))) }
    ensures err { OnErr result (KeepsPrefix out.old.items out.new.items) }
{
    append_head(&flow.name, flow.kind, &flow.retry, out)?;
    append_items(flow.items.items(), out)?;
    append_listed(flow.links.items(), out)
}

/// Appends items behind their number.
#[cycle(writing)]
#[tactic(auto, using(tf_values::proofs::GrowthLemmas::keeps_shorter))]
fn append_items(items: &[Item], out: &mut Vec<u8>) -> Result<(), Memory>
    ensures ok { OnOk result (out.new.items ≡ out.old.items ++ listed item_bytes items.now) }
    ensures good { OnOk result (AreFew IsItem items.now) }
    ensures err { OnErr result (KeepsPrefix out.old.items out.new.items) }
{
    append_count(items.len(), out)?;
    each_item(items, out)
}

#[cycle(writing)]
#[tactic(auto, using(tf_values::proofs::GrowthLemmas::keeps_shorter))]
fn each_item(items: &[Item], out: &mut Vec<u8>) -> Result<(), Memory>
    ensures ok { OnOk result (out.new.items ≡ out.old.items ++ flat_map item_bytes items.now) }
    ensures good { OnOk result (AllByRecursion IsItem items.now) }
    ensures err { OnErr result (KeepsPrefix out.old.items out.new.items) }
{
    for item in items {
        append_item(item, out)?;
    }
    Ok(())
}

/// Appends an item behind its mark.
#[cycle(writing)]
#[tactic(auto, using(tf_values::proofs::GrowthLemmas::keeps_shorter, tf_flow::proofs::WrittenLemmas::items_as_written))]
fn append_item(item: &Item, out: &mut Vec<u8>) -> Result<(), Memory>
    ensures ok { OnOk result (out.new.items ≡ out.old.items ++ item_bytes item.now) }
    ensures good { OnOk result (IsItem item.now) }
    ensures err { OnErr result (KeepsPrefix out.old.items out.new.items) }
{
    match item {
        Item::Task(task) => {
            append(&[0], out)?;
            append_task(task, out)
        }
        Item::Flow(flow) => {
            append(&[1], out)?;
            append_flow(flow, out)
        }
    }
}

/// Appends a flow's name, its kind, and its retry controller.
#[tactic(auto, using(tf_values::proofs::GrowthLemmas::keeps_shorter))]
fn append_head(
    name: &Name,
    kind: FlowKind,
    retry: &Option<Retry>,
    out: &mut Vec<u8>,
) -> Result<(), Memory>
    ensures ok { OnOk result (out.new.items ≡ out.old.items
        ++ (name_bytes name.now ++ (form.flow_kind_byte kind ∷ form.control_bytes retry.now))) }
    ensures name { OnOk result (IsName name.now) }
    ensures control { OnOk result (form.IsControl retry.now) }
    ensures err { OnErr result (KeepsPrefix out.old.items out.new.items) }
{
    append_name(name, out)?;
    append(&[flow_kind_byte(kind)], out)?;
    match retry {
        None => append(&[0], out),
        Some(retry) => {
            append(&[1], out)?;
            append_retry(retry, out)
        }
    }
}

fn flow_kind_byte(kind: FlowKind) -> u8
    ensures { result ≡ form.flow_kind_byte kind }
{
    match kind {
        FlowKind::Linear => 0,
        FlowKind::Unordered => 1,
        FlowKind::Graph => 2,
    }
}
