ghost use Rattle.std.specs.Prelude.{◌≡◌, ◌<◌, ◌++◌, OnOk, OnErr, length, slice_get};
ghost use Rattle.tf_values.specs.Growth.{KeepsPrefix};
ghost use Rattle.tf_model.specs.Plan.{outline_of, count};
ghost use Rattle.tf_model.specs.History.{Snapshot, is_revert_failure as reversion_failed, Shows};
ghost use Rattle.tf_report.specs.Lines.{state_shown, payload_shown, failed, unreverted, unreverted_below, ending, report_shown, report as report_of};

use crate::appending::{append, append_named};
use crate::failures::append_payload;
use crate::names::{atom_name, flow_name};
use crate::state_words::flow_word;
use tf_flow::Plan;
use tf_states::{AtomState, AtomView, FlowState, Payload};
use tf_values::Memory;

/// Appends what a run says last, at the moment that the views show: how the flow stands, and where that
/// is FAILURE, which reversions failed. Want of memory leaves the output as it was.
pub fn report(
    plan: &Plan,
    state: FlowState,
    views: &[AtomView],
    out: &mut Vec<u8>,
) -> Result<(), Memory>
    ensures ok { (s : Snapshot) → Shows views.now s → s.flow ≡ state
        → OnOk result (out.new.items ≡ out.old.items ++ report_of (outline_of plan.now) s) }
    ensures err { OnErr result (out.new.items ≡ out.old.items) }
{
    let before = out.len();
    match append_report(plan, state, views, out) {
        Ok(()) => Ok(()),
        Err(fault) => {
            out.truncate(before);
            Err(fault)
        }
    }
}

#[tactic(auto, using(tf_values::proofs::GrowthLemmas::keeps_shorter))]
fn append_report(
    plan: &Plan,
    state: FlowState,
    views: &[AtomView],
    out: &mut Vec<u8>,
) -> Result<(), Memory>
    ensures ok { OnOk result (out.new.items ≡ out.old.items
        ++ report_shown (outline_of plan.now) state (state_shown views.now) (payload_shown views.now)) }
    ensures err { OnErr result (KeepsPrefix out.old.items out.new.items) }
{
    append_ending(plan, state, out)?;
    match state {
        FlowState::Failure => append_unreverted(plan, views, out),
        _ => Ok(()),
    }
}

/// Appends how the flow stands.
#[tactic(auto, using(tf_values::proofs::GrowthLemmas::keeps_shorter))]
fn append_ending(plan: &Plan, state: FlowState, out: &mut Vec<u8>) -> Result<(), Memory>
    ensures ok { OnOk result (out.new.items ≡ out.old.items ++ ending (outline_of plan.now) state) }
    ensures err { OnErr result (KeepsPrefix out.old.items out.new.items) }
{
    append_named(b"end ", flow_name(plan, 0), flow_word(state), out)?;
    append(b"\n", out)
}

/// Appends a line for each atom whose reversion failed.
#[tactic(auto, using(tf_values::proofs::GrowthLemmas::keeps_shorter))]
fn append_unreverted(plan: &Plan, views: &[AtomView], out: &mut Vec<u8>) -> Result<(), Memory>
    ensures ok { OnOk result (out.new.items ≡ out.old.items
        ++ unreverted_below (outline_of plan.now) (state_shown views.now) (payload_shown views.now)
        (count (outline_of plan.now))) }
    ensures err { OnErr result (KeepsPrefix out.old.items out.new.items) }
{
    for atom in 0..plan.atoms() {
        append_atom(plan, atom, views, out)?;
    }
    Ok(())
}

/// Appends a line for the atom, where its reversion failed.
#[tactic(auto, using(tf_values::proofs::GrowthLemmas::keeps_shorter))]
fn append_atom(plan: &Plan, atom: u16, views: &[AtomView], out: &mut Vec<u8>) -> Result<(), Memory>
    ensures ok { OnOk result (out.new.items ≡ out.old.items
        ++ unreverted (outline_of plan.now) atom (state_shown views.now atom) (payload_shown views.now atom)) }
    ensures err { OnErr result (KeepsPrefix out.old.items out.new.items) }
{
    let Some(view) = views.get(atom as usize) else {
        return Ok(());
    };
    if !is_revert_failure(view.state) {
        return Ok(());
    }
    append_failed(plan, atom, &view.payload, out)
}

#[tactic(auto, using(tf_values::proofs::GrowthLemmas::keeps_shorter))]
fn append_failed(plan: &Plan, atom: u16, held: &Payload, out: &mut Vec<u8>) -> Result<(), Memory>
    ensures ok { OnOk result (out.new.items ≡ out.old.items ++ failed (outline_of plan.now) atom held.now) }
    ensures err { OnErr result (KeepsPrefix out.old.items out.new.items) }
{
    append(b"unreverted ", out)?;
    append(atom_name(plan, atom), out)?;
    append_payload(held, out)?;
    append(b"\n", out)
}

fn is_revert_failure(state: AtomState) -> bool
    ensures { result ≡ reversion_failed state }
{
    matches!(state, AtomState::RevertFailure)
}
