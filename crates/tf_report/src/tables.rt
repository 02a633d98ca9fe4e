ghost use Rattle.std.specs.Prelude.{◌≡◌, ◌++◌, OnOk, OnErr};
ghost use Rattle.tf_values.specs.Growth.{KeepsPrefix};
ghost use Rattle.tf_model.specs.Plan.{outline_of, count};
ghost use Rattle.tf_model.specs.History.{Snapshot, Shows};
ghost use Rattle.tf_report.specs.Lines.{state_shown, payload_shown, flow_line, atom_line, atom_lines_below, table_shown, table as table_of};

use crate::appending::{append, append_named};
use crate::failures::append_payload;
use crate::names::{atom_name, flow_name};
use crate::state_words::{atom_word, flow_word};
use tf_flow::Plan;
use tf_states::{AtomState, AtomView, FlowState, Payload};
use tf_values::Memory;

/// Appends where the flow and each atom stand, at the moment that the views show: a line for the flow,
/// and one for each atom in tree order. Want of memory leaves the output as it was.
pub fn table(
    plan: &Plan,
    state: FlowState,
    views: &[AtomView],
    out: &mut Vec<u8>,
) -> Result<(), Memory>
    ensures ok { (s : Snapshot) → Shows views.now s → s.flow ≡ state
        → OnOk result (out.new.items ≡ out.old.items ++ table_of (outline_of plan.now) s) }
    ensures err { OnErr result (out.new.items ≡ out.old.items) }
{
    let before = out.len();
    match append_table(plan, state, views, out) {
        Ok(()) => Ok(()),
        Err(fault) => {
            out.truncate(before);
            Err(fault)
        }
    }
}

#[tactic(auto, using(tf_values::proofs::GrowthLemmas::keeps_shorter))]
fn append_table(
    plan: &Plan,
    state: FlowState,
    views: &[AtomView],
    out: &mut Vec<u8>,
) -> Result<(), Memory>
    ensures ok { OnOk result (out.new.items ≡ out.old.items
        ++ table_shown (outline_of plan.now) state (state_shown views.now) (payload_shown views.now)) }
    ensures err { OnErr result (KeepsPrefix out.old.items out.new.items) }
{
    append_flow(plan, state, out)?;
    append_atoms(plan, views, out)
}

/// Appends how the flow stands.
#[tactic(auto, using(tf_values::proofs::GrowthLemmas::keeps_shorter))]
fn append_flow(plan: &Plan, state: FlowState, out: &mut Vec<u8>) -> Result<(), Memory>
    ensures ok { OnOk result (out.new.items ≡ out.old.items ++ flow_line (outline_of plan.now) state) }
    ensures err { OnErr result (KeepsPrefix out.old.items out.new.items) }
{
    append_named(b"state ", flow_name(plan, 0), flow_word(state), out)?;
    append(b"\n", out)
}

/// Appends a line for each atom, in tree order.
#[tactic(auto, using(tf_values::proofs::GrowthLemmas::keeps_shorter))]
fn append_atoms(plan: &Plan, views: &[AtomView], out: &mut Vec<u8>) -> Result<(), Memory>
    ensures ok { OnOk result (out.new.items ≡ out.old.items
        ++ atom_lines_below (outline_of plan.now) (state_shown views.now) (payload_shown views.now)
        (count (outline_of plan.now))) }
    ensures err { OnErr result (KeepsPrefix out.old.items out.new.items) }
{
    for atom in 0..plan.atoms() {
        append_atom(plan, atom, views, out)?;
    }
    Ok(())
}

/// Appends the line of an atom, which is PENDING where the views end before it.
#[tactic(auto, using(tf_values::proofs::GrowthLemmas::keeps_shorter))]
fn append_atom(plan: &Plan, atom: u16, views: &[AtomView], out: &mut Vec<u8>) -> Result<(), Memory>
    ensures ok { OnOk result (out.new.items ≡ out.old.items
        ++ atom_line (outline_of plan.now) atom (state_shown views.now atom) (payload_shown views.now atom)) }
    ensures err { OnErr result (KeepsPrefix out.old.items out.new.items) }
{
    match views.get(atom as usize) {
        Some(view) => append_view(plan, atom, view.state, &view.payload, out),
        None => append_view(plan, atom, AtomState::Pending, &Payload::Empty, out),
    }
}

#[tactic(auto, using(tf_values::proofs::GrowthLemmas::keeps_shorter))]
fn append_view(
    plan: &Plan,
    atom: u16,
    state: AtomState,
    held: &Payload,
    out: &mut Vec<u8>,
) -> Result<(), Memory>
    ensures ok { OnOk result (out.new.items ≡ out.old.items ++ atom_line (outline_of plan.now) atom state held.now) }
    ensures err { OnErr result (KeepsPrefix out.old.items out.new.items) }
{
    append_named(b"atom ", atom_name(plan, atom), atom_word(state), out)?;
    append_payload(held, out)?;
    append(b"\n", out)
}
