ghost use Rattle.std.specs.Prelude.{◌≡◌};
ghost use Rattle.tf_numbers.specs.Numbers.{all_below};
ghost use Rattle.tf_model.specs.Plan.{outline_of, count};
ghost use Rattle.tf_model.specs.Forced.{is_done_at, is_at_rest, calm_end, end_of};
ghost use Rattle.tf_machine.specs.Counts.{HasCounters};
ghost use Rattle.tf_machine.specs.Tables.{shown_by};
ghost use Rattle.tf_machine.specs.Worklists.{IsListed};

use crate::candidates::best;
use crate::compiled::Compiled;
use crate::forcing::{is_unhurt, something_forced};
use crate::states::{flow_runs, flow_suspends, is_at_work, is_done, is_failure, is_success};
use crate::tables::Tables;
use crate::worklists::Worklist;
use tf_states::FlowState;

/// Whether every atom is SUCCESS or IGNORE.
fn are_all_done(compiled: &Compiled, tables: &Tables) -> bool
    ensures { result ≡ all_below (count (outline_of compiled.now)) (is_done_at (shown_by tables.now)) }
{
    for atom in 0..compiled.atoms() {
        if !is_done(tables.state(atom)) {
            return false;
        }
    }
    true
}

/// Whether an atom is neither at work nor FAILURE, and not SUCCESS where its mark is REVERT.
fn is_at_rest(tables: &Tables, atom: u16) -> bool
    ensures { result ≡ is_at_rest (shown_by tables.now) atom }
{
    let state = tables.state(atom);
    !is_at_work(state) && !is_failure(state) && !(is_success(state) && tables.is_to_revert(atom))
}

/// Whether every atom is at rest.
fn are_all_at_rest(compiled: &Compiled, tables: &Tables) -> bool
    ensures { result ≡ all_below (count (outline_of compiled.now)) (is_at_rest (shown_by tables.now)) }
{
    for atom in 0..compiled.atoms() {
        if !is_at_rest(tables, atom) {
            return false;
        }
    }
    true
}

/// How a run ends that nothing is forced in.
fn calm_end(compiled: &Compiled, tables: &Tables, list: &Worklist) -> Option<FlowState>
    requires counted { HasCounters (outline_of compiled.now) tables.now }
    requires listed { IsListed (outline_of compiled.now) (shown_by tables.now) list.now }
    ensures { result ≡ calm_end (outline_of compiled.now) (shown_by tables.now) }
{
    if are_all_done(compiled, tables) {
        return Some(FlowState::Success);
    }
    if !are_all_at_rest(compiled, tables) {
        return None;
    }
    match best(compiled, tables, list) {
        Some(_) => None,
        None => Some(FlowState::Reverted),
    }
}

/// The end of the run.
#[tactic(auto, unfolding(tf_model::specs::Forced::end_of))]
pub fn end_of(compiled: &Compiled, tables: &Tables, list: &Worklist) -> Option<FlowState>
    requires counted { HasCounters (outline_of compiled.now) tables.now }
    requires listed { IsListed (outline_of compiled.now) (shown_by tables.now) list.now }
    ensures { result ≡ end_of (outline_of compiled.now) (shown_by tables.now) }
{
    if !flow_runs(tables.flow) && !flow_suspends(tables.flow) {
        return None;
    }
    if !is_unhurt(compiled, tables, list) {
        return Some(FlowState::Failure);
    }
    if something_forced(compiled, tables, list) {
        return None;
    }
    calm_end(compiled, tables, list)
}
