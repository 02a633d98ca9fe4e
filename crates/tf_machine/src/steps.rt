ghost use Rattle.std.specs.Prelude.{◌≡◌, ◌≢◌, true, false, Some, Ok};
ghost use Rattle.tf_states.specs.declared.state.FlowState.TheVariants.{Suspended as suspended};
ghost use Rattle.tf_states.specs.declared.record.What.TheVariants.{Flow as flow_enters};
ghost use Rattle.tf_numbers.specs.Numbers.{all_below, first_below};
ghost use Rattle.tf_model.specs.Plan.{outline_of, count};
ghost use Rattle.tf_model.specs.Forced.{forced};
ghost use Rattle.tf_model.specs.Steps.{Rule, Step, is_free, is_still, is_settled_at, is_put_back_at, ends_as, ends_task, may_turn, turns_flow, end_entry, may_suspend, reset, put_back_or_rest};
ghost use Rattle.tf_hands.specs.Hands.{task_of, is_with};
ghost use Rattle.tf_machine.specs.Counts.{HasCounters};
ghost use Rattle.tf_machine.specs.Tables.{shown_by};
ghost use Rattle.tf_machine.specs.Worklists.{IsListed};

use crate::candidates::is_choice;
use crate::compiled::Compiled;
use crate::ending::end_of;
use crate::forcing::is_forced;
use crate::states::{flow_is_reverted, flow_runs, flow_suspends, is_put_back, is_settled};
use crate::tables::Tables;
use crate::worklists::{Worklist, first_of};
use std::alloc::Global;
use tf_states::{AtomState, Entry, FlowState, Payload, What};
use tf_values::Memory;

/// The task that a hand has in flight.
#[tactic(auto, using(tf_numbers::proofs::BelowLemmas::still_none, crate::proofs::ListedLemmas::none_with))]
pub fn task_of(compiled: &Compiled, tables: &Tables, list: &Worklist, hand: u8) -> Option<u16>
    requires listed { IsListed (outline_of compiled.now) (shown_by tables.now) list.now }
    ensures { result ≡ task_of (outline_of compiled.now) (shown_by tables.now) hand }
{
    let start = first_of(&list.busy, compiled.atoms());
    for atom in start..compiled.atoms() {
        if tables.is_with(hand, atom) {
            return Some(atom);
        }
    }
    None
}

/// Whether a hand has nothing in flight.
#[tactic(auto, using(crate::proofs::ListedLemmas::none_is_with), unfolding(tf_model::specs::Steps::is_free))]
fn is_free(compiled: &Compiled, tables: &Tables, list: &Worklist, hand: u8) -> bool
    requires listed { IsListed (outline_of compiled.now) (shown_by tables.now) list.now }
    ensures { result ≡ is_free (outline_of compiled.now) (shown_by tables.now) hand }
{
    let start = first_of(&list.busy, compiled.atoms());
    for atom in start..compiled.atoms() {
        if tables.is_with(hand, atom) {
            return false;
        }
    }
    true
}

/// Whether nothing is in flight.
#[tactic(auto, using(crate::proofs::ListedLemmas::none_in_flight), unfolding(tf_model::specs::Steps::is_still))]
pub fn is_still(compiled: &Compiled, tables: &Tables, list: &Worklist) -> bool
    requires listed { IsListed (outline_of compiled.now) (shown_by tables.now) list.now }
    ensures { result ≡ is_still (outline_of compiled.now) (shown_by tables.now) }
{
    let start = first_of(&list.busy, compiled.atoms());
    for atom in start..compiled.atoms() {
        if tables.hand(atom).is_some() {
            return false;
        }
    }
    true
}

/// Whether a task in the first state may end in the second with this payload.
fn ends_as(from: AtomState, to: AtomState, payload: &Payload) -> bool
    ensures { result ≡ ends_as from to payload.now }
{
    match (from, to) {
        (AtomState::Running, AtomState::Success) => matches!(payload, Payload::Value(_)),
        (AtomState::Running, AtomState::Failure)
        | (AtomState::Reverting, AtomState::RevertFailure) => {
            matches!(payload, Payload::Fault(_))
        }
        (AtomState::Reverting, AtomState::Reverted) => matches!(payload, Payload::Empty),
        _ => false,
    }
}

/// Whether the hand ends a task that it has in flight.
#[tactic(auto, unfolding(tf_model::specs::Steps::ends_task))]
fn ends_task(tables: &Tables, hand: u8, what: &What) -> bool
    ensures { result ≡ ends_task (shown_by tables.now) hand what.now }
{
    match what {
        What::Atom {
            atom,
            state,
            payload,
        } => {
            (flow_runs(tables.flow) || flow_suspends(tables.flow))
                && tables.is_with(hand, *atom)
                && ends_as(tables.state(*atom), *state, payload)
        }
        _ => false,
    }
}

/// Whether the flow may turn from the first state to the second whatever else stands.
fn may_turn(from: FlowState, to: FlowState) -> bool
    ensures { result ≡ may_turn from to }
{
    match from {
        FlowState::Pending | FlowState::Suspended => matches!(to, FlowState::Running),
        FlowState::Running => matches!(to, FlowState::Suspending | FlowState::Resuming),
        FlowState::Suspending => matches!(to, FlowState::Resuming),
        FlowState::Resuming => matches!(to, FlowState::Suspended),
        FlowState::Success | FlowState::Failure | FlowState::Reverted => false,
    }
}

/// Whether the entry is such a turn.
fn turns_flow(from: FlowState, what: &What) -> bool
    ensures { result ≡ turns_flow from what.now }
{
    match what {
        What::Flow(to) => may_turn(from, *to),
        _ => false,
    }
}

/// Whether the entry records the end.
fn is_end(compiled: &Compiled, tables: &Tables, list: &Worklist, what: &What) -> bool
    requires counted { HasCounters (outline_of compiled.now) tables.now }
    requires listed { IsListed (outline_of compiled.now) (shown_by tables.now) list.now }
    ensures yes { result ≡ true → end_entry (outline_of compiled.now) (shown_by tables.now) ≡ Some what.now }
    ensures no { result ≡ false → end_entry (outline_of compiled.now) (shown_by tables.now) ≢ Some what.now }
{
    match what {
        What::Flow(state) => match end_of(compiled, tables, list) {
            Some(end) => end == *state,
            None => false,
        },
        _ => false,
    }
}

/// Whether the entry suspends the flow, which nothing forbids.
fn is_suspension(compiled: &Compiled, tables: &Tables, list: &Worklist, what: &What) -> bool
    requires counted { HasCounters (outline_of compiled.now) tables.now }
    requires listed { IsListed (outline_of compiled.now) (shown_by tables.now) list.now }
    ensures may { result ≡ true → may_suspend (outline_of compiled.now) (shown_by tables.now) ≡ true }
    ensures yes { result ≡ true → what.now ≡ flow_enters suspended }
    ensures no { result ≡ false → may_suspend (outline_of compiled.now) (shown_by tables.now) ≡ true
        → what.now ≢ flow_enters suspended }
{
    match what {
        What::Flow(FlowState::Suspended) => may_suspend(compiled, tables, list),
        _ => false,
    }
}

/// Whether in SUSPENDING nothing is in flight and there is no end.
#[tactic(auto, unfolding(tf_model::specs::Steps::may_suspend))]
fn may_suspend(compiled: &Compiled, tables: &Tables, list: &Worklist) -> bool
    requires counted { HasCounters (outline_of compiled.now) tables.now }
    requires listed { IsListed (outline_of compiled.now) (shown_by tables.now) list.now }
    ensures { result ≡ may_suspend (outline_of compiled.now) (shown_by tables.now) }
{
    flow_suspends(tables.flow)
        && is_still(compiled, tables, list)
        && end_of(compiled, tables, list).is_none()
}

/// Whether every atom is settled.
fn are_all_settled(compiled: &Compiled, tables: &Tables) -> bool
    ensures { result ≡ all_below (count (outline_of compiled.now)) (is_settled_at (shown_by tables.now)) }
{
    for atom in 0..compiled.atoms() {
        if !is_settled(tables.state(atom)) {
            return false;
        }
    }
    true
}

/// The first atom that is REVERTED or IGNORE.
#[tactic(auto, using(tf_numbers::proofs::BelowLemmas::still_none))]
fn first_put_back(compiled: &Compiled, tables: &Tables) -> Option<u16>
    ensures { result ≡ first_below (count (outline_of compiled.now)) (is_put_back_at (shown_by tables.now)) }
{
    for atom in 0..compiled.atoms() {
        if is_put_back(tables.state(atom)) {
            return Some(atom);
        }
    }
    None
}

/// Whether the entry puts an atom or the flow back to PENDING with nothing carried.
fn puts_back(what: &What, first: Option<u16>) -> bool
    ensures yes { result ≡ true → put_back_or_rest first ≡ what.now }
    ensures no { result ≡ false → put_back_or_rest first ≢ what.now }
{
    match what {
        What::Flow(state) => matches!(state, FlowState::Pending) && first.is_none(),
        What::Atom {
            atom,
            state,
            payload,
        } => {
            matches!(state, AtomState::Pending)
                && matches!(payload, Payload::Empty)
                && first == Some(*atom)
        }
        _ => false,
    }
}

/// Whether the entry is what a reset records next.
#[tactic(auto, unfolding(tf_model::specs::Steps::reset))]
fn is_reset(compiled: &Compiled, tables: &Tables, what: &What) -> bool
    ensures yes { result ≡ true → reset (outline_of compiled.now) (shown_by tables.now) ≡ Some what.now }
    ensures no { result ≡ false → reset (outline_of compiled.now) (shown_by tables.now) ≢ Some what.now }
{
    if !flow_is_reverted(tables.flow) || !are_all_settled(compiled, tables) {
        return false;
    }
    puts_back(what, first_put_back(compiled, tables))
}

/// Whether an event may be recorded by the hand, by one of the rules, where it is told whether it is the
/// forced one.
#[tactic(auto, using(crate::proofs::RuleLemmas::no_rule))]
fn has_rule(
    compiled: &Compiled,
    tables: &Tables,
    list: &Worklist,
    entry: &Entry,
    is_forced: bool,
) -> bool
    requires counted { HasCounters (outline_of compiled.now) tables.now }
    requires listed { IsListed (outline_of compiled.now) (shown_by tables.now) list.now }
    requires forced { is_forced ≡ true → forced (outline_of compiled.now) (shown_by tables.now) ≡ Some entry.now.what }
    requires unforced { is_forced ≡ false
        → forced (outline_of compiled.now) (shown_by tables.now) ≢ Some entry.now.what }
    ensures yes { result ≡ true → Rule (outline_of compiled.now) (shown_by tables.now) entry.now }
    ensures no { result ≡ false → ¬ (Rule (outline_of compiled.now) (shown_by tables.now) entry.now) }
{
    if is_forced || turns_flow(tables.flow, &entry.what) {
        return true;
    }
    if ends_task(tables, entry.hand, &entry.what)
        || is_suspension(compiled, tables, list, &entry.what)
    {
        return true;
    }
    if is_free(compiled, tables, list, entry.hand)
        && is_choice(compiled, tables, list, &entry.what)
    {
        return true;
    }
    if is_end(compiled, tables, list, &entry.what) && is_still(compiled, tables, list) {
        return true;
    }
    is_reset(compiled, tables, &entry.what)
}

/// Whether the entry may follow.
pub fn is_step(
    alloc: Global,
    compiled: &Compiled,
    tables: &Tables,
    list: &Worklist,
    entry: &Entry,
) -> Result<bool, Memory>
    requires counted { HasCounters (outline_of compiled.now) tables.now }
    requires listed { IsListed (outline_of compiled.now) (shown_by tables.now) list.now }
    ensures yes { result ≡ Ok true → Step (outline_of compiled.now) (shown_by tables.now) entry.now }
    ensures no { result ≡ Ok false → ¬ (Step (outline_of compiled.now) (shown_by tables.now) entry.now) }
{
    let is_forced = is_forced(alloc, compiled, tables, list, &entry.what)?;
    Ok(may_follow(compiled, tables, list, entry, is_forced))
}

/// Whether the entry may follow, where it is told whether it is the forced one.
fn may_follow(
    compiled: &Compiled,
    tables: &Tables,
    list: &Worklist,
    entry: &Entry,
    is_forced: bool,
) -> bool
    requires counted { HasCounters (outline_of compiled.now) tables.now }
    requires listed { IsListed (outline_of compiled.now) (shown_by tables.now) list.now }
    requires forced { is_forced ≡ true → forced (outline_of compiled.now) (shown_by tables.now) ≡ Some entry.now.what }
    requires unforced { is_forced ≡ false
        → forced (outline_of compiled.now) (shown_by tables.now) ≢ Some entry.now.what }
    ensures yes { result ≡ true → Step (outline_of compiled.now) (shown_by tables.now) entry.now }
    ensures no { result ≡ false → ¬ (Step (outline_of compiled.now) (shown_by tables.now) entry.now) }
{
    entry.hand < 64 && has_rule(compiled, tables, list, entry, is_forced)
}
