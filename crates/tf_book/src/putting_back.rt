//! What puts a reverted flow back, by what a machine shows.
ghost use Rattle.std.specs.Prelude.{◌≡◌, Some, true};
ghost use Rattle.tf_machine.specs.Machine.{outline, shown};
ghost use Rattle.tf_hands.specs.Hands.{is_of_flow as of_flow};
ghost use Rattle.tf_model.specs.Plan.{count};
ghost use Rattle.tf_model.specs.History.{is_settled as settled, is_put_back as put_back};
ghost use Rattle.tf_model.specs.Steps.{is_settled_at, is_put_back_at, put_back_or_rest, reset};
ghost use Rattle.tf_numbers.specs.Numbers.{all_below, first_below};
ghost use Rattle.tf_book.specs.Turns.{may_reset as may};

use tf_machine::Machine;
use tf_states::{AtomState, FlowState, Payload, What};

/// How many atoms there are.
fn atoms(machine: &Machine) -> u16
    ensures { result ≡ count (outline machine.now) }
{
    machine.plan().atoms()
}

/// The state of an atom.
fn state_at(machine: &Machine, atom: u16) -> AtomState
    ensures { result ≡ (shown machine.now).state atom }
{
    match machine.views().get(atom as usize) {
        Some(view) => view.state,
        None => AtomState::Pending,
    }
}

/// With nothing to undo.
fn is_settled(state: AtomState) -> bool
    ensures { result ≡ settled state }
{
    matches!(
        state,
        AtomState::Pending | AtomState::Reverted | AtomState::Ignore
    )
}

/// To be put back to PENDING.
fn is_put_back(state: AtomState) -> bool
    ensures { result ≡ put_back state }
{
    matches!(state, AtomState::Reverted | AtomState::Ignore)
}

/// Whether what is recorded is of the flow.
pub fn is_of_flow(what: &What) -> bool
    ensures { result ≡ of_flow what.now }
{
    matches!(what, What::Flow(_))
}

/// Whether every atom is settled.
fn are_settled(machine: &Machine) -> bool
    ensures { result ≡ all_below (count (outline machine.now)) (is_settled_at (shown machine.now)) }
{
    for atom in 0..atoms(machine) {
        if !is_settled(state_at(machine, atom)) {
            return false;
        }
    }
    true
}

/// The first atom in tree order that is REVERTED or IGNORE.
#[tactic(auto, using(tf_numbers::proofs::BelowLemmas::still_none))]
fn first_put_back(machine: &Machine) -> Option<u16>
    ensures { result ≡ first_below (count (outline machine.now)) (is_put_back_at (shown machine.now)) }
{
    for atom in 0..atoms(machine) {
        if is_put_back(state_at(machine, atom)) {
            return Some(atom);
        }
    }
    None
}

/// Whether the flow may be put back.
pub fn may_reset(machine: &Machine) -> bool
    ensures { result ≡ may (outline machine.now) (shown machine.now) }
{
    if !matches!(machine.flow_state(), FlowState::Reverted) {
        return false;
    }
    are_settled(machine)
}

/// What is recorded next to put the flow back, which may be put back: the first REVERTED or IGNORE atom becomes
/// PENDING, and where none is left the flow does.
#[tactic(auto, unfolding(tf_model::specs::Steps::reset))]
pub fn reset_event(machine: &Machine) -> What
    requires { may (outline machine.now) (shown machine.now) ≡ true }
    ensures is { result
        ≡ put_back_or_rest (first_below (count (outline machine.now)) (is_put_back_at (shown machine.now))) }
    ensures reset { reset (outline machine.now) (shown machine.now) ≡ Some result }
{
    match first_put_back(machine) {
        Some(atom) => What::Atom {
            atom,
            state: AtomState::Pending,
            payload: Payload::Empty,
        },
        None => What::Flow(FlowState::Pending),
    }
}
