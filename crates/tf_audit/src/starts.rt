ghost use Rattle.std.specs.Prelude.{◌≡◌, None, true, false, IfOk, IfSome};
ghost use Rattle.tf_model.specs.Plan.{is_task as is_task_of};
ghost use Rattle.tf_hands.specs.Hands.{asked_in as action_at};
ghost use Rattle.tf_machine.specs.Machine.{outline, shown};
ghost use Rattle.tf_audit.specs.Starts.{TakesNone, IsTakenUp, StartsSo};

use std::alloc::Global;
use tf_actions::{Action, Order};
use tf_machine::{Machine, Start};
use tf_states::{AtomState, What};
use tf_values::Memory;

/// The task that the entry takes up with its order, where it takes one up.
pub fn order_asked(
    alloc: Global,
    machine: &Machine,
    what: &What,
) -> Result<Option<(u16, Order)>, Memory>
    ensures none { IfOk result (λ asked. asked ≡ None → TakesNone (outline machine.now) what.now) }
    ensures some { IfOk result (λ asked. IfSome asked (λ p.
        IsTakenUp (outline machine.now) (shown machine.now) what.now p.0 p.1)) }
{
    match start_of(machine, what) {
        Some(start) => {
            let order = machine.order(alloc, &start)?;
            Ok(Some((start.atom, order)))
        }
        None => Ok(None),
    }
}

/// The task that the entry takes up, and what is done with it.
fn start_of(machine: &Machine, what: &What) -> Option<Start>
    ensures none { result ≡ None → TakesNone (outline machine.now) what.now }
    ensures some { IfSome result (StartsSo (outline machine.now) (shown machine.now) what.now) }
{
    match what {
        What::Atom {
            atom,
            state: AtomState::Running,
            ..
        } => start(machine, *atom, Action::Execute),
        What::Atom {
            atom,
            state: AtomState::Reverting,
            ..
        } => start(machine, *atom, Action::Revert),
        What::Restart(atom) => start(machine, *atom, action_of(machine, *atom)),
        _ => None,
    }
}

/// What is done with the atom, where it is a task.
fn start(machine: &Machine, atom: u16, action: Action) -> Option<Start>
    ensures none { result ≡ None → is_task_of (outline machine.now) atom ≡ false }
    ensures some { IfSome result (λ start. (start.atom ≡ atom) × (start.action ≡ action)
        × (is_task_of (outline machine.now) atom ≡ true)) }
{
    if !is_task(machine, atom) {
        return None;
    }
    Some(Start {
        atom,
        action,
        restart: false,
    })
}

/// Whether the atom is a task.
#[tactic(auto, using(tf_model::proofs::PlanLemmas::task_told, tf_model::proofs::PlanLemmas::atoms_counted, tf_report::proofs::LineLemmas::part_past))]
pub fn is_task(machine: &Machine, atom: u16) -> bool
    ensures { result ≡ is_task_of (outline machine.now) atom }
{
    let plan = machine.plan();
    atom < plan.atoms() && !plan.is_retry(atom)
}

/// What is done with an atom at work that is taken up again.
fn action_of(machine: &Machine, atom: u16) -> Action
    ensures { is_task_of (outline machine.now) atom ≡ true → result ≡ action_at ((shown machine.now).state atom) }
{
    match machine.views().get(atom as usize) {
        Some(view) => asked_in(view.state),
        None => Action::Revert,
    }
}

fn asked_in(state: AtomState) -> Action
    ensures { result ≡ action_at state }
{
    match state {
        AtomState::Running => Action::Execute,
        _ => Action::Revert,
    }
}
