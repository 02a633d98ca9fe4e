ghost use Rattle.std.specs.Prelude.{◌≡◌, ◌↔◌, IsTrue, ℕ, List, Some, IfOk, slice_get};
ghost use Rattle.tf_states.specs.declared.record.Entry.{Entry as Record};
ghost use Rattle.tf_states.specs.declared.record.What.TheVariants as event;
ghost use Rattle.tf_actions.specs.declared.orders.Order.{Order as Asked};
ghost use Rattle.tf_actions.specs.Gives.{GivesFar, IsWhole};
ghost use Rattle.tf_model.specs.Scope.{IsGiven};
ghost use Rattle.tf_hands.specs.Hands.{is_over as has_ended};
ghost use Rattle.tf_machine.specs.Machine.{outline};
ghost use Rattle.tf_audit.specs.Kept.{Follows};

use crate::outcomes::allows;
use crate::starts::is_task;
use std::alloc::Global;
use tf_actions::Order;
use tf_machine::Machine;
use tf_states::{AtomState, Entry, Payload, What};
use tf_values::Memory;

/// Whether the entry, where it may follow, carries an outcome that the order of its task may have, if it ends one.
pub fn fits(
    alloc: Global,
    machine: &Machine,
    orders: &[Option<Order>],
    entry: &Entry,
) -> Result<bool, Memory>
    requires { (a : ℕ) (order : Asked) → slice_get orders.now a ≡ Some (Some order) → IsWhole order }
    ensures { IfOk result (λ fits. (past : List Record) → Follows machine.now orders.now past entry.now
        → IsTrue fits ↔ IsGiven GivesFar (outline machine.now) past entry.now.what) }
{
    match &entry.what {
        What::Atom {
            atom,
            state,
            payload,
        } => end_fits(alloc, machine, orders, *atom, *state, payload),
        _ => Ok(true),
    }
}

/// The same of an entry that the atom enters this state.
fn end_fits(
    alloc: Global,
    machine: &Machine,
    orders: &[Option<Order>],
    atom: u16,
    state: AtomState,
    payload: &Payload,
) -> Result<bool, Memory>
    requires { (a : ℕ) (order : Asked) → slice_get orders.now a ≡ Some (Some order) → IsWhole order }
    ensures { IfOk result (λ fits. (past : List Record) (e : Record) → Follows machine.now orders.now past e
        → e.what ≡ event.Atom atom state payload.now
        → IsTrue fits ↔ IsGiven GivesFar (outline machine.now) past (event.Atom atom state payload.now)) }
{
    if !is_over(state) {
        return Ok(true);
    }
    if !is_task(machine, atom) {
        return Ok(true);
    }
    let Some(slot) = orders.get(atom as usize) else {
        return Ok(true);
    };
    match slot {
        Some(order) => {
            let allowed = allows(alloc, order, payload)?;
            Ok(allowed)
        }
        None => Ok(true),
    }
}

/// Whether a task that enters this state has ended.
fn is_over(state: AtomState) -> bool
    ensures { result ≡ has_ended state }
{
    matches!(
        state,
        AtomState::Success | AtomState::Failure | AtomState::Reverted | AtomState::RevertFailure
    )
}
