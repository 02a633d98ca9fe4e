ghost use Rattle.std.specs.Prelude.{◌≡◌, IfOk, Some, true};
ghost use Rattle.tf_actions.specs.Gives.{IsWhole};
ghost use Rattle.tf_model.specs.Scope.{order_of};
ghost use Rattle.tf_model.specs.Plan.{outline_of, is_task};
ghost use Rattle.tf_machine.specs.Tables.{shown_by};

use crate::compiled::Compiled;
use crate::tables::Tables;
use std::alloc::Global;
use tf_actions::{Action, Order};
use tf_values::Memory;

/// The order to do so with a task at this moment.
pub fn order(
    alloc: Global,
    compiled: &Compiled,
    tables: &Tables,
    atom: u16,
    action: Action,
) -> Result<Order, Memory>
    requires { is_task (outline_of compiled.now) atom ≡ true }
    ensures is { IfOk result (λ order. Some order ≡ order_of (outline_of compiled.now)
        (shown_by tables.now) atom action) }
    ensures whole { IfOk result (λ order. IsWhole order) }
{
    let task = compiled.task(atom);
    let given = compiled.given(alloc, &tables.views, atom, action)?;
    let words = task.words.copy(alloc)?;
    let undo = task.undo.copy(alloc)?;
    Ok(Order {
        atom,
        action,
        kind: task.kind,
        words,
        undo,
        given,
    })
}
