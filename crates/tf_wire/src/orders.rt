ghost use Rattle.std.specs.Prelude.{◌≡◌, IfOk};
ghost use Rattle.tf_wire.specs.Grammar.{order_of, undo_of as undo_of_action};

use crate::messages::Request;
use std::alloc::Global;
use tf_actions::{Action, Given, Order};
use tf_flow::Undo;
use tf_values::{Memory, Texts};

impl Request {
    /// The order that the request names. Its task has no number of its own.
    pub fn order(self, alloc: Global) -> Result<Order, Memory>
        ensures { IfOk result (λ order. order ≡ order_of self) }
    {
        let undo = undo_of(alloc, self.action, &self.words)?;
        Ok(Order {
            atom: 0,
            action: self.action,
            kind: self.kind,
            words: self.words,
            undo,
            given: Given::Found(self.args),
        })
    }
}

/// What undoes the task of an order: a revert runs the words.
fn undo_of(alloc: Global, action: Action, words: &Texts) -> Result<Undo, Memory>
    ensures { IfOk result (λ undo. undo ≡ undo_of_action action words.now) }
{
    match action {
        Action::Execute => Ok(Undo::Pass),
        Action::Revert => Ok(Undo::Run(words.copy(alloc)?)),
    }
}
