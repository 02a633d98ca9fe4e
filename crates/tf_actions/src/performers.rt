ghost use Rattle.std.specs.Prelude.{◌≡◌, ℕ, ◌≤◌, List, Option, IfOk, OnOk, OnErr};
ghost use Rattle.tf_numbers.specs.Numbers.{Rises};
ghost use Rattle.tf_actions.specs.declared.orders.Order.{Order as AnOrder};
ghost use Rattle.tf_actions.specs.declared.outcomes.Outcome.{Outcome as AnOutcome};
ghost use Rattle.tf_actions.specs.Laws.{LooksUp, RevertsToNothing};
ghost use Rattle.tf_actions.specs.Gives.{told_with, IsWhole};

use crate::orders::Order;
use crate::outcomes::Outcome;
use std::alloc::Global;
use tf_values::Memory;

/// A hand that performs orders.
pub trait Performer: Drop {
    /// The orders so far, in order, where the performer keeps them.
    ghost did: { Self → Option (List AnOrder) };

    /// Which outcomes an order may have.
    ghost gives: { AnOrder → AnOutcome → Type 0 };

    /// How many faults there were: of what runs programs for the hand, or of its link to a worker. The count never
    /// falls, and stands still at the greatest u64.
    ghost faults: { Self → ℕ };

    /// Which outcomes of an order come of such a fault alone.
    ghost of_fault: { AnOrder → AnOutcome → Type 0 };

    /// Performs a whole order. `Memory` leaves the list of orders as it was. An outcome of a fault comes only where the
    /// count of faults rose.
    fn perform(&mut self, alloc: Global, order: &Order) -> Result<Outcome, Memory>
        requires whole { IsWhole order.now }
        ensures given { IfOk result (λ outcome. gives order.now outcome) }
        ensures cause { IfOk result (λ outcome. of_fault order.now outcome
            → Rises (faults self.old) (faults self.new)) }
        ensures no_fall { faults self.old ≤ faults self.new }
        ensures done { OnOk result (did self.new ≡ told_with (did self.old) order.now) }
        ensures not_done { OnErr result (did self.new ≡ did self.old) };

    /// To execute, a missing symbol is looked up in vain, and there is no other outcome.
    ghost looks_up: { LooksUp gives };

    /// A revert that succeeds gives nothing.
    ghost reverts_to_nothing: { RevertsToNothing gives };
}
