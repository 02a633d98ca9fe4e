//! What a run asks of a hand, and what the hand may give: actions, orders, outcomes, and the trait of those who perform.
#![tactic(auto)]

mod orders;
mod outcomes;
mod performers;

pub use orders::{Args, Given, Order, Pair};
pub use outcomes::{Action, Outcome, is_program_failure};
pub use performers::Performer;
