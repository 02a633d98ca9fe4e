//! Links among the items of a flow: sets of numbers as bits, the standing order, which item reaches which,
//! and shortest cycles.
#![tactic(auto)]

mod bits;
mod cycles;
mod laws;
mod links;
mod reach;
mod standing;

pub use bits::Bits;
pub use laws::{
    reached_is_by_a_chain, shortest_cycle_is_the_first_of_the_shortest, standing_order_is_the_least,
};
pub use links::{Links, are_same, copy_rows, empty_rows, has_in};
