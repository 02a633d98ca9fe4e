//! What passes one value between threads: each hand knows that its own entries are there, in its order, and that nobody
//! else's carry its number.
#![tactic(auto)]

mod keeping;
mod passes;
mod rule;
mod tally;
mod turns;

pub use keeping::Kept;
pub use passes::{Pass, Turnstile};
pub use tally::Tally;
