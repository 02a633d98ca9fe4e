//! The built-in tasks, and the hand that performs them here.
#![tactic(auto)]

mod built_ins;
mod lists;
mod local;
mod numbers;
mod plain;
mod runs;

pub use built_ins::value_of;
pub use local::{LocalHand, is_program};
