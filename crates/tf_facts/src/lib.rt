//! What holds at every moment of every legal history: seven facts on states and marks, that no run
//! gets stuck, and that a run that ended REVERTED is undone. The functions do nothing; their contracts
//! are the laws.
#![tactic(auto)]

mod laws;

pub use laws::{facts_are_kept, reverted_is_completed, runs_never_get_stuck};
