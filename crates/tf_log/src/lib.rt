//! Pairs that a program noted, which only clauses read.
#![tactic(auto)]

mod log;

pub use log::Log;
