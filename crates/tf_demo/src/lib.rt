//! The generated flow: a plan that is made from two numbers, a seed and a size.
#![tactic(auto)]

mod draws;
mod groups;
mod laws;
mod names;
mod plan;
mod tasks;

pub use laws::{demo_compiles, demo_is_read_by_numbers, demo_misses_no_symbol};
pub use plan::demo_plan;
