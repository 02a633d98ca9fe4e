//! The one state machine that decides every step of a run. It keeps no list of entries: it stands for
//! a history by what the rules of a run read of it.
#![tactic(auto)]

mod candidates;
mod cases;
mod compiled;
mod counters;
mod ending;
mod entries;
mod equality;
mod faults;
mod forcing;
mod intervals;
mod machine;
mod orders;
mod readiness;
mod states;
mod steps;
mod tables;
mod tries;
mod worklists;

pub use faults::{ApplyFault, BuildFault};
pub use machine::Machine;
pub use tf_hands::Start;
