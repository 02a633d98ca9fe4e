//! Conductors: several owners work side by side on one board; each claims a job, runs it, and consumes it or gives it back.
#![tactic(auto)]

mod conducting;
mod conductors;
mod hiring;
mod owners;
mod runners;
mod turns;

pub use conducting::{Conducted, conduct};
pub use owners::owners_of;
pub use runners::{Ran, Runner};
