//! A plan up to a target: what an item of a graph flow needs, and nothing else.
#![tactic(auto)]

mod atoms;
mod faults;
mod flows;
mod keeping;
mod links;
mod targeting;

pub use faults::TargetFault;
pub use targeting::target;
