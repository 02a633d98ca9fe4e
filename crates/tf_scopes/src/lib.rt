//! From whom each atom of a plan takes the values of its arguments.
#![tactic(auto)]

mod faults;
mod found;
mod given;
mod providers;
mod scope;
mod sources;
mod standing;
mod stored;
mod symbols;

pub use faults::ScopeFault;
pub use found::Found;
pub use providers::{Providers, find_providers};
