//! Flow files: a TOML document and the plan that it spells.
#![tactic(auto)]

mod document;
mod flows;
mod keys;
mod links;
mod lists;
mod reading;
mod store;

pub use document::{FileFault, Path};
pub use reading::read_flow;
