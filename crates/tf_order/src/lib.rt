//! The order among the atoms of a plan: links, what is before what, and why a plan doesn't compile.
#![tactic(auto)]

mod ambiguities;
mod arranged;
mod compilation;
mod context;
mod direct;
mod faults;
mod graph;
mod index;
mod intervals;
mod linking;
mod looking;
mod paths;
mod root_items;
mod rows;
mod standing_atoms;
mod tables;

pub use compilation::compile;
pub use faults::CompileFault;
pub use graph::Graph;
pub use root_items::items_before;
