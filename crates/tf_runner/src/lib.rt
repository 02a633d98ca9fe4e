//! Conductors at work for the program: the jobs of a board are run by the flow files that their details name.
#![tactic(auto)]

mod commanding;
mod files;
mod hiring;
mod mute;
mod reading;
mod runner;
mod saying;

pub use commanding::conduct_command;
pub use files::{Content, JobFile};
pub use mute::Mute;
pub use runner::FileRunner;
