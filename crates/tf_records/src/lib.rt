//! A journal's bodies are read back one after another into what is made of them.
#![tactic(auto)]

mod reading;
mod replaying;

pub use reading::read_back;
pub use replaying::Replay;
