//! Sessions over links: what comes, frame by frame, and what passed when each frame was answered.
#![tactic(auto)]

mod incoming;

pub use incoming::{Incoming, ServeEnd};
