//! Engines: they go through a session of a book with the hands that perform its orders.
#![tactic(auto)]

mod engine;
mod hand_loop;
mod hiring;
mod many_hands;
mod one_hand;
mod shared;
mod taking_turns;
mod turns;

pub use engine::{How, RunEnd};
pub use many_hands::parallel;
pub use one_hand::serial;
pub use shared::Shared;
pub use taking_turns::interleaved;
