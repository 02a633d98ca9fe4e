//! The words of a command, and what they ask for.
#![tactic(auto)]

mod addresses;
mod asked;
mod boards;
mod commands;
mod given;
mod laws;
mod numbers;
mod pairs;
mod parsing;
mod quotes;
mod sockets;
mod spelled;
mod verbs;
mod wants;
mod word;

pub use asked::{Asked, read_words};
pub use commands::OWNER_LIMIT;
pub use laws::{conductors_are_within, demo_numbers_are_within};
pub use sockets::{Sockets, sockets_of};
pub use verbs::access_of;
pub use word::Word;
