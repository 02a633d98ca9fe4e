//! A board that several threads share: who made which call is kept beside it, and the first cause that it can't go on.
#![tactic(auto)]

mod asking;
mod calls;
mod halts;
mod shared;

pub use calls::{BoardHalt, CallFault, Made};
pub use halts::{append_halt, halt_status};
pub use shared::SharedBoard;
