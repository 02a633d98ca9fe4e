//! The desk: the files that a run keeps, and the text that it shows, with what a crash may leave of them.
#![tactic(auto)]

mod crashing;
mod device;
mod files;
mod memory;
mod opened;
mod past;
mod reasons;
mod streams;
mod worlds;

pub use crashing::Torn;
pub use device::{Desk, DeskFault};
pub use files::FileDesk;
pub use memory::MemoryDesk;
pub use opened::Access;
pub use reasons::tell_reason;
pub use streams::read_on;
pub use worlds::World;
