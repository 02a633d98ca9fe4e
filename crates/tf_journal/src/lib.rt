//! The journal: bodies in a file, each acknowledged once no crash can take it away.
#![tactic(auto)]

mod birth;
mod bodies;
mod faults;
mod gates;
mod header;
mod journal;
mod reading;
mod scanning;
mod title;
mod window;

pub use bodies::next_body;
pub use faults::{AppendFault, JournalFault, LoadFault, ScanFault};
pub use journal::Journal;
pub use scanning::{Scanned, scan};
pub use title::Title;
pub use window::Window;
