//! The book: a file of several details, each the plan of a flow with its history. One of them is a run that is recorded
//! entry by entry, each line shown once its record can't be lost.
#![tactic(auto)]

mod book;
mod buffers;
mod faults;
mod history;
mod holding;
mod log;
mod putting_back;
mod shelf;
mod showing;
mod turn;
mod writing;

pub use book::Book;
pub use buffers::Buffers;
pub use faults::{BookFault, Halt, ResetFault};
pub use shelf::{Detail, Shelf};
pub use turn::{Entered, Turn};
