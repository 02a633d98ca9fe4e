//! A book of one flow is carried over into a book of several flows, which is there whole or not at all.
#![tactic(auto)]

mod bodies;
mod commanding;
mod flows;
mod laws;
mod messages;
mod reading;
mod writing;

pub use commanding::migrate_command;
pub use laws::{
    a_flow_carried_over_is_a_book, a_new_book_is_longer, flows_are_in_books,
    old_books_are_never_refused, old_books_are_read_once,
};
