//! The details of a book: which elements a book's file may hold, and how they are read back body by body.
#![tactic(auto)]

mod details;
mod gathering;
mod laws;
mod marks;
mod reading;

pub use details::Details;
pub use gathering::{Gathering, Keeps};
pub use laws::{
    books_are_legal_as_a_whole, books_are_never_refused, books_are_read_once, books_grow_alike,
    books_have_their_size, details_have_histories,
};
pub use marks::Mark;
pub use reading::read_plan;
