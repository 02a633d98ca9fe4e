//! What holds over a life of a file: of calls of the program, one after another, by any words, where each starts from
//! what the one before it left, or from what a crash inside that left. The laws' functions do nothing; their contracts are
//! the laws, and follow from the clauses of the top call alone: `call` makes a call of a life of one of the program.
#![tactic(auto)]

mod laws;
mod living;

pub use laws::{
    boards_only_grow, ends_as_stated, every_entry_is_a_step, histories_are_not_refused,
    history_only_grows, jobs_go_as_they_may, nothing_shown_is_lost, one_owner,
    orders_stand_in_the_book, what_was_carried_over_stands, what_was_done_stands,
};
pub use living::call;
