//! The texts that a run shows: the line of each entry, the report at its end, and the table of where its atoms stand;
//! the list of a board's jobs, and of a book's flows; and how a command closes: what it says of a book's or a board's
//! file that can't be used, and the exit statuses.
#![tactic(auto)]

mod appending;
mod closing;
mod details;
mod failures;
mod faults;
mod job_lines;
mod lines;
mod names;
mod reports;
mod state_words;
mod statuses;
mod tables;

pub use appending::{append, append_counted, append_named, append_number, append_pair};
pub use closing::close;
pub use details::detail;
pub use faults::{
    CANNOT_HIRE, CANNOT_LISTEN, CANNOT_READ, DISK_FAULT, OLD_FORMAT, append_book_full,
    append_not_a_book,
};
pub use job_lines::{JobLine, jobs, priority_word};
pub use lines::line;
pub use names::flow_name;
pub use reports::report;
pub use state_words::flow_word;
pub use statuses::{
    BOARD_REFUSED, DISK_FAILED, FAILED, FORBIDDEN, FULL, NO_BOOK, NO_COMMAND, OLD_BOOK,
    OUT_OF_MEMORY, REFUSED, REVERTED, SUCCEEDED, SUSPENDED, UNHIRED, UNREAD, UNSAID,
};
pub use tables::table;
pub use tf_states::Priority;
