//! A board service: clients ask a shared board over links, each session reading its own writes.
#![tactic(auto)]

mod answering;
mod commanding;
mod hiring;
mod lines;
mod printing;
mod replies;
mod requests;
mod saying;
mod service;
mod serving;
mod sessions;
mod turns;

pub use commanding::serve_command;
pub use printing::print_reply;
pub use replies::BoardReply;
pub use requests::read_board_request;
pub use service::{ServedBoard, serve_board};
pub use sessions::{Points, Session, SessionEnd, Sessions};
