//! Frames of a stream, and the messages between a remote hand and its worker.
#![tactic(auto)]

mod allowing;
mod failures;
mod faults;
mod frames;
mod fronts;
mod messages;
mod orders;
mod printing;
mod reading;
mod requests;
mod values;
mod waiting;

pub use faults::WireFault;
pub use frames::Frames;
pub use messages::{Request, Response};
pub use printing::{print_message, print_request, print_response, text_value, word_values};
pub use reading::{message_of, read_request, read_response};
pub use values::{name_of, value_of};
