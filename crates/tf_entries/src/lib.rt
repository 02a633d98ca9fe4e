//! Plans and entries as bytes, exact both ways.
#![tactic(auto)]

mod appending;
mod atom_reading;
mod atom_writing;
mod entry_reading;
mod entry_writing;
mod heads;
mod laws;
mod link_reading;
mod link_writing;
mod plan_reading;
mod plan_writing;
mod reader;

pub use entry_reading::decode_entry;
pub use entry_writing::encode_entry;
pub use heads::{Head, put_head, take_head};
pub use laws::{entry_has_one_form, head_has_one_form, plan_has_its_length, plan_has_one_form};
pub use plan_reading::decode_plan;
pub use plan_writing::encode_plan;
