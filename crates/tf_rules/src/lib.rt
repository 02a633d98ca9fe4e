//! What retry controllers give and answer, what a failure is resolved to, and when deciders refuse a task.
#![tactic(auto)]

mod attempts;
mod conditions;
mod deciders;
mod depths;
mod flows;
mod resolutions;

pub use attempts::{attempt_value, retry_at, strategy};
pub use deciders::{has_decider, widest};
pub use depths::affected;
pub use flows::retry_of;
pub use resolutions::{Resolution, resolve};
