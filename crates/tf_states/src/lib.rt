//! The states of atoms, flows and jobs, the pairs of states that are allowed, and the entries of a
//! history.
#![tactic(auto)]

mod priorities;
mod record;
mod state;
mod transitions;

pub use priorities::Priority;
pub use record::{AtomView, Entry, Failure, Kind, Payload, What};
pub use state::{AtomState, FlowState, JobState};
pub use transitions::{allowed_flow, allowed_job, allowed_retry, allowed_task};
