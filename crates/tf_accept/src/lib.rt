//! From the bytes of a flow file to a machine before a run of the plan that they give, or the first reason why they give none.
#![tactic(auto)]

mod accepting;

pub use accepting::{Refusal, accept};
