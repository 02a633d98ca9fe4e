//! Workers: they serve the requests of remote hands over links.
#![tactic(auto)]

mod answering;
mod serving;

pub use serving::serve;
pub use tf_sessions::ServeEnd;
