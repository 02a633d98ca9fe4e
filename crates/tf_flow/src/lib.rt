//! Flows as they are written: tasks, retry controllers, nested flows, links and deciders, and plans
//! that keep every limit and every rule.
#![tactic(auto)]

mod atom_rules;
mod atoms;
mod byte_length;
mod deciders;
mod faults;
mod limits;
mod link_rules;
mod listing;
mod nested;
mod outline;
mod paths;
mod plans;
mod refusals;
mod repeats;

pub use atoms::{Arg, ArgList, Bind, Binds, Provides, Retry, RetryKind, Task, TaskKind, Undo};
pub use deciders::{Decider, Depth, Link, Links, Test, Tests};
pub use faults::{Limit, PlanFault};
pub use listing::{AtomPlace, ItemPlace, Level, Outline, Standing, outline_of};
pub use nested::{Flow, FlowKind, Item, Items};
pub use paths::{Part, Path, Turn};
pub use plans::Plan;
pub use repeats::set_of;
