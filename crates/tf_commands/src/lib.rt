//! The commands of the program, over any desk, sources, crew and door: the top call `taskflow` does what the words ask
//! for.
#![tactic(auto)]

mod auditing;
mod boards;
mod books;
mod checking;
mod crew;
mod demoing;
mod detailing;
mod finding;
mod messages;
mod reading;
mod recording;
mod resetting;
mod resuming;
mod running;
mod showing;
mod top;
mod trying;
mod working;

pub use crate::crew::ProgramCrew;
pub use crate::top::{Ended, Outside, taskflow};
