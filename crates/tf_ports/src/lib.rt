//! The ports: what a run asks of the outside beside its desk.
#![tactic(auto)]

mod children;
mod crews;
mod dialers;
mod doors;
mod folder;
mod links;
mod memory;
mod memory_crew;
mod memory_dialer;
mod memory_door;
mod memory_link;
mod memory_performer;
mod memory_spawner;
mod programs;
mod reading;
mod sockets;

pub use children::Children;
pub use crews::{Address, Addresses, Crew, Hands, PortFault, Want};
pub use dialers::Dialer;
pub use doors::Door;
pub use folder::Folder;
pub use links::{Came, Link, LinkFault};
pub use memory::{MemorySource, MemorySources};
pub use memory_crew::MemoryCrew;
pub use memory_dialer::MemoryDialer;
pub use memory_door::MemoryDoor;
pub use memory_link::MemoryLink;
pub use memory_performer::MemoryPerformer;
pub use memory_spawner::{MemoryProgram, MemorySpawner};
pub use programs::{Done, Output, ProgramRun, SpawnFault, Spawner};
pub use reading::{SourceFault, Sources};
pub use sockets::{SocketDialer, SocketDoor, SocketLink};
pub use tf_actions::{Action, Args, Given, Order, Outcome, Pair, Performer};
