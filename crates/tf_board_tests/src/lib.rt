//! Tests of boards: the calls of one, shared ones, conductors, and a service; each with ample memory, and with a disk, a link or a
//! runner that fails.
#![tactic(auto)]

#[cfg(test)]
mod boards;
#[cfg(test)]
mod calls;
#[cfg(test)]
mod commands;
#[cfg(test)]
mod conductors;
#[cfg(test)]
mod conductors_at_once;
#[cfg(test)]
mod halts;
#[cfg(test)]
mod links;
#[cfg(test)]
mod owners;
#[cfg(test)]
mod replies;
#[cfg(test)]
mod requests;
#[cfg(test)]
mod sessions;
#[cfg(test)]
mod sessions_at_once;
#[cfg(test)]
mod shares;
#[cfg(test)]
mod sockets;
#[cfg(test)]
mod waits;
