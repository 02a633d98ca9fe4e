//! Tests of what stands below the flows: of the forms in memory that fail at calls of their own, of threads that wait for each
//! other, of the messages that the program itself doesn't send or read, of workers, and of remote hands.
#![tactic(auto)]

#[cfg(test)]
mod desks;
#[cfg(test)]
mod dialers;
#[cfg(test)]
mod frames;
#[cfg(test)]
mod journals;
#[cfg(test)]
mod links;
#[cfg(test)]
mod lists;
#[cfg(test)]
mod messages;
#[cfg(test)]
mod orders;
#[cfg(test)]
mod ports;
#[cfg(test)]
mod replies;
#[cfg(test)]
mod sockets;
#[cfg(test)]
mod turnstiles;
#[cfg(test)]
mod workers;
