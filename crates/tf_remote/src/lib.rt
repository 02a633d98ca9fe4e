//! Remote hands: they ask workers over links.
#![tactic(auto)]

mod allowing;
mod hand;
mod hiring;
mod receiving;
mod replies;
mod requests;

pub use hand::RemoteHand;
pub use hiring::hire;
