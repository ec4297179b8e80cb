//! Networks, and whether an address is in one.
#![tactic(auto)]

mod address;
mod bits;
pub mod laws;
mod network;
mod networks;
mod read;

pub use address::address_of;
pub use network::Network;
pub use networks::Networks;
