//! The node over sockets: it listens, serves connections on some threads, asks the utility in rounds, and sends
//! its outbox.
#![tactic(auto)]

mod caution;
mod clock;
mod connection;
mod crew;
mod exchange;
mod gate;
mod node_log;
mod notice_log;
mod office_taker;
mod paced;
mod request_log;
mod server;
mod shared;
mod traffic;

pub use caution::CautiousGate;
pub use clock::HostClock;
pub use gate::{SocketGate, StoppedGate};
pub use paced::{Paced, Term};
pub use server::{NodeFault, serve_over, serve_with};
