//! Whom the node calls.
use adr_link::Upstream;
use adr_network::Networks;

/// Whom the node calls.
#[derive(Drop)]
pub struct Peers {
    pub upstream: Upstream,
    /// Where the addresses of subscriptions may be called.
    pub callbacks: Networks,
}
