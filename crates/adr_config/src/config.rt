//! What a node that serves is set to.
use crate::deletion::MassDeletion;
use adr_http::Roles;
use adr_link::Upstream;
use adr_network::Networks;
use adr_state::{Limit, Settings};
use adr_subscription::FreeText;
use log::LevelFilter;
use std::net::SocketAddr;

/// What a node that serves is set to.
#[derive(Drop)]
pub struct Config {
    /// Where it listens.
    pub listen: SocketAddr,
    /// The utility's address, and the token that it is shown.
    pub upstream: Upstream,
    /// The networks in which the addresses of subscriptions may be called.
    pub callbacks: Networks,
    /// The name under which it reports to the utility, and how many objects it keeps.
    pub settings: Settings,
    /// The file in which it keeps what it has to keep, or none, where it keeps all in memory.
    pub store: Option<FreeText>,
    /// How many seconds lie between two rounds in which the utility is asked, at most: behind one that broke off fewer.
    pub poll: Limit<3_600>,
    /// Whether a round that finds most objects on no page asks for each of them, or only the next one like it.
    pub mass_deletion: MassDeletion,
    /// How many connections are served at once, and how many senders there are.
    pub workers: Limit<16>,
    /// Who may ask, by which token.
    pub roles: Roles,
    /// After how many connections it stops, if ever.
    pub stop_after: Option<Limit<4_294_967_295>>,
    /// How much is told on standard error.
    pub log: LevelFilter,
}
