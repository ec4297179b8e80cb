//! Gates of the tests, and who answers behind them.
ghost use Rattle.std.specs.Prelude.{◌≡◌};

use adr_link::{HttpReply, LinkFault, Upstream};
use adr_network::Networks;
use adr_text::{Refusal, Rows};
use adr_work::{Gate, Peers, Request};
use http_server::Log;
use std::alloc::Global;
use std::sync::Arc;

/// Answers what it is asked.
pub trait Peer {
    fn reply(&self, request: &Request) -> Result<HttpReply, LinkFault>;
}

/// A gate behind which such a peer answers.
#[derive(Drop)]
pub struct PeerGate<P: Peer + Drop> {
    pub peer: P,
    log: Log<Request, Result<HttpReply, LinkFault>>,
}

impl<P: Peer + Drop> PeerGate<P> {
    pub fn new(peer: P) -> PeerGate<P> {
        PeerGate {
            peer,
            log: Log::new(),
        }
    }
}

impl<P: Peer + Drop> Gate for PeerGate<P> {
    ghost exchanges = { λ g. g.log.items };

    fn ask(&mut self, request: &Request) -> Result<HttpReply, LinkFault> {
        let came = self.peer.reply(request);
        self.log = self.log.and(request, &came);
        came
    }
}

/// A reply with that status and body.
pub fn reply(alloc: Global, status: u16, body: &str) -> Result<HttpReply, LinkFault> {
    let Ok(bytes) = Vec::from_slice(alloc, body.as_bytes()) else {
        return Err(LinkFault::Memory);
    };
    Ok(HttpReply {
        status,
        body: Rows::from_vec(bytes),
    })
}

/// The utility of the tests; any address may be called.
pub fn peers(alloc: Global) -> Result<Arc<Peers, Global>, Refusal> {
    let upstream = Upstream::new(alloc, "http://127.0.0.1:8081/openadr3", Some("up"))?;
    Ok(Arc::new(
        alloc,
        Peers {
            upstream,
            callbacks: Networks::any(),
        },
    )?)
}
