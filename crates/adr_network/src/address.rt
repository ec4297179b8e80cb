//! The address of an endpoint, and whether it may be called.
ghost use Rattle.std.specs.Prelude.{◌↔◌, IfOk, IsTrue};
ghost use Rattle.adr_network.specs.Addresses.{FindsAddress, AllowsEndpoint};

use crate::networks::Networks;
use std::alloc::{AllocError, Global};
use std::net::SocketAddr;

/// The address of a host and a port, where there is one: `localhost` is this machine.
#[tactic(auto, using(crate::proofs::Naming::of_name, crate::proofs::Naming::of_number))]
pub fn address_of(alloc: Global, endpoint: &str) -> Result<Option<SocketAddr>, AllocError>
    ensures { IfOk result (FindsAddress endpoint.now) }
{
    match endpoint.strip_prefix("localhost:") {
        Some(port) => {
            let text = format!(in alloc; "127.0.0.1:{port}")?;
            Ok(text.as_str().parse().ok())
        }
        None => Ok(endpoint.parse().ok()),
    }
}

impl Networks {
    /// Whether an endpoint may be called: it names an address that may be.
    pub fn allow_endpoint(&self, alloc: Global, endpoint: &str) -> Result<bool, AllocError>
        ensures { IfOk result (λ may. IsTrue may ↔ AllowsEndpoint self.now endpoint.now) }
    {
        match address_of(alloc, endpoint)? {
            Some(address) => Ok(self.allow(&address.ip())),
            None => Ok(false),
        }
    }
}
