//! The networks in which addresses may be called.
ghost use Rattle.std.specs.Prelude.{◌≡◌, Some, None, IfOk, length, option_map};
ghost use Rattle.adr_network.specs.Networks.{has_one, allows};

use crate::network::Network;
use adr_text::Rows;
use std::alloc::AllocError;
use std::marker::Model;
use std::net::IpAddr;

/// The networks in which addresses may be called: any, or those of a list.
pub struct Networks {
    only: Option<Rows<Network>>,
}

impl Drop for Networks {
    fn drop(self) {
        let Networks { only: _ } = self;
    }
}

impl Model for Networks {
    ghost use Rattle.std.specs.Prelude.{List, Option};
    ghost use Rattle.adr_network.specs.declared.network.Network.{Network};

    ghost Value = { Option (List Network) };

    ghost view = { λ a. a.only };
}

fn has_one(networks: &[Network], address: &IpAddr) -> bool
    ensures { result ≡ has_one networks.now address.now }
{
    networks.iter().any(|network| network.has(address))
}

impl Networks {
    /// Any address may be called.
    pub fn any() -> Networks
        ensures { result ≡ None }
    {
        Networks { only: None }
    }

    /// Addresses in one of these networks may be called, and no others.
    pub fn of(networks: Rows<Network>) -> Networks
        ensures { result ≡ Some networks }
    {
        Networks {
            only: Some(networks),
        }
    }

    /// The same again.
    pub fn copy(&self) -> Result<Networks, AllocError>
        ensures { IfOk result (λ copy. copy ≡ self.now) }
    {
        let only = self.only.clone()?;
        Ok(Networks { only })
    }

    /// Whether the address may be called.
    pub fn allow(&self, address: &IpAddr) -> bool
        ensures { result ≡ allows self.now address.now }
    {
        match &self.only {
            Some(networks) => has_one(networks.as_slice(), address),
            None => true,
        }
    }

    /// How many networks there are; none where any address may be called.
    pub fn count(&self) -> Option<usize>
        ensures { result ≡ option_map length self.now }
    {
        match &self.only {
            Some(networks) => Some(networks.as_slice().len()),
            None => None,
        }
    }
}
