//! Networks.
ghost use Rattle.std.specs.Prelude.{◌≡◌};
ghost use Rattle.adr_network.specs.Networks.{network_at, has};

use crate::bits::{Bits, asked_bits, bits_of};
use std::net::IpAddr;

/// The addresses of one family whose first bits are the same.
#[derive(Clone, Copy, PartialEq, Eq)]
pub struct Network {
    /// The first of them.
    bits: Bits,
    /// How many bits those are.
    length: u32,
}

impl Network {
    /// The network that begins at an address, if there is one of that length: the bits behind are 0.
    pub(crate) fn at(address: &IpAddr, length: u32) -> Option<Network>
        ensures { result ≡ network_at address.now length }
    {
        let bits = bits_of(address);
        if bits.count < length || bits.behind(length) != 0 {
            return None;
        }
        Some(Network { bits, length })
    }

    /// Whether an address is in it. An IPv4 address that is mapped to an IPv6 address counts as the IPv4 address.
    pub fn has(&self, address: &IpAddr) -> bool
        ensures { result ≡ has self.now address.now }
    {
        let asked = asked_bits(address);
        asked.count == self.bits.count && asked.first(self.length) == self.bits.first(self.length)
    }
}
