//! A network, from its text.
ghost use Rattle.std.specs.Prelude.{◌≡◌, option_and_then, IfSome, IfNone};
ghost use Rattle.std.specs.Option.{option_copied};
ghost use Rattle.adr_network.specs.declared.network.Network.{Network as Net};
ghost use Rattle.adr_network.specs.Networks.{network_at};
ghost use Rattle.adr_network.specs.Texts.{address_part, length_part, is_padded, length_in, IsNetworkOf, IsNetworkText};

use crate::network::Network;
use adr_state::number_within;
use std::net::IpAddr;

// Whether digits begin with a 0 that others follow.
fn is_padded(digits: &[u8]) -> bool
    ensures { result ≡ is_padded digits.now }
{
    match digits.split_first() {
        Some((first, rest)) => *first == 48 && !rest.is_empty(),
        None => false,
    }
}

/// The length that plain digits write.
fn length_in(digits: &str) -> Option<u32>
    ensures { result ≡ length_in digits.now }
{
    let digits = digits.as_bytes();
    if is_padded(digits) {
        return None;
    }
    Some(number_within(128, digits)? as u32)
}

fn length_said(digits: Option<&str>) -> Option<u32>
    ensures { result ≡ option_and_then length_in (option_copied digits.entry) }
{
    length_in(digits?)
}

/// The parts of a text before and behind its first `/`, where it has one.
fn parts(text: &str) -> (&str, Option<&str>)
    ensures front { result.0.now ≡ address_part text.now }
    ensures back { option_copied result.1 ≡ length_part text.now }
{
    match text.split_once('/') {
        Some((address, length)) => (address, Some(length)),
        None => (text, None),
    }
}

/// The network of that length, if there is one, that begins at the address.
fn network_at(address: &IpAddr, length: Option<u32>) -> Option<Network>
    ensures { result ≡ option_and_then (network_at address.now) length }
{
    Network::at(address, length?)
}

/// The network of that length, if there is one, that begins at the address that the text writes.
#[tactic(auto, using(crate::proofs::Reading::written, crate::proofs::Reading::no_other, crate::proofs::Reading::no_address))]
fn network_of(address: &str, length: Option<u32>) -> Option<Network>
    ensures some { IfSome result (IsNetworkOf address.now length) }
    ensures none { IfNone result ((network : Net) → ¬ (IsNetworkOf address.now length network)) }
{
    match address.parse::<IpAddr>() {
        Ok(address) => network_at(&address, length),
        Err(_) => None,
    }
}

impl Network {
    /// The network that a text writes, as `10.20.0.0/16` or `2001:db8::/32`, if it writes one.
    pub fn read(text: &str) -> Option<Network>
        ensures some { IfSome result (IsNetworkText text.now) }
        ensures none { IfNone result ((network : Net) → ¬ (IsNetworkText text.now network)) }
    {
        let (address, length) = parts(text);
        network_of(address, length_said(length))
    }
}
