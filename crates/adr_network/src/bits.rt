//! Addresses as their bits.
ghost use Rattle.std.specs.Prelude.{◌≡◌, ◌-◌, ◌^◌, ◌<◌};
ghost use Rattle.std.specs.Option.{SomeIff};
ghost use Rattle.adr_network.specs.Bits.{bits_of, asked_bits, unmapped, first_bits, bits_behind};

use std::net::IpAddr;

/// The bits of an address: how many there are, and the number that they write.
#[derive(Clone, Copy, PartialEq, Eq)]
pub(crate) struct Bits {
    pub(crate) count: u32,
    pub(crate) number: u128,
}

/// The bits of an address.
pub(crate) fn bits_of(address: &IpAddr) -> Bits
    ensures { result ≡ bits_of address.now }
{
    match address {
        IpAddr::V4(ip) => Bits {
            count: 32,
            number: ip.to_bits() as u128,
        },
        IpAddr::V6(ip) => Bits {
            count: 128,
            number: ip.to_bits(),
        },
    }
}

// The bits of an IPv6 address, or those of the IPv4 address that is mapped to it.
fn unmapped(number: u128) -> Bits
    ensures { result ≡ unmapped number }
{
    if number / 0x1_0000_0000 == 0xffff {
        return Bits {
            count: 32,
            number: number % 0x1_0000_0000,
        };
    }
    Bits { count: 128, number }
}

/// The bits of an address that is asked about: those of an IPv4 address, where one is mapped to it.
pub(crate) fn asked_bits(address: &IpAddr) -> Bits
    ensures { result ≡ asked_bits address.now }
{
    match address {
        IpAddr::V4(_) => bits_of(address),
        IpAddr::V6(ip) => unmapped(ip.to_bits()),
    }
}

impl Bits {
    // How many addresses there are with the same first bits, unless those are all that there are.
    fn size(self, length: u32) -> Option<u128>
        ensures { SomeIff result (2 ^ (self.count - length) < 2 ^ 128) (2 ^ (self.count - length)) }
    {
        2u128.checked_pow(self.count.saturating_sub(length))
    }

    /// The number that the first bits write.
    pub(crate) fn first(self, length: u32) -> u128
        ensures { result ≡ first_bits length self }
    {
        match self.size(length) {
            Some(size) => self.number / size,
            None => 0,
        }
    }

    /// The number that the bits behind them write.
    pub(crate) fn behind(self, length: u32) -> u128
        ensures { result ≡ bits_behind length self }
    {
        match self.size(length) {
            Some(size) => self.number % size,
            None => self.number,
        }
    }
}
