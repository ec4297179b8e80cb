//! Laws of networks.
ghost use Rattle.adr_network.specs.Networks.{HaveFirstBits};

/// A network has the addresses of its family of which each of the first bits is its own.
pub fn networks_have_first_bits()
    ensures { HaveFirstBits }
{}
