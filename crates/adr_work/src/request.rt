//! What goes through a gate, and to whom.
ghost use Rattle.std.specs.Prelude.{◌≡◌};
ghost use Rattle.adr_work.specs.Exchanges.{to_utility};

use adr_text::Rows;

/// Whom a request goes to.
#[derive(Drop)]
pub enum Callee {
    /// The utility, whose address the operator has set.
    Utility,
    /// Whoever listens at the endpoint that a subscription's address names: a host, a colon and a port.
    Callback(String),
}

/// The bytes of a request, and whom it goes to.
#[derive(Drop)]
pub struct Request {
    pub to: Callee,
    pub bytes: Rows<u8>,
}

/// The request of these bytes to the utility.
pub(crate) fn to_utility(bytes: Vec<u8>) -> Request
    ensures { result ≡ to_utility bytes.items }
{
    Request {
        to: Callee::Utility,
        bytes: Rows::from_vec(bytes),
    }
}
