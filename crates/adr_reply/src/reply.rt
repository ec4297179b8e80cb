//! Replies.
ghost use Rattle.std.specs.Prelude.{◌≤◌, ◌<◌};

use adr_routes::Methods;

/// A field that some replies have.
#[derive(Clone, Copy, Debug, PartialEq, Eq)]
pub enum Extra {
    Nothing,
    /// `WWW-Authenticate: Bearer`
    Challenge,
    /// `Allow`, and the methods of the path.
    Allow(Methods),
}

/// A reply.
#[derive(Drop)]
pub struct Reply {
    pub status: u16,
    pub extra: Extra,
    /// JSON.
    pub body: String,
    ghost is_code: { (100 ≤ status) × (status < 1000) },
}
