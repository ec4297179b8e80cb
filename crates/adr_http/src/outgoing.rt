//! What is to be written.
ghost use Rattle.std.specs.Prelude.{◌≡◌};
ghost use Rattle.adr_http.specs.Serving.{outgoing_bytes};

use adr_reply::memory_reply;
use std::alloc::AllocError;

/// The bytes of a reply, or that memory ran out for them.
#[derive(Drop)]
pub enum Outgoing {
    Bytes(Vec<u8>),
    Memory,
}

impl Outgoing {
    /// What is written. It takes no memory.
    pub fn bytes(&self) -> &[u8]
        ensures { result.now ≡ outgoing_bytes self.now }
    {
        match self {
            Outgoing::Bytes(bytes) => bytes,
            Outgoing::Memory => memory_reply(),
        }
    }
}
