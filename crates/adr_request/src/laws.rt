//! A law of the reading.
ghost use Rattle.std.specs.Prelude.{◌≡◌, ℕ, List, Result};
ghost use Rattle.adr_wire.specs.declared.end.MessageFault.{MessageFault};
ghost use Rattle.adr_request.specs.Requests.{RequestParts, IsRequest};

/// Bytes are read in one way: so the answer is a function of them.
pub fn one_reading()
    ensures { (bytes : List ℕ) (a b : Result RequestParts MessageFault) → IsRequest bytes a → IsRequest bytes b → a ≡ b }
{}
