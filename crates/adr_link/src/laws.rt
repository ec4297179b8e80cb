//! A law of the reading.
ghost use Rattle.std.specs.Prelude.{◌≡◌, ℕ, List, Result};
ghost use Rattle.adr_link.specs.Replies.{IsReply};
ghost use Rattle.adr_link.specs.declared.reply.HttpReply.{HttpReply};
ghost use Rattle.adr_link.specs.declared.reply.LinkFault.{LinkFault};

/// Bytes are read in one way: so the answer is a function of them.
pub fn one_reading()
    ensures { (bytes : List ℕ) (a b : Result HttpReply LinkFault) → IsReply bytes a → IsReply bytes b → a ≡ b }
{}
