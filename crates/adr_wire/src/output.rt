//! Writes all of some bytes.
ghost use Rattle.std.specs.Prelude.{OnOk, OnErr};
ghost use Rattle.std.specs.Io.KnownBytes.{Appends};
ghost use Rattle.adr_wire.specs.Calls.{WritesPart, NoneFails, LastFails};

use adr_text::{IoFault, Sink};

/// Writes all of the bytes, in as many writes as the sink wants.
pub fn write_all<W: Sink>(sink: &mut W, bytes: &[u8]) -> Result<(), IoFault>
    ensures ok { OnOk result (Appends (W.written sink.old) (W.written sink.new) bytes.now) }
    ensures err { OnErr result (WritesPart (W.written sink.old) (W.written sink.new) bytes.now) }
    ensures no_fault { OnOk result (NoneFails (W.calls sink.old) (W.calls sink.new)) }
    ensures fault { OnErr result (LastFails (W.calls sink.old) (W.calls sink.new)) }
{
    let mut at = 0;
    while at < bytes.len() {
        at += sink.push(&bytes[at..])?;
    }
    Ok(())
}
