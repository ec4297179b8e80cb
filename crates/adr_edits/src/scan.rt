//! Scans: opened and closed.
ghost use Rattle.std.specs.Prelude.{◌≡◌, ◌≢◌, Ok, Err, IfOk, IfErr};
ghost use Rattle.adr_text.specs.declared.refusal.Refusal.TheVariants.{Store};
ghost use Rattle.adr_text.specs.Refusals.{IsRefusalOf};
ghost use Rattle.adr_state.specs.BaseChanges.{changed};
ghost use Rattle.adr_edits.specs.Changes.{answer_left};
ghost use Rattle.adr_state.specs.Evidence.{scan_begin, scan_end};

use adr_state::{Base, MirrorKey, Polled, probes};
use adr_text::{Refusal, Rows};
use std::alloc::Global;

/// Opens a scan.
pub fn begin_scan(alloc: Global, base: &mut Base)
    ensures { base.new ≡ changed scan_begin base.old }
{
    base.scan = Some(Polled::new(alloc));
}

/// Closes the scan, and answers the live keys that it missed.
pub fn end_scan(alloc: Global, base: &mut Base) -> Result<Rows<MirrorKey>, Refusal>
    ensures ok { IfOk result (λ missed. answer_left base.old (scan_end base.old) ≡ Ok (missed, base.new)) }
    ensures refused { IfErr result (λ refusal. IsRefusalOf refusal (scan_end base.old)) }
    ensures no_store { result ≢ Err Store }
{
    let Some(polled) = &base.scan else {
        return Err(Refusal::NoScan);
    };
    let missed = probes(alloc, &base.mirror, polled)?;
    base.scan = None;
    Ok(missed)
}
