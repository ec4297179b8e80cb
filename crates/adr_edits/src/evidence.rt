//! Evidence of upstream objects.
ghost use Rattle.std.specs.Prelude.{◌≡◌, ◌≢◌, Ok, Err, nat_lt, ◌&&◌, true, false, IfErr, OnOk};
ghost use Rattle.adr_text.specs.declared.refusal.Refusal.TheVariants.{Store, LimitReached};
ghost use Rattle.adr_text.specs.Refusals.{IsRefusalOf};
ghost use Rattle.adr_edits.specs.Changes.{base_left};
ghost use Rattle.adr_state.specs.Evidence.{scan_with, evidence, gone};

use adr_objects::{Found, Kind};
use adr_state::{Base, Limits, Mark, MirrorKey, Polled, join, poll, raise};
use adr_text::{ObjectId, Refusal};
use std::alloc::{AllocError, Global};

/// Polled keys join the set of an open scan.
fn note_polled(scan: &mut Option<Polled>, founds: &[Found], polled: bool) -> Result<(), AllocError>
    ensures { OnOk result (scan.new ≡ scan_with scan.old founds.now polled) }
{
    if !polled {
        return Ok(());
    }
    poll(scan, founds)
}

/// Refuses keys that were added and are more than the limit.
fn check_keys(limits: &Limits, before: usize, after: usize) -> Result<(), Refusal>
    ensures ok { OnOk result ((nat_lt before after && nat_lt limits.now.keys after) ≡ false) }
    ensures err { IfErr result (λ refusal. (refusal ≡ LimitReached) × ((nat_lt before after && nat_lt limits.now.keys after) ≡ true)) }
{
    if before < after && limits.keys.get() < after as u64 {
        return Err(Refusal::LimitReached);
    }
    Ok(())
}

/// The base after versions were found.
pub fn take_evidence(
    alloc: Global,
    limits: &Limits,
    base: &mut Base,
    founds: &[Found],
    polled: bool,
) -> Result<(), Refusal>
    ensures ok { OnOk result (base_left base.old (evidence limits.now founds.now polled base.old) ≡ Ok base.new) }
    ensures refused { IfErr result (λ refusal. IsRefusalOf refusal (evidence limits.now founds.now polled base.old)) }
    ensures no_store { result ≢ Err Store }
{
    note_polled(&mut base.scan, founds, polled)?;
    let before = base.mirror.len();
    join(alloc, &mut base.mirror, founds)?;
    check_keys(limits, before, base.mirror.len())
}

/// The base after a deletion.
pub fn take_deletion(
    alloc: Global,
    limits: &Limits,
    base: &mut Base,
    kind: Kind,
    id: &ObjectId,
) -> Result<(), Refusal>
    ensures ok { OnOk result (base_left base.old (gone limits.now (record { kind = kind; id = id.now }) base.old) ≡ Ok base.new) }
    ensures refused { IfErr result (λ refusal. IsRefusalOf refusal (gone limits.now (record { kind = kind; id = id.now }) base.old)) }
    ensures no_store { result ≢ Err Store }
{
    let id = id.clone()?;
    let before = base.mirror.len();
    raise(alloc, &mut base.mirror, MirrorKey { kind, id }, Mark::Dead)?;
    check_keys(limits, before, base.mirror.len())
}
