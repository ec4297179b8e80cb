//! Evidence joins the mirror.
ghost use Rattle.std.specs.Prelude.{◌≡◌, ◌⊎◌, ◌+◌, false, true, nat_lt, ◌&&◌, if◌then◌else◌, [], ◌∷◌, IfOk, IfErr, OnOk};
ghost use Rattle.adr_text.specs.declared.refusal.Refusal.TheVariants.{LimitReached};
ghost use Rattle.adr_sql.specs.Calls.{LeavesLent};
ghost use Rattle.adr_state.specs.Keys.{mirror_cmp, at};
ghost use Rattle.adr_state.specs.Mirror.{key_of, mark_of, evidence_of, joined};
ghost use Rattle.adr_db.specs.Calls.{LeavesKept, Turns, IsOfStore};
ghost use Rattle.adr_state.specs.Evidence.{evidence, gone};
ghost use Rattle.adr_mirror.specs.Raises.{HasRisen, HaveRisen, rise_of, noted, are_beyond, with_raised, with_joined, with_keys_polled, with_polled_if};
ghost use Rattle.adr_db.specs.BaseCalls.{Makes, RefusesOn};

use crate::raise::raise;
use crate::risen::Risen;
use adr_db::Meta;
use adr_db_mirror::put_polled;
use adr_objects::{Found, Kind};
use adr_state::{Limits, Mark, MirrorKey, key_of, mark_of};
use adr_text::{ObjectId, Refusal, Rows};
use sqlite::{Alter, Transaction};
use std::alloc::{AllocError, Global};

// One version joins the mirror, and what it makes of its key is noted.
fn join_one<S: Alter>(
    alloc: Global,
    tx: &mut Transaction<'_, S>,
    found: &Found,
    risen: &mut Risen,
) -> Result<(), Refusal>
    ensures lent { LeavesLent S.Store tx.old.conn tx.new.conn result }
    ensures turns { Turns S.Store tx.old.conn.now tx.new.conn.now (with_raised (key_of found.now, mark_of found.now)) (λ kept _. risen.new ≡ noted risen.old (key_of found.now) (rise_of (at mirror_cmp (key_of found.now) kept.mirror) (mark_of found.now))) result }
    ensures refused { IfErr result IsOfStore }
{
    let key = key_of(found)?;
    let mark = mark_of(found)?;
    let rise = raise(alloc, tx, &key, &mark)?;
    risen.note(key, rise)?;
    Ok(())
}

/// The versions join the mirror, one after another.
fn join<S: Alter>(
    alloc: Global,
    tx: &mut Transaction<'_, S>,
    founds: &[Found],
) -> Result<Risen, Refusal>
    ensures lent { LeavesLent S.Store tx.old.conn tx.new.conn result }
    ensures turns { Turns S.Store tx.old.conn.now tx.new.conn.now (with_joined (evidence_of founds.now)) (λ kept risen. HasRisen kept.mirror (joined kept.mirror (evidence_of founds.now)) risen) result }
    ensures refused { IfErr result IsOfStore }
{
    let mut risen = Risen::new(alloc);
    'founds: for found in founds {
        join_one(alloc, tx, found, &mut risen)?;
    }
    Ok(risen)
}

// The keys with those that were added, unless they are more than the limit.
fn keys_with(limits: &Limits, keys: u64, added: u64) -> Result<u64, Refusal>
    ensures within { IfOk result (λ all. (all ≡ keys + added) × (nat_lt limits.now.keys all ≡ false)) }
    ensures beyond { IfErr result (λ refusal. (refusal ≡ LimitReached) × (nat_lt limits.now.keys (keys + added) ≡ true)) }
{
    let most = limits.keys.get();
    // Tested so that no sum can wrap.
    if most < keys || most - keys < added {
        return Err(Refusal::LimitReached);
    }
    Ok(keys + added)
}

/// Counts the keys that were added to the mirror, and refuses them where they are more than the limit then.
fn count_keys(limits: &Limits, meta: &mut Meta, added: u64) -> Result<(), Refusal>
    ensures within { OnOk result ((meta.new ≡ record meta.old { keys = meta.old.keys + added }) × (are_beyond limits.now.keys meta.old.keys added ≡ false)) }
    ensures beyond { IfErr result (λ refusal. (refusal ≡ LimitReached) × (are_beyond limits.now.keys meta.old.keys added ≡ true)) }
{
    if added == 0 {
        return Ok(());
    }
    meta.keys = keys_with(limits, meta.keys, added)?;
    Ok(())
}

// The keys of the versions join the polled ones.
fn poll_each<S: Alter>(tx: &mut Transaction<'_, S>, founds: &[Found]) -> Result<(), Refusal>
    ensures lent { LeavesLent S.Store tx.old.conn tx.new.conn result }
    ensures leaves { LeavesKept S.Store tx.old.conn.now tx.new.conn.now (with_keys_polled founds.now) result }
    ensures refused { IfErr result IsOfStore }
{
    'founds: for found in founds {
        put_polled(tx, &key_of(found)?)?;
    }
    Ok(())
}

/// Whether keys are noted: they were polled, and a scan is open.
fn is_noted(polled: bool, meta: &Meta) -> bool
    ensures { result ≡ (polled && meta.now.scan) }
{
    polled && meta.scan
}

/// Notes the keys of what was polled, where a scan is open for it.
fn poll<S: Alter>(tx: &mut Transaction<'_, S>, founds: &[Found], noted: bool) -> Result<(), Refusal>
    ensures lent { LeavesLent S.Store tx.old.conn tx.new.conn result }
    ensures leaves { LeavesKept S.Store tx.old.conn.now tx.new.conn.now (with_polled_if noted founds.now) result }
    ensures refused { IfErr result IsOfStore }
{
    if !noted {
        return Ok(());
    }
    poll_each(tx, founds)
}

/// Joins the mirror with the versions of a page or a notification, as a whole or not at all, and answers
/// the keys whose mark rose. With `polled` the keys of the versions join the set of an open scan. The numbers
/// of the node are handed in, and are left as the caller has to put them. Refused with `LimitReached` where
/// keys were added and are more than the limit, deleted ones too; after a refusal the transaction has to be
/// dropped.
pub fn put_evidence<S: Alter>(
    alloc: Global,
    tx: &mut Transaction<'_, S>,
    limits: &Limits,
    meta: &mut Meta,
    founds: &[Found],
    polled: bool,
) -> Result<Rows<MirrorKey>, Refusal>
    ensures lent { LeavesLent S.Store tx.old.conn tx.new.conn result }
    ensures makes { Makes S.Store tx.old.conn.now tx.new.conn.now (evidence limits.now founds.now polled) meta.old meta.new (λ before after keys. HaveRisen before.mirror after.mirror keys) result }
    ensures refuses { RefusesOn S.Store tx.old.conn.now tx.new.conn.now (evidence limits.now founds.now polled) meta.old result }
    ensures refused { IfErr result (λ refusal. IsOfStore refusal ⊎ (refusal ≡ LimitReached)) }
{
    let risen = join(alloc, tx, founds)?;
    count_keys(limits, meta, risen.added)?;
    poll(tx, founds, is_noted(polled, meta))?;
    Ok(risen.list(alloc)?)
}

fn key_at(kind: Kind, id: &ObjectId) -> Result<MirrorKey, AllocError>
    ensures { IfOk result (λ key. key ≡ record { kind = kind; id = id.now }) }
{
    Ok(MirrorKey {
        kind,
        id: id.clone()?,
    })
}

/// Joins the mirror with the deletion of an object, and answers whether the mark of its key rose.
/// Refused as `put_evidence`.
pub fn gone<S: Alter>(
    alloc: Global,
    tx: &mut Transaction<'_, S>,
    limits: &Limits,
    meta: &mut Meta,
    kind: Kind,
    id: &ObjectId,
) -> Result<bool, Refusal>
    ensures lent { LeavesLent S.Store tx.old.conn tx.new.conn result }
    ensures makes { Makes S.Store tx.old.conn.now tx.new.conn.now (gone limits.now (record { kind = kind; id = id.now })) meta.old meta.new (λ before after rose. HaveRisen before.mirror after.mirror (if rose then record { kind = kind; id = id.now } ∷ [] else [])) result }
    ensures refuses { RefusesOn S.Store tx.old.conn.now tx.new.conn.now (gone limits.now (record { kind = kind; id = id.now })) meta.old result }
    ensures refused { IfErr result (λ refusal. IsOfStore refusal ⊎ (refusal ≡ LimitReached)) }
{
    let key = key_at(kind, id)?;
    let rise = raise(alloc, tx, &key, &Mark::Dead)?;
    count_keys(limits, meta, rise.added())?;
    Ok(rise.is_raised())
}
