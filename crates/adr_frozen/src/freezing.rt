//! An event is frozen with those who take part in it.
ghost use Rattle.std.specs.Prelude.{◌≡◌, ◌+◌, nat_lt, [], ◌∷◌, length, IfErr};
ghost use Rattle.adr_text.specs.declared.refusal.Refusal.TheVariants.{NotFound, LimitReached};
ghost use Rattle.adr_state.specs.Participants.{participants};
ghost use Rattle.adr_view.specs.Frozen.{pairs_of, freeze};
ghost use Rattle.adr_sql.specs.Calls.{LeavesLent};
ghost use Rattle.adr_db.specs.Calls.{IsOneOf};
ghost use Rattle.adr_db.specs.BaseCalls.{Carries, CarriesWhere, RefusesOn};
ghost use Rattle.adr_counted.specs.Frozen.{CanBeFrozen};
ghost use Rattle.adr_frozen.specs.Decided.{IsFresh, frozen_within, frozen_by};

use crate::pairs::pairs_kept;
use adr_counted as counted;
use adr_db::Meta;
use adr_db_mirror::read_known;
use adr_db_portfolio::is_frozen;
use adr_objects::{EventBody, Number};
use adr_portfolio::participants;
use adr_state::{Limits, Weight};
use adr_text::{ObjectId, Refusal, Rows};
use adr_view::{event_body, event_key};
use sqlite::{Alter, Transaction};
use std::alloc::Global;

// Whether there is no room for so many more pairs beside those that are kept for all events.
fn are_beyond(limits: &Limits, meta: &Meta, pairs: &[(Number, Weight)]) -> bool
    ensures { result ≡ nat_lt limits.now.frozen (meta.now.frozen + length pairs.now) }
{
    let limit = limits.frozen.get();
    limit < meta.frozen || limit - meta.frozen < pairs.len() as u64
}

// Freezes an event that is not frozen with these pairs, where there is room for them, and answers them.
fn frozen_within<S: Alter>(
    alloc: Global,
    tx: &mut Transaction<'_, S>,
    limits: &Limits,
    meta: &mut Meta,
    id: &ObjectId,
    pairs: Rows<(Number, Weight)>,
) -> Result<Rows<(Number, Weight)>, Refusal>
    ensures lent { LeavesLent S.Store tx.old.conn tx.new.conn result }
    ensures carries { CarriesWhere S.Store tx.old.conn.now tx.new.conn.now (CanBeFrozen id.now pairs) (λ base. frozen_within limits.now id.now pairs base.portfolio) meta.old meta.new result }
    ensures refuses { RefusesOn S.Store tx.old.conn.now tx.new.conn.now (λ base. frozen_within limits.now id.now pairs base.portfolio) meta.old result }
    ensures refused { IfErr result (IsOneOf (LimitReached ∷ [])) }
{
    Refusal::LimitReached.unless(!are_beyond(limits, meta, pairs.as_slice()))?;
    counted::freeze(alloc, tx, meta, id, pairs.as_slice())?;
    Ok(pairs)
}

// Freezes an event that is not frozen with those who take part in it.
fn frozen_now<S: Alter>(
    alloc: Global,
    tx: &mut Transaction<'_, S>,
    limits: &Limits,
    meta: &mut Meta,
    id: &ObjectId,
    event: &EventBody,
) -> Result<Rows<(Number, Weight)>, Refusal>
    ensures lent { LeavesLent S.Store tx.old.conn tx.new.conn result }
    ensures carries { CarriesWhere S.Store tx.old.conn.now tx.new.conn.now (IsFresh id.now) (λ base. frozen_within limits.now id.now (pairs_of (participants base.portfolio id.now event.now)) base.portfolio) meta.old meta.new result }
    ensures refuses { RefusesOn S.Store tx.old.conn.now tx.new.conn.now (λ base. frozen_within limits.now id.now (pairs_of (participants base.portfolio id.now event.now)) base.portfolio) meta.old result }
    ensures refused { IfErr result (IsOneOf (LimitReached ∷ [])) }
{
    let pairs = participants(alloc, tx, id, event)?;
    frozen_within(alloc, tx, limits, meta, id, pairs)
}

// Freezes the event, unless it is frozen already; and answers what is kept for it.
fn frozen_by<S: Alter>(
    alloc: Global,
    tx: &mut Transaction<'_, S>,
    limits: &Limits,
    meta: &mut Meta,
    id: &ObjectId,
    event: &EventBody,
) -> Result<Rows<(Number, Weight)>, Refusal>
    ensures lent { LeavesLent S.Store tx.old.conn tx.new.conn result }
    ensures carries { Carries S.Store tx.old.conn.now tx.new.conn.now (λ base. frozen_by limits.now id.now event.now base.portfolio) meta.old meta.new result }
    ensures refuses { RefusesOn S.Store tx.old.conn.now tx.new.conn.now (λ base. frozen_by limits.now id.now event.now base.portfolio) meta.old result }
    ensures refused { IfErr result (IsOneOf (LimitReached ∷ [])) }
{
    let is_kept = is_frozen(alloc, tx, id)?;
    if is_kept {
        return pairs_kept(alloc, tx, id);
    }
    frozen_now(alloc, tx, limits, meta, id, event)
}

/// Freezes the event of an id, and answers what is kept for it: the number of each resource with its weight, in the order
/// of the numbers. One that is frozen already stays as it is. The numbers of the node are handed in, and are left as the
/// caller has to put them. Refused with `NotFound` where the event is not live with an event's body, and with
/// `LimitReached` where the pairs of all events would pass their limit. It costs what `participants` does, and a put for
/// each pair.
pub fn freeze<S: Alter>(
    alloc: Global,
    tx: &mut Transaction<'_, S>,
    limits: &Limits,
    meta: &mut Meta,
    event: &ObjectId,
) -> Result<Rows<(Number, Weight)>, Refusal>
    ensures lent { LeavesLent S.Store tx.old.conn tx.new.conn result }
    ensures carries { Carries S.Store tx.old.conn.now tx.new.conn.now (λ base. freeze limits.now event.now base.mirror base.portfolio) meta.old meta.new result }
    ensures refuses { RefusesOn S.Store tx.old.conn.now tx.new.conn.now (λ base. freeze limits.now event.now base.mirror base.portfolio) meta.old result }
    ensures refused { IfErr result (IsOneOf (NotFound ∷ LimitReached ∷ [])) }
{
    let key = event_key(event)?;
    let known = read_known(alloc, tx, &key)?;
    match event_body(known.as_ref()) {
        Some(body) => frozen_by(alloc, tx, limits, meta, event, body),
        None => Err(Refusal::NotFound),
    }
}
