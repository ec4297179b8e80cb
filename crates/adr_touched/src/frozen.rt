//! The upstream events in which shares are frozen, among those that an edit touches.
ghost use Rattle.std.specs.Prelude.{◌≡◌, ◌==◌, not, map, filter, IfOk, IfErr};
ghost use Rattle.std.specs.List.{list_any};
ghost use Rattle.adr_sql.specs.Calls.{LeavesLent};
ghost use Rattle.adr_state.specs.Frozen.{is_frozen};
ghost use Rattle.adr_view.specs.Rollups.{event_key};
ghost use Rattle.adr_refresh.specs.Touched.{has_resource, events_frozen_in};
ghost use Rattle.adr_db.specs.Calls.{Finds, IsOfStore};
ghost use Rattle.adr_touched.specs.Answers.{HasEvents};

use adr_db_portfolio::{is_frozen, read_frozen_of, read_resources_of};
use adr_objects::{Kind, Number};
use adr_state::{FrozenKey, MirrorKey};
use adr_text::{Refusal, Rows};
use sqlite::{Alter, Transaction};
use std::alloc::{AllocError, Global};

// The upstream keys of the events of frozen shares, in the order of these.
fn keys_of(alloc: Global, shares: Rows<FrozenKey>) -> Result<Rows<MirrorKey>, AllocError>
    ensures { IfOk result (λ keys. keys ≡ map (λ share. event_key share.event) shares) }
{
    let mut keys = Rows::new(alloc);
    'shares: for share in shares.into_vec() {
        keys.push(MirrorKey {
            kind: Kind::Event,
            id: share.event,
        })?;
    }
    Ok(keys)
}

/// The upstream keys of the events in which a share of a resource is frozen.
pub(crate) fn events_frozen_for<S: Alter>(
    alloc: Global,
    tx: &mut Transaction<'_, S>,
    resource: Number,
) -> Result<Rows<MirrorKey>, Refusal>
    ensures lent { LeavesLent S.Store tx.old.conn tx.new.conn result }
    ensures finds { Finds S.Store tx.old.conn.now tx.new.conn.now (λ kept keys. HasEvents keys (events_frozen_in (λ m. m == resource) kept.portfolio)) result }
    ensures refused { IfErr result IsOfStore }
{
    let shares = read_frozen_of(alloc, tx, resource)?;
    Ok(keys_of(alloc, shares)?)
}

// Those in which a share of one of these resources is.
fn events_frozen_for_each<S: Alter>(
    alloc: Global,
    tx: &mut Transaction<'_, S>,
    resources: Rows<Number>,
) -> Result<Rows<MirrorKey>, Refusal>
    ensures lent { LeavesLent S.Store tx.old.conn tx.new.conn result }
    ensures finds { Finds S.Store tx.old.conn.now tx.new.conn.now (λ kept keys. HasEvents keys (events_frozen_in (λ m. list_any (λ n. m == n) resources) kept.portfolio)) result }
    ensures refused { IfErr result IsOfStore }
{
    let mut all = Vec::new(alloc);
    'resources: for resource in resources.into_vec() {
        let mut keys = events_frozen_for(alloc, tx, resource)?.into_vec();
        all.append(&mut keys)?;
    }
    Ok(Rows::from_vec(all))
}

/// Those in which a share of a resource of a ven is.
pub(crate) fn events_frozen_with<S: Alter>(
    alloc: Global,
    tx: &mut Transaction<'_, S>,
    ven: Number,
) -> Result<Rows<MirrorKey>, Refusal>
    ensures lent { LeavesLent S.Store tx.old.conn tx.new.conn result }
    ensures finds { Finds S.Store tx.old.conn.now tx.new.conn.now (λ kept keys. HasEvents keys (events_frozen_in (has_resource kept.portfolio ven) kept.portfolio)) result }
    ensures refused { IfErr result IsOfStore }
{
    let resources = read_resources_of(alloc, tx, ven)?;
    events_frozen_for_each(alloc, tx, resources)
}

/// Those of these keys whose events are not frozen.
pub(crate) fn without_frozen<S: Alter>(
    alloc: Global,
    tx: &mut Transaction<'_, S>,
    keys: Rows<MirrorKey>,
) -> Result<Rows<MirrorKey>, Refusal>
    ensures lent { LeavesLent S.Store tx.old.conn tx.new.conn result }
    ensures finds { Finds S.Store tx.old.conn.now tx.new.conn.now (λ kept left. left ≡ filter (λ key. not (is_frozen kept.portfolio key.id)) keys) result }
    ensures refused { IfErr result IsOfStore }
{
    let mut left = Rows::new(alloc);
    'keys: for key in keys.into_vec() {
        if !is_frozen(alloc, tx, &key.id)? {
            left.push(key)?;
        }
    }
    Ok(left)
}
