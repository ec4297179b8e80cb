//! The table `frozen_share`: the shares that are kept for frozen events.
ghost use Rattle.std.specs.Prelude.{◌≡◌, ◌==◌, map, filter, IfErr};
ghost use Rattle.adr_sql.specs.Calls.{LeavesLent};
ghost use Rattle.adr_state.specs.Frozen.{is_of_event};
ghost use Rattle.adr_db.specs.Kept.{with_portfolio};
ghost use Rattle.adr_db.specs.Rows.{event_key_row, number_row, frozen_share_row};
ghost use Rattle.adr_db.specs.Admitted.{IsFrozenKey, IsFrozenShare, ReadsFrozenKey, ReadsFrozenShare};
ghost use Rattle.adr_db.specs.Refusals.{CannotReadAll, RefusesToPut, RefusesToShow};
ghost use Rattle.adr_db.specs.Calls.{LeavesKept, Finds, IsOfStore};
ghost use Rattle.adr_db_portfolio.specs.Frozen.{with_frozen_share, without_frozen_shares};

use adr_db::cells::number;
use adr_db::reading::all_of;
use adr_db::statement::run;
use adr_objects::Number;
use adr_state::{FrozenKey, Weight};
use adr_text::{ObjectId, Refusal, Rows};
use sqlite::types::ToSql;
use sqlite::{Alter, Transaction};
use std::alloc::Global;

const PUT: &str =
    "INSERT INTO frozen_share (event, resource, weight) VALUES (?1, ?2, ?3) ON CONFLICT (event, resource) DO UPDATE SET event = excluded.event, resource = excluded.resource, weight = excluded.weight";

const CLEAR: &str = "DELETE FROM frozen_share WHERE event = ?1";

const READ_IN: &str =
    "SELECT event, resource, weight FROM frozen_share WHERE event = ?1 ORDER BY event, resource";

const READ_OF: &str =
    "SELECT event, resource FROM frozen_share WHERE resource = ?1 ORDER BY event, resource";

/// Puts the weight that is kept for a resource in an event, new or in the place of the one that is there.
pub fn put_frozen_share<S: Alter>(
    tx: &mut Transaction<'_, S>,
    key: &FrozenKey,
    weight: Weight,
) -> Result<(), Refusal>
    ensures lent { LeavesLent S.Store tx.old.conn tx.new.conn result }
    ensures leaves { LeavesKept S.Store tx.old.conn.now tx.new.conn.now (with_portfolio (with_frozen_share key.now weight)) result }
    ensures refused { IfErr result IsOfStore }
    ensures fails { RefusesToPut S.Store tx.old.conn.now tx.new.conn.now PUT.now (frozen_share_row (key.now, weight)) result }
{
    run(
        tx,
        PUT,
        &[
            key.event.as_str().to_sql(),
            number(key.resource.get())?,
            weight.get().to_sql(),
        ],
    )
}

/// What is kept for an event goes.
pub fn remove_frozen_shares<S: Alter>(
    tx: &mut Transaction<'_, S>,
    event: &ObjectId,
) -> Result<(), Refusal>
    ensures lent { LeavesLent S.Store tx.old.conn tx.new.conn result }
    ensures leaves { LeavesKept S.Store tx.old.conn.now tx.new.conn.now (with_portfolio (without_frozen_shares event.now)) result }
    ensures refused { IfErr result IsOfStore }
    ensures fails { RefusesToPut S.Store tx.old.conn.now tx.new.conn.now CLEAR.now (event_key_row event.now) result }
{
    run(tx, CLEAR, &[event.as_str().to_sql()])
}

/// The shares that are kept for an event, in the order of the resources' numbers. None of another event is read.
pub fn read_frozen_in<S: Alter>(
    alloc: Global,
    tx: &mut Transaction<'_, S>,
    event: &ObjectId,
) -> Result<Rows<(FrozenKey, Weight)>, Refusal>
    ensures lent { LeavesLent S.Store tx.old.conn tx.new.conn result }
    ensures finds { Finds S.Store tx.old.conn.now tx.new.conn.now (λ kept shares. shares ≡ filter (is_of_event event.now) kept.portfolio.frozen_shares) result }
    ensures refused { IfErr result IsOfStore }
    ensures fails { RefusesToShow S.Store tx.old.conn.now tx.new.conn.now READ_IN.now (event_key_row event.now) (CannotReadAll IsFrozenShare ReadsFrozenShare) result }
{
    all_of(alloc, tx, READ_IN, &[event.as_str().to_sql()])
}

/// The keys of the shares that are kept for a resource, by their events. No weight is read, and nothing of another resource.
pub fn read_frozen_of<S: Alter>(
    alloc: Global,
    tx: &mut Transaction<'_, S>,
    resource: Number,
) -> Result<Rows<FrozenKey>, Refusal>
    ensures lent { LeavesLent S.Store tx.old.conn tx.new.conn result }
    ensures finds { Finds S.Store tx.old.conn.now tx.new.conn.now (λ kept keys. keys ≡ map (λ s. s.0) (filter (λ s. s.0.resource == resource) kept.portfolio.frozen_shares)) result }
    ensures refused { IfErr result IsOfStore }
    ensures fails { RefusesToShow S.Store tx.old.conn.now tx.new.conn.now READ_OF.now (number_row resource) (CannotReadAll IsFrozenKey ReadsFrozenKey) result }
{
    all_of(alloc, tx, READ_OF, &[number(resource.get())?])
}
