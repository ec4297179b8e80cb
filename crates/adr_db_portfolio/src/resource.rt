//! The table `resource`: the resources of the vens.
ghost use Rattle.std.specs.Prelude.{◌≡◌, ◌<◌, ◌==◌, [], ◌∷◌, map, filter, IfErr};
ghost use Rattle.std.specs.Ordering.{nat_cmp};
ghost use Rattle.adr_state.specs.Names.{resource_name};
ghost use Rattle.adr_state.specs.Keys.{at};
ghost use Rattle.sqlite.specs.declared.types.Value.TheVariants.{Text};
ghost use Rattle.adr_sql.specs.Calls.{LeavesLent};
ghost use Rattle.adr_state.specs.Portfolios.{with_resource, without_resource};
ghost use Rattle.adr_db.specs.Kept.{numbers_named, with_portfolio};
ghost use Rattle.adr_db.specs.Rows.{resource_row, number_row};
ghost use Rattle.adr_db.specs.Refusals.{RefusesToPut, RefusesToShow, CannotReadAll, CannotReadFirst};
ghost use Rattle.adr_text.specs.declared.refusal.Refusal.TheVariants.{Store};
ghost use Rattle.adr_db.specs.Admitted.{IsNumber, IsResource, ReadsNumber, ReadsResource};
ghost use Rattle.adr_db.specs.Calls.{LeavesKept, Finds, IsOfStore};

use adr_db::cells::number;
use adr_db::reading::{all_of, first_of};
use adr_db::statement::run;
use adr_objects::{Number, ResourceName};
use adr_state::Resource;
use adr_text::{Refusal, Rows};
use sqlite::types::ToSql;
use sqlite::{Alter, Transaction};
use std::alloc::Global;

const PUT: &str =
    "INSERT INTO resource (id, ven, name, created, modified) VALUES (?1, ?2, ?3, ?4, ?5) ON CONFLICT (id) DO UPDATE SET id = excluded.id, ven = excluded.ven, name = excluded.name, created = excluded.created, modified = excluded.modified";

const REMOVE: &str = "DELETE FROM resource WHERE id = ?1";

const READ_ONE: &str =
    "SELECT id, ven, name, created, modified FROM resource WHERE id = ?1 ORDER BY id";

const READ_NAMED: &str = "SELECT id FROM resource WHERE name = ?1 ORDER BY id";

const READ_OF: &str = "SELECT id FROM resource WHERE ven = ?1 ORDER BY id";

/// Puts the resource of a number, new or in the place of the one that has it.
pub fn put_resource<S: Alter>(
    tx: &mut Transaction<'_, S>,
    id: Number,
    resource: &Resource,
) -> Result<(), Refusal>
    ensures lent { LeavesLent S.Store tx.old.conn tx.new.conn result }
    ensures leaves { LeavesKept S.Store tx.old.conn.now tx.new.conn.now (with_portfolio (with_resource id resource.now)) result }
    ensures refused { IfErr result IsOfStore }
    ensures fails { RefusesToPut S.Store tx.old.conn.now tx.new.conn.now PUT.now (resource_row (id, resource.now)) result }
{
    run(
        tx,
        PUT,
        &[
            number(id.get())?,
            number(resource.ven.get())?,
            resource.name.as_name().as_str().to_sql(),
            number(resource.stamps.created.nanos())?,
            number(resource.stamps.modified.nanos())?,
        ],
    )
}

/// The resource of a number goes, and with it its shares.
pub fn remove_resource<S: Alter>(tx: &mut Transaction<'_, S>, id: Number) -> Result<(), Refusal>
    ensures lent { LeavesLent S.Store tx.old.conn tx.new.conn result }
    ensures leaves { LeavesKept S.Store tx.old.conn.now tx.new.conn.now (with_portfolio (without_resource id)) result }
    ensures refused { IfErr result IsOfStore }
    ensures fails { RefusesToPut S.Store tx.old.conn.now tx.new.conn.now REMOVE.now (number_row id) result }
{
    run(tx, REMOVE, &[number(id.get())?])
}

/// The resource of a number, where there is one.
pub fn read_resource<S: Alter>(
    alloc: Global,
    tx: &mut Transaction<'_, S>,
    id: Number,
) -> Result<Option<Resource>, Refusal>
    ensures lent { LeavesLent S.Store tx.old.conn tx.new.conn result }
    ensures finds { Finds S.Store tx.old.conn.now tx.new.conn.now (λ kept found. found ≡ at nat_cmp id kept.portfolio.resources) result }
    ensures refused { IfErr result IsOfStore }
    ensures fails { RefusesToShow S.Store tx.old.conn.now tx.new.conn.now READ_ONE.now (number_row id) (CannotReadFirst IsResource ReadsResource) result }
{
    first_of(alloc, tx, READ_ONE, &[number(id.get())?])
}

/// The numbers of the resources that have a name, in their order.
pub fn read_resources_named<S: Alter>(
    alloc: Global,
    tx: &mut Transaction<'_, S>,
    name: &ResourceName,
) -> Result<Rows<Number>, Refusal>
    ensures lent { LeavesLent S.Store tx.old.conn tx.new.conn result }
    ensures finds { Finds S.Store tx.old.conn.now tx.new.conn.now (λ kept numbers. numbers ≡ numbers_named resource_name name.now kept.portfolio.resources) result }
    ensures refused { IfErr result IsOfStore }
    ensures fails { RefusesToShow S.Store tx.old.conn.now tx.new.conn.now READ_NAMED.now (Text name.now ∷ []) (CannotReadAll IsNumber ReadsNumber) result }
{
    all_of(alloc, tx, READ_NAMED, &[name.as_name().as_str().to_sql()])
}

/// The numbers of the resources of a ven, in their order. No resource of another ven is read.
pub fn read_resources_of<S: Alter>(
    alloc: Global,
    tx: &mut Transaction<'_, S>,
    ven: Number,
) -> Result<Rows<Number>, Refusal>
    ensures lent { LeavesLent S.Store tx.old.conn tx.new.conn result }
    ensures finds { Finds S.Store tx.old.conn.now tx.new.conn.now (λ kept numbers. numbers ≡ map (λ r. r.0) (filter (λ r. r.1.ven == ven) kept.portfolio.resources)) result }
    ensures refused { IfErr result IsOfStore }
    ensures fails { RefusesToShow S.Store tx.old.conn.now tx.new.conn.now READ_OF.now (number_row ven) (CannotReadAll IsNumber ReadsNumber) result }
{
    all_of(alloc, tx, READ_OF, &[number(ven.get())?])
}
