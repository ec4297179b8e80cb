//! The table `ven`: the vens that are enrolled.
ghost use Rattle.std.specs.Prelude.{◌≡◌, [], ◌∷◌, IfErr};
ghost use Rattle.std.specs.Ordering.{nat_cmp};
ghost use Rattle.adr_state.specs.Names.{ven_name};
ghost use Rattle.adr_state.specs.Keys.{at};
ghost use Rattle.adr_sql.specs.Calls.{LeavesLent};
ghost use Rattle.adr_state.specs.Portfolios.{with_ven, without_ven};
ghost use Rattle.adr_db.specs.Kept.{numbers_named, with_portfolio};
ghost use Rattle.adr_db.specs.Rows.{ven_row, number_row};
ghost use Rattle.adr_db.specs.Refusals.{RefusesToPut, RefusesToShow, CannotReadAll, CannotReadFirst};
ghost use Rattle.sqlite.specs.declared.types.Value.TheVariants.{Text};
ghost use Rattle.adr_db.specs.Admitted.{IsNumber, IsVen, ReadsNumber, ReadsVen};
ghost use Rattle.adr_db.specs.Calls.{LeavesKept, Finds, IsOfStore};

use adr_db::cells::number;
use adr_db::reading::{all_of, first_of};
use adr_db::statement::run;
use adr_objects::Number;
use adr_state::Ven;
use adr_text::{Name, Refusal, Rows};
use sqlite::types::ToSql;
use sqlite::{Alter, Transaction};
use std::alloc::Global;

const PUT: &str =
    "INSERT INTO ven (id, name, created, modified) VALUES (?1, ?2, ?3, ?4) ON CONFLICT (id) DO UPDATE SET id = excluded.id, name = excluded.name, created = excluded.created, modified = excluded.modified";

const REMOVE: &str = "DELETE FROM ven WHERE id = ?1";

const READ_ONE: &str = "SELECT id, name, created, modified FROM ven WHERE id = ?1 ORDER BY id";

const READ_NAMED: &str = "SELECT id FROM ven WHERE name = ?1 ORDER BY id";

/// Puts the ven of a number, new or in the place of the one that has it.
pub fn put_ven<S: Alter>(tx: &mut Transaction<'_, S>, id: Number, ven: &Ven) -> Result<(), Refusal>
    ensures lent { LeavesLent S.Store tx.old.conn tx.new.conn result }
    ensures leaves { LeavesKept S.Store tx.old.conn.now tx.new.conn.now (with_portfolio (with_ven id ven.now)) result }
    ensures refused { IfErr result IsOfStore }
    ensures fails { RefusesToPut S.Store tx.old.conn.now tx.new.conn.now PUT.now (ven_row (id, ven.now)) result }
{
    run(
        tx,
        PUT,
        &[
            number(id.get())?,
            ven.name.as_str().to_sql(),
            number(ven.stamps.created.nanos())?,
            number(ven.stamps.modified.nanos())?,
        ],
    )
}

/// The ven of a number goes, and with it its resources, their shares and the reports on them, and its
/// subscriptions.
pub fn remove_ven<S: Alter>(tx: &mut Transaction<'_, S>, id: Number) -> Result<(), Refusal>
    ensures lent { LeavesLent S.Store tx.old.conn tx.new.conn result }
    ensures leaves { LeavesKept S.Store tx.old.conn.now tx.new.conn.now (with_portfolio (without_ven id)) result }
    ensures refused { IfErr result IsOfStore }
    ensures fails { RefusesToPut S.Store tx.old.conn.now tx.new.conn.now REMOVE.now (number_row id) result }
{
    run(tx, REMOVE, &[number(id.get())?])
}

/// The ven of a number, where there is one.
pub fn read_ven<S: Alter>(
    alloc: Global,
    tx: &mut Transaction<'_, S>,
    id: Number,
) -> Result<Option<Ven>, Refusal>
    ensures lent { LeavesLent S.Store tx.old.conn tx.new.conn result }
    ensures finds { Finds S.Store tx.old.conn.now tx.new.conn.now (λ kept found. found ≡ at nat_cmp id kept.portfolio.vens) result }
    ensures refused { IfErr result IsOfStore }
    ensures fails { RefusesToShow S.Store tx.old.conn.now tx.new.conn.now READ_ONE.now (number_row id) (CannotReadFirst IsVen ReadsVen) result }
{
    first_of(alloc, tx, READ_ONE, &[number(id.get())?])
}

/// The numbers of the vens that have a name, in their order.
pub fn read_vens_named<S: Alter>(
    alloc: Global,
    tx: &mut Transaction<'_, S>,
    name: &Name,
) -> Result<Rows<Number>, Refusal>
    ensures lent { LeavesLent S.Store tx.old.conn tx.new.conn result }
    ensures finds { Finds S.Store tx.old.conn.now tx.new.conn.now (λ kept numbers. numbers ≡ numbers_named ven_name name.now kept.portfolio.vens) result }
    ensures refused { IfErr result IsOfStore }
    ensures fails { RefusesToShow S.Store tx.old.conn.now tx.new.conn.now READ_NAMED.now (Text name.now ∷ []) (CannotReadAll IsNumber ReadsNumber) result }
{
    all_of(alloc, tx, READ_NAMED, &[name.as_str().to_sql()])
}
