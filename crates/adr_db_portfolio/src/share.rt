//! The table `share`: the shares of resources in programs.
ghost use Rattle.std.specs.Prelude.{◌≡◌, ◌==◌, [], map, filter, IfErr};
ghost use Rattle.adr_state.specs.Keys.{share_cmp, at};
ghost use Rattle.adr_sql.specs.Calls.{LeavesLent};
ghost use Rattle.adr_state.specs.Portfolios.{with_share, without_share};
ghost use Rattle.adr_db.specs.Kept.{with_portfolio};
ghost use Rattle.adr_db.specs.Rows.{number_row, share_key_row, share_row};
ghost use Rattle.adr_db.specs.Refusals.{RefusesToPut, RefusesToShow, CannotReadAll, CannotReadFirst};
ghost use Rattle.adr_db.specs.Admitted.{IsShareKey, IsShareWeight, ReadsShareKey, ReadsShareWeight, ReadsShare};
ghost use Rattle.adr_db.specs.Calls.{LeavesKept, Finds, IsOfStore};

use adr_db::cells::number;
use adr_db::reading::{all_of, first_in, table_of};
use adr_db::statement::{rows_of, run};
use adr_objects::Number;
use adr_state::{ShareKey, Weight};
use adr_text::{Refusal, Rows, Table};
use sqlite::types::ToSql;
use sqlite::{Alter, Transaction};
use std::alloc::Global;

const PUT: &str =
    "INSERT INTO share (program, resource, weight) VALUES (?1, ?2, ?3) ON CONFLICT (program, resource) DO UPDATE SET program = excluded.program, resource = excluded.resource, weight = excluded.weight";

const REMOVE: &str = "DELETE FROM share WHERE program = ?1 AND resource = ?2";

const READ_ONE: &str =
    "SELECT program, resource, weight FROM share WHERE program = ?1 AND resource = ?2 ORDER BY program, resource";

const READ_ALL: &str = "SELECT program, resource, weight FROM share ORDER BY program, resource";

const READ_OF: &str =
    "SELECT program, resource FROM share WHERE resource = ?1 ORDER BY program, resource";

/// Puts the weight of a share, new or in the place of the one that it has.
pub fn put_share<S: Alter>(
    tx: &mut Transaction<'_, S>,
    key: &ShareKey,
    weight: Weight,
) -> Result<(), Refusal>
    ensures lent { LeavesLent S.Store tx.old.conn tx.new.conn result }
    ensures leaves { LeavesKept S.Store tx.old.conn.now tx.new.conn.now (with_portfolio (with_share key.now weight)) result }
    ensures refused { IfErr result IsOfStore }
    ensures fails { RefusesToPut S.Store tx.old.conn.now tx.new.conn.now PUT.now (share_row (key.now, weight)) result }
{
    run(
        tx,
        PUT,
        &[
            key.program.as_str().to_sql(),
            number(key.resource.get())?,
            weight.get().to_sql(),
        ],
    )
}

/// The share goes.
pub fn remove_share<S: Alter>(tx: &mut Transaction<'_, S>, key: &ShareKey) -> Result<(), Refusal>
    ensures lent { LeavesLent S.Store tx.old.conn tx.new.conn result }
    ensures leaves { LeavesKept S.Store tx.old.conn.now tx.new.conn.now (with_portfolio (without_share key.now)) result }
    ensures refused { IfErr result IsOfStore }
    ensures fails { RefusesToPut S.Store tx.old.conn.now tx.new.conn.now REMOVE.now (share_key_row key.now) result }
{
    let resource = number(key.resource.get())?;
    run(tx, REMOVE, &[key.program.as_str().to_sql(), resource])
}

/// The weight of a share, where there is one.
pub fn read_share<S: Alter>(
    tx: &mut Transaction<'_, S>,
    key: &ShareKey,
) -> Result<Option<Weight>, Refusal>
    ensures lent { LeavesLent S.Store tx.old.conn tx.new.conn result }
    ensures finds { Finds S.Store tx.old.conn.now tx.new.conn.now (λ kept found. found ≡ at share_cmp key.now kept.portfolio.shares) result }
    ensures refused { IfErr result IsOfStore }
    ensures fails { RefusesToShow S.Store tx.old.conn.now tx.new.conn.now READ_ONE.now (share_key_row key.now) (CannotReadFirst IsShareWeight ReadsShareWeight) result }
{
    let resource = number(key.resource.get())?;
    let rows = rows_of(tx, READ_ONE, &[key.program.as_str().to_sql(), resource])?;
    first_in(*rows.allocator(), &rows)
}

/// The shares, by program and resource.
pub fn read_shares<S: Alter>(
    alloc: Global,
    tx: &mut Transaction<'_, S>,
) -> Result<Table<ShareKey, Weight>, Refusal>
    ensures lent { LeavesLent S.Store tx.old.conn tx.new.conn result }
    ensures finds { Finds S.Store tx.old.conn.now tx.new.conn.now (λ kept shares. shares ≡ kept.portfolio.shares) result }
    ensures refused { IfErr result IsOfStore }
    ensures fails { RefusesToShow S.Store tx.old.conn.now tx.new.conn.now READ_ALL.now [] (CannotReadAll (λ e. IsShareKey e.0 × IsShareWeight e.1) ReadsShare) result }
{
    let entries = all_of(alloc, tx, READ_ALL, &[])?;
    table_of(alloc, entries)
}

/// The keys of the shares of a resource, by their programs. No weight is read, and no share of another resource.
pub fn read_shares_of<S: Alter>(
    alloc: Global,
    tx: &mut Transaction<'_, S>,
    resource: Number,
) -> Result<Rows<ShareKey>, Refusal>
    ensures lent { LeavesLent S.Store tx.old.conn tx.new.conn result }
    ensures finds { Finds S.Store tx.old.conn.now tx.new.conn.now (λ kept keys. keys ≡ map (λ s. s.0) (filter (λ s. s.0.resource == resource) kept.portfolio.shares)) result }
    ensures refused { IfErr result IsOfStore }
    ensures fails { RefusesToShow S.Store tx.old.conn.now tx.new.conn.now READ_OF.now (number_row resource) (CannotReadAll IsShareKey ReadsShareKey) result }
{
    all_of(alloc, tx, READ_OF, &[number(resource.get())?])
}
