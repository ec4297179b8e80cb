//! The table `stamp`: the stamps of what is shown.
ghost use Rattle.std.specs.Prelude.{◌≡◌, IfErr};
ghost use Rattle.adr_state.specs.Keys.{view_cmp, at};
ghost use Rattle.adr_sql.specs.Calls.{LeavesLent};
ghost use Rattle.adr_db.specs.Kept.{with_stamps, without_stamps};
ghost use Rattle.adr_db.specs.Rows.{view_kind, view_id, view_number, view_key_row, stamp_row};
ghost use Rattle.adr_db.specs.Refusals.{RefusesToPut, RefusesToShow, CannotReadFirst};
ghost use Rattle.adr_db.specs.Admitted.{AreStamps, ReadsStamps};
ghost use Rattle.adr_db.specs.Calls.{LeavesKept, Finds, IsOfStore};

use adr_db::cells::number;
use adr_db::reading::first_in;
use adr_db::statement::{rows_of, run};
use adr_objects::Stamps;
use adr_state::ViewKey;
use adr_text::Refusal;
use sqlite::types::ToSql;
use sqlite::{Alter, Transaction};

const PUT: &str =
    "INSERT INTO stamp (kind, a, b, created, modified) VALUES (?1, ?2, ?3, ?4, ?5) ON CONFLICT (kind, a, b) DO UPDATE SET kind = excluded.kind, a = excluded.a, b = excluded.b, created = excluded.created, modified = excluded.modified";

const REMOVE: &str = "DELETE FROM stamp WHERE kind = ?1 AND a = ?2 AND b = ?3";

const READ_ONE: &str =
    "SELECT kind, a, b, created, modified FROM stamp WHERE kind = ?1 AND a = ?2 AND b = ?3 ORDER BY kind, a, b";

/// 1 a program, 2 what a resource is shown of an event, 3 a report, 4 the roll-up of an event.
fn view_kind(key: &ViewKey) -> u32
    ensures { result ≡ view_kind key.now }
{
    match key {
        ViewKey::Program(_) => 1,
        ViewKey::Event(_, _) => 2,
        ViewKey::Report(_) => 3,
        ViewKey::Rollup(_) => 4,
    }
}

/// The upstream id; of a report the empty text.
fn view_id(key: &ViewKey) -> &str
    ensures { result.now ≡ view_id key.now }
{
    match key {
        ViewKey::Program(id) => id.as_str(),
        ViewKey::Event(id, _) => id.as_str(),
        ViewKey::Report(_) => "",
        ViewKey::Rollup(id) => id.as_str(),
    }
}

/// The number of the resource that is shown an event, and that of a report; else 0.
fn view_number(key: &ViewKey) -> u64
    ensures { result ≡ view_number key.now }
{
    match key {
        ViewKey::Program(_) => 0,
        ViewKey::Event(_, resource) => resource.get(),
        ViewKey::Report(report) => report.get(),
        ViewKey::Rollup(_) => 0,
    }
}

/// Puts the stamps of a key, new or in the place of those that it has.
pub fn put_stamps<S: Alter>(
    tx: &mut Transaction<'_, S>,
    key: &ViewKey,
    stamps: Stamps,
) -> Result<(), Refusal>
    ensures lent { LeavesLent S.Store tx.old.conn tx.new.conn result }
    ensures leaves { LeavesKept S.Store tx.old.conn.now tx.new.conn.now (with_stamps key.now stamps) result }
    ensures refused { IfErr result IsOfStore }
    ensures fails { RefusesToPut S.Store tx.old.conn.now tx.new.conn.now PUT.now (stamp_row (key.now, stamps)) result }
{
    run(
        tx,
        PUT,
        &[
            view_kind(key).to_sql(),
            view_id(key).to_sql(),
            number(view_number(key))?,
            number(stamps.created.nanos())?,
            number(stamps.modified.nanos())?,
        ],
    )
}

/// The stamps of a key go.
pub fn remove_stamps<S: Alter>(tx: &mut Transaction<'_, S>, key: &ViewKey) -> Result<(), Refusal>
    ensures lent { LeavesLent S.Store tx.old.conn tx.new.conn result }
    ensures leaves { LeavesKept S.Store tx.old.conn.now tx.new.conn.now (without_stamps key.now) result }
    ensures refused { IfErr result IsOfStore }
    ensures fails { RefusesToPut S.Store tx.old.conn.now tx.new.conn.now REMOVE.now (view_key_row key.now) result }
{
    let n = number(view_number(key))?;
    run(
        tx,
        REMOVE,
        &[view_kind(key).to_sql(), view_id(key).to_sql(), n],
    )
}

/// The stamps of a key, where it has some.
pub fn read_stamps_of<S: Alter>(
    tx: &mut Transaction<'_, S>,
    key: &ViewKey,
) -> Result<Option<Stamps>, Refusal>
    ensures lent { LeavesLent S.Store tx.old.conn tx.new.conn result }
    ensures finds { Finds S.Store tx.old.conn.now tx.new.conn.now (λ kept found. found ≡ at view_cmp key.now kept.stamps) result }
    ensures refused { IfErr result IsOfStore }
    ensures fails { RefusesToShow S.Store tx.old.conn.now tx.new.conn.now READ_ONE.now (view_key_row key.now) (CannotReadFirst AreStamps ReadsStamps) result }
{
    let n = number(view_number(key))?;
    let rows = rows_of(
        tx,
        READ_ONE,
        &[view_kind(key).to_sql(), view_id(key).to_sql(), n],
    )?;
    first_in(*rows.allocator(), &rows)
}
