//! The table `mirror`: what is known of each upstream key.
ghost use Rattle.std.specs.Prelude.{◌≡◌, ◌==◌, ⊤, [], ◌∷◌, filter, option_map, IfOk, OnOk, IfErr};
ghost use Rattle.sqlite.specs.Values.{bound_value};
ghost use Rattle.sqlite_value.specs.Value.{owned};
ghost use Rattle.adr_state.specs.Keys.{mirror_cmp, at};
ghost use Rattle.adr_sql.specs.Calls.{LeavesLent};
ghost use Rattle.adr_db.specs.Rows.{number, kind_number, key_row, mark_columns, mark_row, columns_row, program_cell};
ghost use Rattle.adr_db.specs.Kept.{IsMark, with_mark};
ghost use Rattle.adr_db.specs.Calls.{LeavesKept, Finds, IsOfStore};
ghost use Rattle.adr_db.specs.Refusals.{RefusesToPut, RefusesToPutText, RefusesToShow, CannotReadFirst, CannotReadAll};
ghost use Rattle.adr_db.specs.Admitted.{AreColumns, IsEntry, ReadsColumns, ReadsMark, ReadsEntry};

use adr_db::MarkColumns;
use adr_db::cells::{kind_number, number};
use adr_db::reading::{all_of, first_in, first_of};
use adr_db::statement::{rows_of, run};
use adr_objects::{Body, Kind, canonical};
use adr_state::{Mark, MirrorKey};
use adr_text::{Refusal, Rows};
use sqlite::types::{ToSql, ValueRef};
use sqlite::{Alter, Transaction};
use std::alloc::{AllocError, Global};

const PUT: &str =
    "INSERT INTO mirror (kind, id, state, moment, body, program) VALUES (?1, ?2, ?3, ?4, ?5, ?6) ON CONFLICT (kind, id) DO UPDATE SET kind = excluded.kind, id = excluded.id, state = excluded.state, moment = excluded.moment, body = excluded.body, program = excluded.program";

const READ_ONE: &str =
    "SELECT kind, id, state, moment, body, program FROM mirror WHERE kind = ?1 AND id = ?2 ORDER BY kind, id";

const READ_OF: &str =
    "SELECT kind, id, state, moment, body, program FROM mirror WHERE kind = ?1 ORDER BY kind, id";

fn columns_of(alloc: Global, mark: &Mark) -> Result<MarkColumns, AllocError>
    ensures same { IfOk result (λ columns. columns_row columns ≡ mark_columns mark.now) }
    ensures valid { OnOk result (IsMark mark.now) }
{
    match mark {
        Mark::Live(moment, body) => Ok(MarkColumns {
            state: 1,
            moment: moment.nanos(),
            body: canonical(alloc, body)?,
        }),
        Mark::Dead => Ok(MarkColumns {
            state: 2,
            moment: 0,
            body: String::new(alloc),
        }),
    }
}

// The program of a live event.
fn program_cell(mark: &Mark) -> ValueRef<'_>
    ensures { bound_value (owned result) ≡ program_cell mark.now }
{
    match mark {
        Mark::Live(_, Body::Event(event)) => event.program.as_str().to_sql(),
        _ => ValueRef::Null,
    }
}

fn put_columns<S: Alter>(
    tx: &mut Transaction<'_, S>,
    key: &MirrorKey,
    mark: &Mark,
    columns: &MarkColumns,
) -> Result<(), Refusal>
    requires same { columns_row columns.now ≡ mark_columns mark.now }
    requires valid { IsMark mark.now }
    ensures lent { LeavesLent S.Store tx.old.conn tx.new.conn result }
    ensures leaves { LeavesKept S.Store tx.old.conn.now tx.new.conn.now (with_mark key.now mark.now) result }
    ensures refused { IfErr result IsOfStore }
    ensures fails { RefusesToPut S.Store tx.old.conn.now tx.new.conn.now PUT.now (mark_row (key.now, mark.now)) result }
{
    run(
        tx,
        PUT,
        &[
            kind_number(key.kind).to_sql(),
            key.id.as_str().to_sql(),
            columns.state.to_sql(),
            number(columns.moment)?,
            (&columns.body).to_sql(),
            program_cell(mark),
        ],
    )
}

/// Puts the mark of a key, in the place of the one that it has.
pub fn put_mark<S: Alter>(
    alloc: Global,
    tx: &mut Transaction<'_, S>,
    key: &MirrorKey,
    mark: &Mark,
) -> Result<(), Refusal>
    ensures lent { LeavesLent S.Store tx.old.conn tx.new.conn result }
    ensures leaves { LeavesKept S.Store tx.old.conn.now tx.new.conn.now (with_mark key.now mark.now) result }
    ensures refused { IfErr result IsOfStore }
    ensures fails { RefusesToPutText S.Store tx.old.conn.now tx.new.conn.now PUT.now (mark_row (key.now, mark.now)) result }
{
    let columns = columns_of(alloc, mark)?;
    put_columns(tx, key, mark, &columns)
}

/// The mark of a key, where something is known of it.
pub fn read_mark<S: Alter>(
    tx: &mut Transaction<'_, S>,
    key: &MirrorKey,
) -> Result<Option<MarkColumns>, Refusal>
    ensures lent { LeavesLent S.Store tx.old.conn tx.new.conn result }
    ensures finds { Finds S.Store tx.old.conn.now tx.new.conn.now (λ kept found. option_map columns_row found ≡ option_map mark_columns (at mirror_cmp key.now kept.mirror)) result }
    ensures refused { IfErr result IsOfStore }
    ensures fails { RefusesToShow S.Store tx.old.conn.now tx.new.conn.now READ_ONE.now (key_row key.now) (CannotReadFirst AreColumns ReadsColumns) result }
{
    let rows = rows_of(
        tx,
        READ_ONE,
        &[kind_number(key.kind).to_sql(), key.id.as_str().to_sql()],
    )?;
    first_in(*rows.allocator(), &rows)
}

/// What is known of a key, read back as the mark that it has.
pub fn read_known<S: Alter>(
    alloc: Global,
    tx: &mut Transaction<'_, S>,
    key: &MirrorKey,
) -> Result<Option<Mark>, Refusal>
    ensures lent { LeavesLent S.Store tx.old.conn tx.new.conn result }
    ensures finds { Finds S.Store tx.old.conn.now tx.new.conn.now (λ kept known. known ≡ at mirror_cmp key.now kept.mirror) result }
    ensures refused { IfErr result IsOfStore }
    ensures fails { RefusesToShow S.Store tx.old.conn.now tx.new.conn.now READ_ONE.now (key_row key.now) (CannotReadFirst (λ mark. ⊤) ReadsMark) result }
{
    first_of(
        alloc,
        tx,
        READ_ONE,
        &[kind_number(key.kind).to_sql(), key.id.as_str().to_sql()],
    )
}

/// What is known of the keys of one kind, in the order of their ids. No row of the other kind is read.
pub fn read_kind<S: Alter>(
    alloc: Global,
    tx: &mut Transaction<'_, S>,
    kind: Kind,
) -> Result<Rows<(MirrorKey, Mark)>, Refusal>
    ensures lent { LeavesLent S.Store tx.old.conn tx.new.conn result }
    ensures finds { Finds S.Store tx.old.conn.now tx.new.conn.now (λ kept marks. marks ≡ filter (λ m. kind_number m.0.kind == kind_number kind) kept.mirror) result }
    ensures refused { IfErr result IsOfStore }
    ensures fails { RefusesToShow S.Store tx.old.conn.now tx.new.conn.now READ_OF.now (number (kind_number kind) ∷ []) (CannotReadAll IsEntry ReadsEntry) result }
{
    all_of(alloc, tx, READ_OF, &[kind_number(kind).to_sql()])
}
