//! The tables of version 1, and how they become those of today.
ghost use Rattle.std.specs.Prelude.{◌≡◌, [], ◌∷◌, ◌++◌, OnOk, IfOk, IfErr};
ghost use Rattle.sqlite.specs.Held.{state};
ghost use Rattle.sqlite.specs.State.{HasCleanDisk};
ghost use Rattle.adr_text.specs.declared.refusal.Refusal.TheVariants.{BadFile};
ghost use Rattle.adr_sql.specs.Contents.{Contents, Holds, rows_of_table, with_table};
ghost use Rattle.adr_sql.specs.Schemas.{no_schema};
ghost use Rattle.adr_sql.specs.Calls.{LeavesLent};
ghost use Rattle.adr_db.specs.Tables.{schema, first_schema};
ghost use Rattle.adr_db.specs.Kept.{Kept, Keeps, nothing_kept};
ghost use Rattle.adr_db.specs.Rows.{meta_row};
ghost use Rattle.adr_db.specs.FirstVersion.{KeepsFirst, first_row};
ghost use Rattle.adr_db.specs.Versions.{KeepsInEither, SayKnown, schema_of_version};
ghost use Rattle.adr_db.specs.declared.meta.Meta.{Meta};
ghost use Rattle.adr_db.specs.declared.version.Version.{Version};
ghost use Rattle.adr_db.specs.Calls.{IsOfStore, IsOneOf};

use crate::meta::{FirstMeta, Meta, READ, write_meta};
use crate::reading::first_in;
use crate::schema::{
    FROZEN, FROZEN_SHARE, HEAD, META, MIRROR, OUTBOX, POLLED, REMOTE, REPORT, REPORT_VALUE,
    RESOURCE, ROLLUP, SHARE, SHOWN, STAMP, SUB, VEN,
};
use crate::statement::{refusal_of, rows_of, run};
use crate::version::{Version, kept_version};
use adr_sql::create_tables;
use adr_text::Refusal;
use sqlite::{Alter, Transaction};

// The numbers of a new node, as version 1 wrote them.
const PUT_FIRST: &str =
    "INSERT INTO meta (k, version, serial, scan, made, sent, given_up, dropped, pending, keys, vens, resources, shares, reports, subs, frozen) VALUES (1, 1, 0, 0, 0, 0, 0, 0, 0, 0, 0, 0, 0, 0, 0, 0) ON CONFLICT (k) DO UPDATE SET k = excluded.k, version = excluded.version, serial = excluded.serial, scan = excluded.scan, made = excluded.made, sent = excluded.sent, given_up = excluded.given_up, dropped = excluded.dropped, pending = excluded.pending, keys = excluded.keys, vens = excluded.vens, resources = excluded.resources, shares = excluded.shares, reports = excluded.reports, subs = excluded.subs, frozen = excluded.frozen";

/// Makes the tables of a new node in an empty database as version 1 made them: their texts are those of today, as long as no
/// later version changes one.
pub fn create_v1<S: Alter>(tx: &mut Transaction<'_, S>) -> Result<(), Refusal>
    ensures lent { LeavesLent S.Store tx.old.conn tx.new.conn result }
    ensures made { HasCleanDisk (state S.Store tx.new.conn.now) → OnOk result (Holds no_schema [] (state S.Store tx.old.conn.now) → KeepsFirst nothing_kept (state S.Store tx.new.conn.now)) }
    ensures refused { IfErr result IsOfStore }
{
    let texts = [
        META,
        MIRROR,
        POLLED,
        VEN,
        RESOURCE,
        SHARE,
        STAMP,
        REPORT,
        REPORT_VALUE,
        SUB,
        REMOTE,
        OUTBOX,
        SHOWN,
        ROLLUP,
        HEAD,
    ];
    match create_tables(tx, &texts) {
        Ok(()) => run(tx, PUT_FIRST, &[]),
        Err(error) => Err(refusal_of(error)),
    }
}

// Makes the tables that version 1 had not, behind those that it had: the first half of `migrate`.
fn create_later<S: Alter>(tx: &mut Transaction<'_, S>) -> Result<(), Refusal>
    ensures lent { LeavesLent S.Store tx.old.conn tx.new.conn result }
    ensures made { HasCleanDisk (state S.Store tx.new.conn.now) → OnOk result ((all : Contents) → Holds first_schema all (state S.Store tx.old.conn.now) → Holds schema (all ++ [] ∷ [] ∷ []) (state S.Store tx.new.conn.now)) }
    ensures refused { IfErr result IsOfStore }
{
    match create_tables(tx, &[FROZEN, FROZEN_SHARE]) {
        Ok(()) => Ok(()),
        Err(error) => Err(refusal_of(error)),
    }
}

/// The numbers of the node, where the tables of today still say version 1.
fn read_first<S: Alter>(tx: &mut Transaction<'_, S>) -> Result<Meta, Refusal>
    ensures lent { LeavesLent S.Store tx.old.conn tx.new.conn result }
    ensures finds { HasCleanDisk (state S.Store tx.new.conn.now) → IfOk result (λ meta. (said : Meta) (all : Contents) → Holds schema all (state S.Store tx.old.conn.now) → rows_of_table all 0 ≡ first_row said ∷ [] → (meta ≡ said) × Holds schema all (state S.Store tx.new.conn.now)) }
    ensures refused { IfErr result IsOfStore }
{
    let rows = rows_of(tx, READ, &[])?;
    let found: Option<FirstMeta> = first_in(*rows.allocator(), &rows)?;
    match found {
        Some(first) => Ok(first.numbers),
        None => Err(Refusal::Store),
    }
}

// The numbers of the node are put again, behind the version of today: the second half of `migrate`.
fn say_today<S: Alter>(tx: &mut Transaction<'_, S>) -> Result<(), Refusal>
    ensures lent { LeavesLent S.Store tx.old.conn tx.new.conn result }
    ensures said { HasCleanDisk (state S.Store tx.new.conn.now) → OnOk result ((said : Meta) (all : Contents) → Holds schema all (state S.Store tx.old.conn.now) → rows_of_table all 0 ≡ first_row said ∷ [] → Holds schema (with_table all 0 (meta_row said ∷ [])) (state S.Store tx.new.conn.now)) }
    ensures refused { IfErr result IsOfStore }
{
    let meta = read_first(tx)?;
    write_meta(tx, &meta)
}

/// Tables of version 1 become those of today, in which nothing is frozen: the two that it had not are made, and the numbers of
/// the node stand behind the version of today. Nothing else is written.
pub fn migrate<S: Alter>(tx: &mut Transaction<'_, S>) -> Result<(), Refusal>
    ensures lent { LeavesLent S.Store tx.old.conn tx.new.conn result }
    ensures migrated { HasCleanDisk (state S.Store tx.new.conn.now) → OnOk result ((kept : Kept) → KeepsFirst kept (state S.Store tx.old.conn.now) → Keeps kept (state S.Store tx.new.conn.now)) }
    ensures refused { IfErr result IsOfStore }
{
    create_later(tx)?;
    say_today(tx)
}

/// Tables that were kept are those of today, with what they held: those of version 1 are migrated, and others stay as they are.
/// Refused with `BadFile` where they say neither version.
pub fn upgrade<S: Alter>(tx: &mut Transaction<'_, S>) -> Result<(), Refusal>
    ensures lent { LeavesLent S.Store tx.old.conn tx.new.conn result }
    ensures upgraded { HasCleanDisk (state S.Store tx.new.conn.now) → OnOk result ((kept : Kept) → KeepsInEither kept (state S.Store tx.old.conn.now) → Keeps kept (state S.Store tx.new.conn.now)) }
    ensures known { HasCleanDisk (state S.Store tx.new.conn.now) → OnOk result ((of : Version) (all : Contents) → Holds (schema_of_version of) all (state S.Store tx.old.conn.now) → SayKnown (rows_of_table all 0)) }
    ensures unknown { HasCleanDisk (state S.Store tx.new.conn.now) → IfErr result (λ refusal. refusal ≡ BadFile → (of : Version) (all : Contents) → Holds (schema_of_version of) all (state S.Store tx.old.conn.now) → ¬ SayKnown (rows_of_table all 0)) }
    ensures listed { IfErr result (IsOneOf (BadFile ∷ [])) }
{
    match kept_version(tx)? {
        Version::First => migrate(tx),
        Version::Second => Ok(()),
    }
}
