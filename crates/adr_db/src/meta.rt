//! The table `meta`: the numbers of the node, in one row.
ghost use Rattle.std.specs.Prelude.{◌≡◌, ◌≤◌, pos, [], ◌∷◌, take, IfOk, IfErr};
ghost use Rattle.sqlite.specs.Order.{column};
ghost use Rattle.sqlite.specs.Values.{bound};
ghost use Rattle.sqlite.specs.declared.types.Value.TheVariants.{Int};
ghost use Rattle.adr_sql.specs.Keys.{cells, with_row};
ghost use Rattle.adr_sql.specs.Contents.{rows_of_table, with_table};
ghost use Rattle.adr_sql.specs.Calls.{LeavesLent, Changes};
ghost use Rattle.adr_db.specs.Tables.{schema};
ghost use Rattle.adr_db.specs.Rows.{meta_row, meta_numbers, counts_row, number};
ghost use Rattle.adr_text.specs.declared.refusal.Refusal.TheVariants.{Store};
ghost use Rattle.adr_db.specs.Refusals.{HasBeyond, RefusesToPut, RefusesToShow, IsMisread, CannotRead};
ghost use Rattle.adr_delivery.specs.Tallies.{most_tally};
ghost use Rattle.adr_db.specs.Admitted.{AreCounts, AreNumbers, ReadsMeta, ReadsVersioned, ReadsFirst};
ghost use Rattle.std.specs.List.{AllZip};
ghost use Rattle.adr_db.specs.Kept.{first_meta, with_meta};
ghost use Rattle.adr_db.specs.Calls.{LeavesKept, Finds, IsOfStore};

use crate::cells::{column, flag_in, number};
use crate::reading::{FromRow, first_in};
use crate::statement::{rows_of, run};
use adr_delivery::{EntryCounts, Tally};
use adr_state::Serial;
use adr_text::Refusal;
use sqlite::types::{ToSql, ValueRef};
use sqlite::{Alter, Row, Transaction};
use std::alloc::Global;

/// The version of these tables. One that is put stands in `PUT`.
pub(crate) const VERSION: u32 = 2;

/// The first one.
pub(crate) const FIRST_VERSION: u32 = 1;

const PUT: &str =
    "INSERT INTO meta (k, version, serial, scan, made, sent, given_up, dropped, pending, keys, vens, resources, shares, reports, subs, frozen) VALUES (1, 2, ?1, ?2, ?3, ?4, ?5, ?6, ?7, ?8, ?9, ?10, ?11, ?12, ?13, ?14) ON CONFLICT (k) DO UPDATE SET k = excluded.k, version = excluded.version, serial = excluded.serial, scan = excluded.scan, made = excluded.made, sent = excluded.sent, given_up = excluded.given_up, dropped = excluded.dropped, pending = excluded.pending, keys = excluded.keys, vens = excluded.vens, resources = excluded.resources, shares = excluded.shares, reports = excluded.reports, subs = excluded.subs, frozen = excluded.frozen";

pub(crate) const READ: &str =
    "SELECT k, version, serial, scan, made, sent, given_up, dropped, pending, keys, vens, resources, shares, reports, subs, frozen FROM meta ORDER BY k";

/// The numbers of the node. None that is kept is above 9,223,372,036,854,775,807.
#[derive(Clone, Copy, PartialEq, Eq)]
pub struct Meta {
    /// The last number that was drawn.
    pub serial: Serial,
    /// Whether a scan is open.
    pub scan: bool,
    /// How many entries of the outbox were made, and what became of them.
    pub counts: EntryCounts,
    /// How many entries wait. To count their rows is to go through all of them.
    pub pending: u64,
    /// How many keys the mirror has. To count its rows is to go through all of them.
    pub keys: u64,
    /// How many vens there are. To count their rows is to go through all of them, as it is of those below.
    pub vens: u64,
    /// How many resources there are.
    pub resources: u64,
    /// How many shares there are.
    pub shares: u64,
    /// How many reports there are.
    pub reports: u64,
    /// How many subscriptions there are.
    pub subs: u64,
    /// How many shares are frozen.
    pub frozen: u64,
}

impl Meta {
    /// Those of a new node.
    pub fn first() -> Meta
        ensures { result ≡ first_meta }
    {
        Meta {
            serial: Serial::new(),
            scan: false,
            counts: EntryCounts::none(),
            pending: 0,
            keys: 0,
            vens: 0,
            resources: 0,
            shares: 0,
            reports: 0,
            subs: 0,
            frozen: 0,
        }
    }
}

// What is put into the row: the parameters of `PUT`.
struct Cells([ValueRef<'static>; 14]);

// The cells of numbers of the node, of which none is above what SQL counts.
fn cells_of(meta: &Meta) -> Result<Cells, Refusal>
    ensures cells { IfOk result (λ cells. bound cells.0 ≡ meta_numbers meta.now) }
    ensures refused { IfErr result (λ refusal. (refusal ≡ Store) × HasBeyond (meta_numbers meta.now)) }
{
    Ok(Cells([
        number(meta.serial.get())?,
        meta.scan.to_sql(),
        number(meta.counts.made.get())?,
        number(meta.counts.sent.get())?,
        number(meta.counts.given_up.get())?,
        number(meta.counts.dropped.get())?,
        number(meta.pending)?,
        number(meta.keys)?,
        number(meta.vens)?,
        number(meta.resources)?,
        number(meta.shares)?,
        number(meta.reports)?,
        number(meta.subs)?,
        number(meta.frozen)?,
    ]))
}

/// Writes the one row.
pub(crate) fn write_meta<S: Alter>(tx: &mut Transaction<'_, S>, meta: &Meta) -> Result<(), Refusal>
    ensures lent { LeavesLent S.Store tx.old.conn tx.new.conn result }
    ensures changes { Changes S.Store tx.old.conn.now tx.new.conn.now schema (λ all. with_table all 0 (with_row 1 (meta_row meta.now) (rows_of_table all 0))) result }
    ensures refused { IfErr result IsOfStore }
    ensures fails { RefusesToPut S.Store tx.old.conn.now tx.new.conn.now PUT.now (meta_numbers meta.now) result }
{
    let Cells(cells) = cells_of(meta)?;
    run(tx, PUT, &cells)
}

/// Puts the numbers of the node in the place of those that are kept.
pub fn put_meta<S: Alter>(tx: &mut Transaction<'_, S>, meta: &Meta) -> Result<(), Refusal>
    ensures lent { LeavesLent S.Store tx.old.conn tx.new.conn result }
    ensures leaves { LeavesKept S.Store tx.old.conn.now tx.new.conn.now (with_meta meta.now) result }
    ensures refused { IfErr result IsOfStore }
    ensures fails { RefusesToPut S.Store tx.old.conn.now tx.new.conn.now PUT.now (meta_numbers meta.now) result }
{
    write_meta(tx, meta)
}

/// A number that has to be this one.
pub(crate) fn expect(row: &Row, at: usize, wanted: u32) -> Result<(), Refusal>
    ensures same { IfOk result (λ _. column row.now at ≡ Int (pos wanted)) }
    ensures refused { IfErr result (IsMisread (λ value. value ≡ Int (pos wanted)) (column row.now at)) }
{
    let found: u32 = column(row, at)?;
    if found != wanted {
        return Err(Refusal::Store);
    }
    Ok(())
}

fn tally_in(row: &Row, at: usize) -> Result<Tally, Refusal>
    ensures tally { IfOk result (λ tally. column row.now at ≡ number tally) }
    ensures refused { IfErr result (CannotRead (λ tally. tally ≤ most_tally) (λ value tally. value ≡ number tally) (column row.now at)) }
{
    Tally::new(column(row, at)?).ok_or(Refusal::Store)
}

// The counts of entries, from the fifth column on.
fn counts_in(row: &Row) -> Result<EntryCounts, Refusal>
    ensures counts { IfOk result (λ counts. counts_row counts ≡ cells 4 4 row.now) }
    ensures refused { IfErr result (CannotRead AreCounts (λ row counts. counts_row counts ≡ cells 4 4 row) row.now) }
{
    Ok(EntryCounts {
        made: tally_in(row, 4)?,
        sent: tally_in(row, 5)?,
        given_up: tally_in(row, 6)?,
        dropped: tally_in(row, 7)?,
    })
}

// The numbers of the node in a row that says this version of the tables.
fn meta_in(row: &Row, version: u32) -> Result<Meta, Refusal>
    ensures reads { IfOk result (ReadsVersioned version row.now) }
    ensures refused { IfErr result (CannotRead AreNumbers (ReadsVersioned version) row.now) }
{
    expect(row, 0, 1)?;
    expect(row, 1, version)?;
    Ok(Meta {
        serial: Serial::at(column(row, 2)?).ok_or(Refusal::Store)?,
        scan: flag_in(row, 3)?,
        counts: counts_in(row)?,
        pending: column(row, 8)?,
        keys: column(row, 9)?,
        vens: column(row, 10)?,
        resources: column(row, 11)?,
        shares: column(row, 12)?,
        reports: column(row, 13)?,
        subs: column(row, 14)?,
        frozen: column(row, 15)?,
    })
}

impl FromRow for Meta {
    ghost reads = { ReadsMeta };

    ghost admits = { AreNumbers };

    fn from_row(_: Global, row: &Row) -> Result<Meta, Refusal> {
        meta_in(row, VERSION)
    }
}

/// The numbers of the node as version 1 of the tables has them: the same, behind another version.
#[derive(Drop)]
pub(crate) struct FirstMeta {
    pub numbers: Meta,
}

impl FromRow for FirstMeta {
    ghost reads = { ReadsFirst };

    ghost admits = { λ first. AreNumbers first.numbers };

    fn from_row(_: Global, row: &Row) -> Result<FirstMeta, Refusal> {
        Ok(FirstMeta {
            numbers: meta_in(row, FIRST_VERSION)?,
        })
    }
}

/// The numbers of the node.
pub fn read_meta<S: Alter>(tx: &mut Transaction<'_, S>) -> Result<Meta, Refusal>
    ensures lent { LeavesLent S.Store tx.old.conn tx.new.conn result }
    ensures finds { Finds S.Store tx.old.conn.now tx.new.conn.now (λ kept meta. meta ≡ kept.meta) result }
    ensures refused { IfErr result IsOfStore }
    ensures fails { RefusesToShow S.Store tx.old.conn.now tx.new.conn.now READ.now [] (CannotRead AreNumbers (λ rows meta. AllZip ReadsMeta (take 1 rows) (meta ∷ []))) result }
{
    let rows = rows_of(tx, READ, &[])?;
    match first_in(*rows.allocator(), &rows)? {
        Some(meta) => Ok(meta),
        None => Err(Refusal::Store),
    }
}
