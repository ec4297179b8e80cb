//! Every row of the tables that keep the state is read, as a file is opened: a row that is none of the node's is found then and not
//! later. One row is in memory at a time. What `head`, `shown` and `rollup` hold follows from the others, and is not read here.
ghost use Rattle.std.specs.Prelude.{◌≡◌, false, OnOk, IfErr};
ghost use Rattle.sqlite.specs.Held.{state};
ghost use Rattle.sqlite.specs.State.{HasCleanDisk};
ghost use Rattle.adr_db.specs.Admitted.{ReadsMeta, ReadsEntry, ReadsKey, ReadsVenEntry, ReadsResourceEntry, ReadsShare, ReadsReportEntry, ReadsSubEntry, ReadsId, ReadsFrozenShare, ReadsStamped, ReadsWaitingEntry, ReadsRemote};
ghost use Rattle.adr_db.specs.Calls.{IsOfStore};
ghost use Rattle.adr_lent.specs.Lent.{Stands};
ghost use Rattle.adr_lent_image.specs.Gathered.{ReadsEach};
ghost use Rattle.adr_lent_image.specs.Selected.{rows_of_meta, rows_of_marks, rows_of_polled, rows_of_vens, rows_of_resources, rows_of_shares, rows_of_intervals, rows_of_reports, rows_of_subs, rows_of_frozen, rows_of_frozen_shares, rows_of_stamps, rows_of_entries, rows_of_remotes};
ghost use Rattle.adr_desk.specs.Inspected.{ReadsReportInterval, ReadsPortfolio, ReadsOutbox, ReadsTables};
ghost use Rattle.adr_desk.specs.Transactions.{IsDropped};

use adr_db::statement::refusal_of;
use adr_db::{Meta, RemoteRow, ReportColumns};
use adr_delivery::Entry;
use adr_lent::{lend_reports, lend_subs, lend_vens};
use adr_lent_image::{
    lend_entries, lend_frozen, lend_frozen_shares, lend_intervals, lend_marks, lend_meta,
    lend_polled, lend_remotes, lend_resources, lend_shares, lend_stamps, read_each,
};
use adr_objects::{Number, Stamps, UsageInterval};
use adr_state::{FrozenKey, Mark, MirrorKey, Resource, ShareKey, Ven, ViewKey, Weight};
use adr_subscription::Sub;
use adr_text::{ObjectId, Refusal};
use sqlite::{Alter, Connection};
use std::alloc::Global;

// Reads each row that is lent as a value, and lets it go before the next one is lent.
macro_rules! read_rows {
    ($lent:expr, $row:ty, $alloc:expr) => {{
        let mut rows = match $lent {
            Ok(rows) => rows,
            Err(error) => return Err(refusal_of(error)),
        };
        read_each::<$row, S>($alloc, &mut rows)
    }};
}

// Reads the numbers of the node.
fn read_meta<S: Alter>(alloc: Global, conn: &mut Connection<S>) -> Result<(), Refusal>
    ensures reads { HasCleanDisk (state S.Store conn.new) → OnOk result (ReadsEach S.Store rows_of_meta ReadsMeta conn.old (state S.Store conn.new)) }
    ensures stands { Stands S.Store conn.old conn.new }
    ensures refused { IfErr result IsOfStore }
{
    read_rows!(lend_meta(conn), Meta, alloc)
}

// Reads what is known of upstream keys.
fn read_marks<S: Alter>(alloc: Global, conn: &mut Connection<S>) -> Result<(), Refusal>
    ensures reads { HasCleanDisk (state S.Store conn.new) → OnOk result (ReadsEach S.Store rows_of_marks ReadsEntry conn.old (state S.Store conn.new)) }
    ensures stands { Stands S.Store conn.old conn.new }
    ensures refused { IfErr result IsOfStore }
{
    read_rows!(lend_marks(conn), (MirrorKey, Mark), alloc)
}

// Reads the keys that were polled.
fn read_polled<S: Alter>(alloc: Global, conn: &mut Connection<S>) -> Result<(), Refusal>
    ensures reads { HasCleanDisk (state S.Store conn.new) → OnOk result (ReadsEach S.Store rows_of_polled ReadsKey conn.old (state S.Store conn.new)) }
    ensures stands { Stands S.Store conn.old conn.new }
    ensures refused { IfErr result IsOfStore }
{
    read_rows!(lend_polled(conn), MirrorKey, alloc)
}

// Reads vens.
fn read_vens<S: Alter>(alloc: Global, conn: &mut Connection<S>) -> Result<(), Refusal>
    ensures reads { HasCleanDisk (state S.Store conn.new) → OnOk result (ReadsEach S.Store rows_of_vens ReadsVenEntry conn.old (state S.Store conn.new)) }
    ensures stands { Stands S.Store conn.old conn.new }
    ensures refused { IfErr result IsOfStore }
{
    read_rows!(lend_vens(conn), (Number, Ven), alloc)
}

// Reads resources.
fn read_resources<S: Alter>(alloc: Global, conn: &mut Connection<S>) -> Result<(), Refusal>
    ensures reads { HasCleanDisk (state S.Store conn.new) → OnOk result (ReadsEach S.Store rows_of_resources ReadsResourceEntry conn.old (state S.Store conn.new)) }
    ensures stands { Stands S.Store conn.old conn.new }
    ensures refused { IfErr result IsOfStore }
{
    read_rows!(lend_resources(conn), (Number, Resource), alloc)
}

// Reads shares.
fn read_shares<S: Alter>(alloc: Global, conn: &mut Connection<S>) -> Result<(), Refusal>
    ensures reads { HasCleanDisk (state S.Store conn.new) → OnOk result (ReadsEach S.Store rows_of_shares ReadsShare conn.old (state S.Store conn.new)) }
    ensures stands { Stands S.Store conn.old conn.new }
    ensures refused { IfErr result IsOfStore }
{
    read_rows!(lend_shares(conn), (ShareKey, Weight), alloc)
}

// Reads the intervals of reports.
fn read_intervals<S: Alter>(alloc: Global, conn: &mut Connection<S>) -> Result<(), Refusal>
    ensures reads { HasCleanDisk (state S.Store conn.new) → OnOk result (ReadsEach S.Store rows_of_intervals ReadsReportInterval conn.old (state S.Store conn.new)) }
    ensures stands { Stands S.Store conn.old conn.new }
    ensures refused { IfErr result IsOfStore }
{
    read_rows!(lend_intervals(conn), (Number, UsageInterval), alloc)
}

// Reads reports.
fn read_reports<S: Alter>(alloc: Global, conn: &mut Connection<S>) -> Result<(), Refusal>
    ensures reads { HasCleanDisk (state S.Store conn.new) → OnOk result (ReadsEach S.Store rows_of_reports ReadsReportEntry conn.old (state S.Store conn.new)) }
    ensures stands { Stands S.Store conn.old conn.new }
    ensures refused { IfErr result IsOfStore }
{
    read_rows!(lend_reports(conn), (Number, ReportColumns), alloc)
}

// Reads subscriptions.
fn read_subs<S: Alter>(alloc: Global, conn: &mut Connection<S>) -> Result<(), Refusal>
    ensures reads { HasCleanDisk (state S.Store conn.new) → OnOk result (ReadsEach S.Store rows_of_subs ReadsSubEntry conn.old (state S.Store conn.new)) }
    ensures stands { Stands S.Store conn.old conn.new }
    ensures refused { IfErr result IsOfStore }
{
    read_rows!(lend_subs(conn), (Number, Sub), alloc)
}

// Reads frozen events.
fn read_frozen<S: Alter>(alloc: Global, conn: &mut Connection<S>) -> Result<(), Refusal>
    ensures reads { HasCleanDisk (state S.Store conn.new) → OnOk result (ReadsEach S.Store rows_of_frozen ReadsId conn.old (state S.Store conn.new)) }
    ensures stands { Stands S.Store conn.old conn.new }
    ensures refused { IfErr result IsOfStore }
{
    read_rows!(lend_frozen(conn), ObjectId, alloc)
}

// Reads frozen shares.
fn read_frozen_shares<S: Alter>(alloc: Global, conn: &mut Connection<S>) -> Result<(), Refusal>
    ensures reads { HasCleanDisk (state S.Store conn.new) → OnOk result (ReadsEach S.Store rows_of_frozen_shares ReadsFrozenShare conn.old (state S.Store conn.new)) }
    ensures stands { Stands S.Store conn.old conn.new }
    ensures refused { IfErr result IsOfStore }
{
    read_rows!(lend_frozen_shares(conn), (FrozenKey, Weight), alloc)
}

// Reads stamps.
fn read_stamps<S: Alter>(alloc: Global, conn: &mut Connection<S>) -> Result<(), Refusal>
    ensures reads { HasCleanDisk (state S.Store conn.new) → OnOk result (ReadsEach S.Store rows_of_stamps ReadsStamped conn.old (state S.Store conn.new)) }
    ensures stands { Stands S.Store conn.old conn.new }
    ensures refused { IfErr result IsOfStore }
{
    read_rows!(lend_stamps(conn), (ViewKey, Stamps), alloc)
}

// Reads the entries that wait.
fn read_entries<S: Alter>(alloc: Global, conn: &mut Connection<S>) -> Result<(), Refusal>
    ensures reads { HasCleanDisk (state S.Store conn.new) → OnOk result (ReadsEach S.Store rows_of_entries ReadsWaitingEntry conn.old (state S.Store conn.new)) }
    ensures stands { Stands S.Store conn.old conn.new }
    ensures refused { IfErr result IsOfStore }
{
    read_rows!(lend_entries(conn), (Number, Entry), alloc)
}

// Reads the utility's ids of reports.
fn read_remotes<S: Alter>(alloc: Global, conn: &mut Connection<S>) -> Result<(), Refusal>
    ensures reads { HasCleanDisk (state S.Store conn.new) → OnOk result (ReadsEach S.Store rows_of_remotes ReadsRemote conn.old (state S.Store conn.new)) }
    ensures stands { Stands S.Store conn.old conn.new }
    ensures refused { IfErr result IsOfStore }
{
    read_rows!(lend_remotes(conn), RemoteRow, alloc)
}

// Reads vens, resources, shares, reports, subscriptions, and what is frozen.
fn read_portfolio<S: Alter>(alloc: Global, conn: &mut Connection<S>) -> Result<(), Refusal>
    ensures reads { HasCleanDisk (state S.Store conn.new) → OnOk result (ReadsPortfolio S.Store conn.old (state S.Store conn.new)) }
    ensures stands { Stands S.Store conn.old conn.new }
    ensures refused { IfErr result IsOfStore }
{
    read_vens(alloc, conn)?;
    read_resources(alloc, conn)?;
    read_shares(alloc, conn)?;
    read_intervals(alloc, conn)?;
    read_reports(alloc, conn)?;
    read_subs(alloc, conn)?;
    read_frozen(alloc, conn)?;
    read_frozen_shares(alloc, conn)
}

// Reads stamps, entries that wait and the utility's ids.
fn read_outbox<S: Alter>(alloc: Global, conn: &mut Connection<S>) -> Result<(), Refusal>
    ensures reads { HasCleanDisk (state S.Store conn.new) → OnOk result (ReadsOutbox S.Store conn.old (state S.Store conn.new)) }
    ensures stands { Stands S.Store conn.old conn.new }
    ensures refused { IfErr result IsOfStore }
{
    read_stamps(alloc, conn)?;
    read_entries(alloc, conn)?;
    read_remotes(alloc, conn)
}

// Reads every table that keeps the state.
fn read_tables<S: Alter>(alloc: Global, conn: &mut Connection<S>) -> Result<(), Refusal>
    ensures reads { HasCleanDisk (state S.Store conn.new) → OnOk result (ReadsTables S.Store conn.old (state S.Store conn.new)) }
    ensures stands { Stands S.Store conn.old conn.new }
    ensures refused { IfErr result IsOfStore }
{
    read_meta(alloc, conn)?;
    read_marks(alloc, conn)?;
    read_polled(alloc, conn)?;
    read_portfolio(alloc, conn)?;
    read_outbox(alloc, conn)
}

/// Reads every row of each table that keeps the state, each alone. A row that reads as none of the node's is the store's refusal:
/// where it is Ok, each row that the query of a table showed reads. Nothing is written, so a crash leaves what it could before.
pub(crate) fn inspect_in<S: Alter>(alloc: Global, conn: &mut Connection<S>) -> Result<(), Refusal>
    requires { conn.old.in_transaction ≡ false }
    ensures reads { HasCleanDisk (state S.Store conn.new) → OnOk result (ReadsTables S.Store conn.old (state S.Store conn.new)) }
    ensures dropped { IsDropped S.Store conn.old conn.new }
    ensures refused { IfErr result IsOfStore }
{
    let is_settled = conn.is_autocommit();
    prove!(is_settled);
    read_tables(alloc, conn)
}
