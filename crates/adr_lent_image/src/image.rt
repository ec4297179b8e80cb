//! The whole state, of which each table is read as its rows are lent.
ghost use Rattle.std.specs.Prelude.{IsTrue, ◌≡◌, Some, None, if◌then◌else◌, OnOk, IfErr};
ghost use Rattle.sqlite.specs.Held.{state};
ghost use Rattle.sqlite.specs.State.{HasCleanDisk};
ghost use Rattle.adr_db.specs.Calls.{Finds, IsOfStore};
ghost use Rattle.adr_db.specs.Images.{base_of, outbox_of, image_kept};
ghost use Rattle.adr_lent.specs.Lent.{Stands};

use crate::frozen::{lent_frozen, lent_frozen_shares};
use crate::marks::{lent_marks, lent_polled};
use crate::numbers::lent_meta;
use crate::reports::lent_reports;
use crate::sites::{lent_resources, lent_shares, lent_vens};
use crate::stamps::lent_stamps;
use crate::subs::lent_subs;
use crate::waits::{lent_entries, lent_remotes};
use adr_db::Meta;
use adr_delivery::Outbox;
use adr_state::{Base, Polled, Portfolio, State};
use adr_text::Refusal;
use sqlite::{Alter, Connection};
use std::alloc::Global;

// The keys that were polled, where a scan is open.
fn scan_with(is_open: bool, polled: Polled) -> Option<Polled>
    ensures { result ≡ (if is_open then Some polled else None) }
{
    if is_open { Some(polled) } else { None }
}

/// The vens, resources, shares, reports and subscriptions, and what is frozen.
pub fn lent_portfolio<S: Alter>(
    alloc: Global,
    conn: &mut Connection<S>,
) -> Result<Portfolio, Refusal>
    ensures finds { Finds S.Store conn.old conn.new (λ kept portfolio. portfolio ≡ kept.portfolio) result }
    ensures was_open { HasCleanDisk (state S.Store conn.new) → OnOk result (IsTrue (state S.Store conn.old).is_open) }
    ensures stands { Stands S.Store conn.old conn.new }
    ensures refused { IfErr result IsOfStore }
{
    let vens = lent_vens(alloc, conn)?;
    let resources = lent_resources(alloc, conn)?;
    let shares = lent_shares(alloc, conn)?;
    let reports = lent_reports(alloc, conn)?;
    let subs = lent_subs(alloc, conn)?;
    let frozen = lent_frozen(alloc, conn)?;
    let frozen_shares = lent_frozen_shares(alloc, conn)?;
    Ok(Portfolio {
        vens,
        resources,
        shares,
        reports,
        subs,
        frozen,
        frozen_shares,
    })
}

/// The maps of the base, with the serial and the scan of the numbers of the node, which are handed in.
pub fn lent_base<S: Alter>(
    alloc: Global,
    conn: &mut Connection<S>,
    meta: &Meta,
) -> Result<Base, Refusal>
    ensures finds { Finds S.Store conn.old conn.new (λ kept base. base ≡ base_of meta.now kept) result }
    ensures was_open { HasCleanDisk (state S.Store conn.new) → OnOk result (IsTrue (state S.Store conn.old).is_open) }
    ensures stands { Stands S.Store conn.old conn.new }
    ensures refused { IfErr result IsOfStore }
{
    let mirror = lent_marks(alloc, conn)?;
    let polled = lent_polled(alloc, conn)?;
    let portfolio = lent_portfolio(alloc, conn)?;
    Ok(Base {
        mirror,
        scan: scan_with(meta.scan, polled),
        portfolio,
        serial: meta.serial,
    })
}

/// The entries that wait and the utility's ids of reports, with the counts of the numbers of the node, which are handed in.
pub fn lent_outbox<S: Alter>(
    alloc: Global,
    conn: &mut Connection<S>,
    meta: &Meta,
) -> Result<Outbox, Refusal>
    ensures finds { Finds S.Store conn.old conn.new (λ kept outbox. outbox ≡ outbox_of meta.now kept) result }
    ensures was_open { HasCleanDisk (state S.Store conn.new) → OnOk result (IsTrue (state S.Store conn.old).is_open) }
    ensures stands { Stands S.Store conn.old conn.new }
    ensures refused { IfErr result IsOfStore }
{
    let entries = lent_entries(alloc, conn)?;
    let remotes = lent_remotes(alloc, conn)?;
    Ok(Outbox {
        entries,
        remotes,
        counts: meta.counts,
    })
}

/// All that is kept, as a state. Of each table one row is in memory at a time beside what was made of those before it, and the
/// database is as it was.
pub fn image_of<S: Alter>(alloc: Global, conn: &mut Connection<S>) -> Result<State, Refusal>
    ensures finds { Finds S.Store conn.old conn.new (λ kept image. image ≡ image_kept kept) result }
    ensures was_open { HasCleanDisk (state S.Store conn.new) → OnOk result (IsTrue (state S.Store conn.old).is_open) }
    ensures stands { Stands S.Store conn.old conn.new }
    ensures refused { IfErr result IsOfStore }
{
    let meta = lent_meta(alloc, conn)?;
    let base = lent_base(alloc, conn, &meta)?;
    let stamps = lent_stamps(alloc, conn)?;
    let outbox = lent_outbox(alloc, conn, &meta)?;
    Ok(State {
        base,
        stamps,
        outbox,
    })
}
