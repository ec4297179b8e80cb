//! The commit of a command whose edit is made.
ghost use Rattle.std.specs.Prelude.{◌≡◌, ◌⊎◌, IfErr};
ghost use Rattle.adr_text.specs.declared.refusal.Refusal.TheVariants.{Exhausted, OutboxFull};
ghost use Rattle.adr_sql.specs.Calls.{LeavesLent};
ghost use Rattle.adr_db.specs.Calls.{IsOfStore};
ghost use Rattle.adr_commit.specs.Commits.{CommitsTouched, RefusesTouched};

use adr_db::Meta;
use adr_state::Settings;
use adr_text::{Moment, Refusal};
use adr_told::Teller;
use adr_touched::Touched;
use adr_visit::{Visit, visit_events, visit_objects, visit_rollups};
use sqlite::{Alter, Transaction};
use std::alloc::Global;

/// Visits what a command touched: programs, events, reports and roll-ups, each kind in the order of its keys. What tables
/// keep of each is refreshed, with its stamps, and its changes are told and let go before the next. Answers how many changes
/// there were. Refused with `Exhausted` where there are no numbers for all that is told, and then with `OutboxFull` where all
/// of it is more than may wait. The numbers of the node are handed in, and are left as the caller has to put them.
pub fn commit_touched<S: Alter>(
    alloc: Global,
    tx: &mut Transaction<'_, S>,
    settings: &Settings,
    now: Moment,
    meta: &mut Meta,
    touched: &Touched,
) -> Result<u64, Refusal>
    ensures lent { LeavesLent S.Store tx.old.conn tx.new.conn result }
    ensures commits { CommitsTouched S.Store tx.old.conn.now tx.new.conn.now settings.now now touched.now meta.old meta.new result }
    ensures refuses { RefusesTouched S.Store tx.old.conn.now tx.new.conn.now settings.now now touched.now meta.old result }
    ensures listed { IfErr result (λ refusal. IsOfStore refusal ⊎ ((refusal ≡ Exhausted) ⊎ (refusal ≡ OutboxFull))) }
{
    // as many were made as before, which is no more than a count may be
    let _made = meta.counts.made.get();
    let limits = &settings.limits;
    let teller = Teller::new(&settings.client);
    let mut visit = Visit::new(alloc, limits, meta);
    let programs = touched.programs.as_slice();
    visit_objects(alloc, tx, &teller, limits, meta, &mut visit, programs, now)?;
    let events = touched.events.as_slice();
    visit_events(alloc, tx, &teller, limits, meta, &mut visit, events, now)?;
    let reports = touched.reports.as_slice();
    visit_objects(alloc, tx, &teller, limits, meta, &mut visit, reports, now)?;
    let rollups = touched.rollups.as_slice();
    visit_rollups(alloc, tx, &teller, limits, meta, &mut visit, rollups, now)?;
    visit.close()?;
    Ok(visit.changes())
}
