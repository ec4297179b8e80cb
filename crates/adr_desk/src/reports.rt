//! Reports on the tables, by who gives the command, with what each touches. The numbers of the node are handed in, and are
//! left as the caller has to put them.
ghost use Rattle.std.specs.Prelude.{◌≡◌, ℕ, Some, IfSome, IsSomeAnd, IfOk, IfErr};
ghost use Rattle.std.specs.Option.{option_copied};
ghost use Rattle.adr_state.specs.Digits.{number_in};
ghost use Rattle.adr_sql.specs.Calls.{LeavesLent};
ghost use Rattle.adr_db.specs.BaseCalls.{FindsOn};
ghost use Rattle.adr_db.specs.Calls.{IsOfStore};
ghost use Rattle.adr_kept_view.specs.declared.object.ObjectKey.TheVariants as object;
ghost use Rattle.adr_touched.specs.Touched.{StoodAt, CoversReport};
ghost use Rattle.adr_machine.specs.declared.command.Command.TheVariants as command;
ghost use Rattle.adr_machine.specs.Edits.{post_decided, put_decided, delete_decided};
ghost use Rattle.adr_queries.specs.Listed.{IsListed};
ghost use Rattle.adr_machine.specs.Listed.{listed};
ghost use Rattle.adr_desk.specs.Decisions.{CarriesOut, IsAnswered};

use adr_answers::sight_in;
use adr_db::Meta;
use adr_kept_view::OldObject;
use adr_machine::{Outcome, Role};
use adr_objects::{Number, ReportIn};
use adr_reports::{delete, post, put};
use adr_state::{Limits, number_in};
use adr_text::{ObjectId, Refusal};
use adr_touched::{Touched, stood_report, touched_by_report};
use sqlite::{Alter, Transaction};
use std::alloc::{AllocError, Global};

// What stands at the key of the report of an id, where it is one of a report.
fn stood_at<S: Alter>(
    alloc: Global,
    tx: &mut Transaction<'_, S>,
    id: &ObjectId,
) -> Result<Option<OldObject>, Refusal>
    ensures lent { LeavesLent S.Store tx.old.conn tx.new.conn result }
    ensures finds { FindsOn S.Store tx.old.conn.now tx.new.conn.now (λ base stood. (n : ℕ) → number_in 112 id.now ≡ Some n → IsSomeAnd stood (StoodAt (object.Report n) base)) result }
    ensures refused { IfErr result IsOfStore }
{
    match number_in(b'p', id) {
        Some(number) => Ok(Some(stood_report(alloc, tx, number)?)),
        None => Ok(None),
    }
}

// What a report touches of which this stood at its key, where it is put on this event, or goes.
fn touched(
    alloc: Global,
    stood: Option<OldObject>,
    event: Option<&ObjectId>,
) -> Result<Touched, AllocError>
    ensures { IfOk result (λ touched. IfSome stood (λ old. CoversReport old (option_copied event.entry) touched)) }
{
    match stood {
        Some(old) => touched_by_report(alloc, old, event),
        None => Ok(Touched::none(alloc)),
    }
}

/// A new report of who has the role.
pub(crate) fn report_post<S: Alter>(
    alloc: Global,
    tx: &mut Transaction<'_, S>,
    limits: &Limits,
    meta: &mut Meta,
    number: Number,
    role: &Role,
    report: &ReportIn,
) -> Result<(Outcome, Touched), Refusal>
    ensures lent { LeavesLent S.Store tx.old.conn tx.new.conn result }
    ensures carries { CarriesOut S.Store tx.old.conn.now tx.new.conn.now (λ base. post_decided limits.now number role.now report.now base) meta.old meta.new result }
    ensures answered { IfOk result (λ r. IsAnswered (command.ReportPost role.now report.now) r.0) }
    ensures listed { IfErr result (IsListed (Unit {0}) (listed (command.ReportPost role.now report.now))) }
{
    let stood = stood_report(alloc, tx, number)?;
    let sight = sight_in(alloc, tx, role)?;
    let (number, report) = post(alloc, tx, limits, meta, sight, number, report)?;
    let touched = touched_by_report(alloc, stood, Some(&report.body.head.event))?;
    Ok((Outcome::ReportKept(number, report.body), touched))
}

/// The report of an id is replaced by who has the role.
pub(crate) fn report_put<S: Alter>(
    alloc: Global,
    tx: &mut Transaction<'_, S>,
    meta: &mut Meta,
    revision: Number,
    role: &Role,
    id: &ObjectId,
    report: &ReportIn,
) -> Result<(Outcome, Touched), Refusal>
    ensures lent { LeavesLent S.Store tx.old.conn tx.new.conn result }
    ensures carries { CarriesOut S.Store tx.old.conn.now tx.new.conn.now (λ base. put_decided revision role.now id.now report.now base) meta.old meta.new result }
    ensures answered { IfOk result (λ r. IsAnswered (command.ReportPut role.now id.now report.now) r.0) }
    ensures listed { IfErr result (IsListed (Unit {0}) (listed (command.ReportPut role.now id.now report.now))) }
{
    let stood = stood_at(alloc, tx, id)?;
    let sight = sight_in(alloc, tx, role)?;
    let (number, report) = put(alloc, tx, meta, sight, revision, id, report)?;
    let touched = touched(alloc, stood, Some(&report.body.head.event))?;
    Ok((Outcome::ReportKept(number, report.body), touched))
}

/// The report of an id is removed by who has the role.
pub(crate) fn report_delete<S: Alter>(
    alloc: Global,
    tx: &mut Transaction<'_, S>,
    meta: &mut Meta,
    role: &Role,
    id: &ObjectId,
) -> Result<(Outcome, Touched), Refusal>
    ensures lent { LeavesLent S.Store tx.old.conn tx.new.conn result }
    ensures carries { CarriesOut S.Store tx.old.conn.now tx.new.conn.now (λ base. delete_decided role.now id.now base) meta.old meta.new result }
    ensures answered { IfOk result (λ r. IsAnswered (command.ReportDelete role.now id.now) r.0) }
    ensures listed { IfErr result (IsListed (Unit {0}) (listed (command.ReportDelete role.now id.now))) }
{
    let stood = stood_at(alloc, tx, id)?;
    let sight = sight_in(alloc, tx, role)?;
    let (number, report) = delete(alloc, tx, meta, sight, id)?;
    let touched = touched(alloc, stood, None)?;
    Ok((Outcome::ReportGone(number, report.body), touched))
}
