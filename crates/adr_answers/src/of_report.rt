//! A report, by its own row, its stamps, and the row of the resource that it is on.
ghost use Rattle.std.specs.Prelude.{◌≡◌, ◌==◌, false, [], ◌∷◌, option_map, option_and_then, IfOk, IfErr};
ghost use Rattle.std.specs.Option.{option_map_or};
ghost use Rattle.adr_text.specs.declared.refusal.Refusal.TheVariants.{Forbidden, NotFound};
ghost use Rattle.adr_state.specs.declared.keys.ViewKey.TheVariants as key;
ghost use Rattle.adr_view.specs.declared.view.Content.TheVariants as content;
ghost use Rattle.adr_view.specs.Reports.{report_with_id};
ghost use Rattle.adr_queries.specs.Shown.{sees_owned, object_of, object_at, told};
ghost use Rattle.adr_queries.specs.Reported.{report_told, report_reply};
ghost use Rattle.adr_sql.specs.Calls.{LeavesLent};
ghost use Rattle.adr_db.specs.Calls.{Finds, IsOfStore, IsOneOf};
ghost use Rattle.adr_db.specs.BaseCalls.{Refuses};
ghost use Rattle.adr_db.specs.Images.{image_kept};
ghost use Rattle.adr_answers.specs.Calls.{FindsOr};
ghost use Rattle.adr_answers.specs.Told.{body_told};

use crate::sight::sight_in;
use crate::told::told_of;
use adr_db_portfolio::{read_resource, report_with_id};
use adr_db_state::read_stamps_of;
use adr_objects::{Number, ReportBody, ReportObject, Stamps};
use adr_queries::{Answer, Object, Role};
use adr_state::{Resource, ViewKey};
use adr_text::{ObjectId, Refusal};
use adr_view::Sight;
use sqlite::{Alter, Transaction};
use std::alloc::{AllocError, Global};

// Whether a resource that was looked for is of the ven of a number.
fn is_of(ven: Number, resource: Option<Resource>) -> bool
    ensures { result ≡ option_map_or (λ owner. owner == ven) (option_map (λ r. r.ven) resource) false }
{
    match resource {
        Some(resource) => resource.ven == ven,
        None => false,
    }
}

// Whether what is reported of the resource of a number is in sight. Where all is, nothing is read to find out.
fn sees_owned<S: Alter>(
    alloc: Global,
    tx: &mut Transaction<'_, S>,
    sight: Sight,
    number: Number,
) -> Result<bool, Refusal>
    ensures lent { LeavesLent S.Store tx.old.conn tx.new.conn result }
    ensures finds { Finds S.Store tx.old.conn.now tx.new.conn.now (λ kept sees. sees ≡ sees_owned (image_kept kept).base sight number) result }
    ensures refused { IfErr result IsOfStore }
{
    let Sight::Of(ven) = sight else {
        return Ok(true);
    };
    let resource = read_resource(alloc, tx, number)?;
    Ok(is_of(ven, resource))
}

// What a report says, with the stamps of its key, where it has some.
fn report_object(number: Number, body: ReportBody, stamps: Option<Stamps>) -> Option<Object>
    ensures { result ≡ option_and_then (object_of (key.Report number) (content.Report body)) stamps }
{
    match stamps {
        Some(stamps) => Some(Object::Report(ReportObject {
            number,
            body,
            stamps,
        })),
        None => None,
    }
}

// What a report says, once more.
fn copy_of(body: &ReportBody) -> Result<ReportBody, AllocError>
    ensures { IfOk result (λ copy. copy ≡ body.now) }
{
    body.clone()
}

// A report with its stamps, which are read by its key.
fn stamped<S: Alter>(
    tx: &mut Transaction<'_, S>,
    number: Number,
    body: &ReportBody,
) -> Result<Answer, Refusal>
    ensures lent { LeavesLent S.Store tx.old.conn tx.new.conn result }
    ensures finds { FindsOr S.Store tx.old.conn.now tx.new.conn.now (λ kept. told (object_at kept.stamps (key.Report number, content.Report body.now))) result }
    ensures refuses { Refuses S.Store tx.old.conn.now tx.new.conn.now (λ kept. told (object_at kept.stamps (key.Report number, content.Report body.now))) result }
    ensures listed { IfErr result (IsOneOf (Forbidden ∷ NotFound ∷ [])) }
{
    let stamps = read_stamps_of(tx, &ViewKey::Report(number))?;
    told_of(report_object(number, copy_of(body)?, stamps))
}

// What a report says that was found, where who sees this much sees it.
fn body_told<S: Alter>(
    alloc: Global,
    tx: &mut Transaction<'_, S>,
    sight: Sight,
    number: Number,
    body: &ReportBody,
) -> Result<Answer, Refusal>
    ensures lent { LeavesLent S.Store tx.old.conn tx.new.conn result }
    ensures finds { FindsOr S.Store tx.old.conn.now tx.new.conn.now (λ kept. body_told (image_kept kept) sight number body.now) result }
    ensures refuses { Refuses S.Store tx.old.conn.now tx.new.conn.now (λ kept. body_told (image_kept kept) sight number body.now) result }
    ensures listed { IfErr result (IsOneOf (Forbidden ∷ NotFound ∷ [])) }
{
    let sees = sees_owned(alloc, tx, sight, body.head.resource)?;
    if !sees {
        return Err(Refusal::Forbidden);
    }
    stamped(tx, number, body)
}

// The report of an id, by who sees this much.
fn report_seen<S: Alter>(
    alloc: Global,
    tx: &mut Transaction<'_, S>,
    sight: Sight,
    id: &ObjectId,
) -> Result<Answer, Refusal>
    ensures lent { LeavesLent S.Store tx.old.conn tx.new.conn result }
    ensures finds { FindsOr S.Store tx.old.conn.now tx.new.conn.now (λ kept. report_told (image_kept kept) sight (report_with_id id.now kept.portfolio)) result }
    ensures refuses { Refuses S.Store tx.old.conn.now tx.new.conn.now (λ kept. report_told (image_kept kept) sight (report_with_id id.now kept.portfolio)) result }
    ensures listed { IfErr result (IsOneOf (Forbidden ∷ NotFound ∷ [])) }
{
    let found = report_with_id(alloc, tx, id)?;
    match found {
        Some(row) => body_told(alloc, tx, sight, row.0, &row.1.body),
        None => Err(Refusal::NotFound),
    }
}

/// The report of an id; `NotFound` where it isn't there, `Forbidden` where it is on another ven's resource. Its stamps
/// are read only where it is answered.
pub fn report<S: Alter>(
    alloc: Global,
    tx: &mut Transaction<'_, S>,
    role: &Role,
    id: &ObjectId,
) -> Result<Answer, Refusal>
    ensures lent { LeavesLent S.Store tx.old.conn tx.new.conn result }
    ensures finds { FindsOr S.Store tx.old.conn.now tx.new.conn.now (λ kept. report_reply (image_kept kept) role.now id.now) result }
    ensures refuses { Refuses S.Store tx.old.conn.now tx.new.conn.now (λ kept. report_reply (image_kept kept) role.now id.now) result }
    ensures listed { IfErr result (IsOneOf (Forbidden ∷ NotFound ∷ [])) }
{
    let sight = sight_in(alloc, tx, role)?;
    report_seen(alloc, tx, sight, id)
}
