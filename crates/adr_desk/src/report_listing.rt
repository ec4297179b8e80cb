//! A listing of reports: of all, whose rows are lent one after another, or of those on the resources of a ven, by their numbers.
ghost use Rattle.std.specs.Prelude.{◌≡◌, false, map, take, drop, Some, IfOk, IfErr};
ghost use Rattle.sqlite.specs.Held.{state};
ghost use Rattle.sqlite.specs.State.{HasCleanDisk};
ghost use Rattle.adr_sql.specs.Calls.{LeavesLent};
ghost use Rattle.adr_view.specs.declared.sight.Sight.TheVariants.{All};
ghost use Rattle.adr_db.specs.Kept.{Kept, Keeps};
ghost use Rattle.adr_db.specs.Calls.{IsOfStore};
ghost use Rattle.adr_queries.specs.declared.query.Query.TheVariants as query;
ghost use Rattle.adr_queries.specs.declared.role.Role.TheVariants as role_of;
ghost use Rattle.adr_queries.specs.Listed.{listed_for, IsListed};
ghost use Rattle.adr_queries.specs.Replies.{reply};
ghost use Rattle.adr_report_pages.specs.Columns.{columns_in_sight, wanted_among};
ghost use Rattle.adr_report_pages.specs.Objects.{object_kept};
ghost use Rattle.adr_desk.specs.Steps.{TellsTables, RefusesAs};
ghost use Rattle.adr_desk.specs.Transactions.{IsDropped};

use crate::frame::begin;
use adr_db::ReportColumns;
use adr_db_portfolio::ven_at;
use adr_machine::{Answer, Object, Page, ReportFilter, Role};
use adr_objects::Number;
use adr_report_pages::{every_page, objects_of, own_page};
use adr_text::{ObjectId, Refusal, Rows};
use sqlite::{Alter, Connection, Transaction};
use std::alloc::Global;

// The rows of the page of all, of which no further one is read.
fn rows_of<S: Alter>(
    alloc: Global,
    conn: &mut Connection<S>,
    filter: &ReportFilter,
    part: Page,
) -> Result<Rows<(Number, ReportColumns)>, Refusal>
    requires { conn.old.in_transaction ≡ false }
    ensures finds { HasCleanDisk (state S.Store conn.new) → IfOk result (λ rows. (kept : Kept) → Keeps kept (state S.Store conn.old) → (rows ≡ take part.limit (drop part.skip (wanted_among filter.now (columns_in_sight kept All)))) × Keeps kept (state S.Store conn.new)) }
    ensures refused { IfErr result IsOfStore }
    ensures dropped { IsDropped S.Store conn.old conn.new }
{
    let is_settled = conn.is_autocommit();
    prove!(is_settled);
    every_page(alloc, conn, filter, part)
}

// Each as an object, with its intervals and its stamps.
fn objects_in<S: Alter>(
    alloc: Global,
    conn: &mut Connection<S>,
    rows: Rows<(Number, ReportColumns)>,
) -> Result<Rows<Object>, Refusal>
    requires { conn.old.in_transaction ≡ false }
    ensures finds { HasCleanDisk (state S.Store conn.new) → IfOk result (λ objects. (kept : Kept) → Keeps kept (state S.Store conn.old) → map Some objects ≡ map (object_kept kept) rows) }
    ensures refused { IfErr result IsOfStore }
    ensures dropped { IsDropped S.Store conn.old conn.new }
{
    let mut tx = begin(conn);
    objects_of(alloc, &mut tx, rows)
}

// What the operator is told.
fn every_report<S: Alter>(
    alloc: Global,
    conn: &mut Connection<S>,
    filter: &ReportFilter,
    part: Page,
) -> Result<Answer, Refusal>
    requires { conn.old.in_transaction ≡ false }
    ensures tells { TellsTables (λ held. reply held (query.Reports role_of.Operator filter.now part)) (state S.Store conn.old) (state S.Store conn.new) result }
    ensures refuses { RefusesAs (λ held. reply held (query.Reports role_of.Operator filter.now part)) (state S.Store conn.old) (state S.Store conn.new) result }
    ensures listed { IfErr result (IsListed (Unit {0}) (listed_for (query.Reports role_of.Operator filter.now part))) }
    ensures dropped { IsDropped S.Store conn.old conn.new }
{
    let rows = rows_of(alloc, conn, filter, part)?;
    let objects = objects_in(alloc, conn, rows)?;
    Ok(Answer::List(objects))
}

// What the ven of an id is told, where it is enrolled, and else `Forbidden`.
fn own_in<S: Alter>(
    alloc: Global,
    tx: &mut Transaction<'_, S>,
    id: &ObjectId,
    filter: &ReportFilter,
    part: Page,
) -> Result<Answer, Refusal>
    ensures lent { LeavesLent S.Store tx.old.conn tx.new.conn result }
    ensures tells { TellsTables (λ held. reply held (query.Reports (role_of.Ven id.now) filter.now part)) (state S.Store tx.old.conn.now) (state S.Store tx.new.conn.now) result }
    ensures refuses { RefusesAs (λ held. reply held (query.Reports (role_of.Ven id.now) filter.now part)) (state S.Store tx.old.conn.now) (state S.Store tx.new.conn.now) result }
    ensures listed { IfErr result (IsListed (Unit {0}) (listed_for (query.Reports (role_of.Ven id.now) filter.now part))) }
{
    let Some(ven) = ven_at(alloc, tx, id)? else {
        return Err(Refusal::Forbidden);
    };
    let rows = own_page(alloc, tx, ven, filter, part)?;
    let objects = objects_of(alloc, tx, rows)?;
    Ok(Answer::List(objects))
}

// The same in a transaction that is dropped.
fn own_reports<S: Alter>(
    alloc: Global,
    conn: &mut Connection<S>,
    id: &ObjectId,
    filter: &ReportFilter,
    part: Page,
) -> Result<Answer, Refusal>
    requires { conn.old.in_transaction ≡ false }
    ensures tells { TellsTables (λ held. reply held (query.Reports (role_of.Ven id.now) filter.now part)) (state S.Store conn.old) (state S.Store conn.new) result }
    ensures refuses { RefusesAs (λ held. reply held (query.Reports (role_of.Ven id.now) filter.now part)) (state S.Store conn.old) (state S.Store conn.new) result }
    ensures listed { IfErr result (IsListed (Unit {0}) (listed_for (query.Reports (role_of.Ven id.now) filter.now part))) }
    ensures dropped { IsDropped S.Store conn.old conn.new }
{
    let mut tx = begin(conn);
    own_in(alloc, &mut tx, id, filter, part)
}

/// The reports that a role sees and the filter wants, or `Forbidden`. Their columns are read row by row, as far as the page goes,
/// and then the intervals and the stamps of those that are told; for a ven, of those on its own resources alone. Whatever is
/// begun on the way is dropped.
pub(crate) fn reports<S: Alter>(
    alloc: Global,
    conn: &mut Connection<S>,
    role: &Role,
    filter: &ReportFilter,
    part: Page,
) -> Result<Answer, Refusal>
    requires { conn.old.in_transaction ≡ false }
    ensures tells { TellsTables (λ held. reply held (query.Reports role.now filter.now part)) (state S.Store conn.old) (state S.Store conn.new) result }
    ensures refuses { RefusesAs (λ held. reply held (query.Reports role.now filter.now part)) (state S.Store conn.old) (state S.Store conn.new) result }
    ensures listed { IfErr result (IsListed (Unit {0}) (listed_for (query.Reports role.now filter.now part))) }
    ensures dropped { IsDropped S.Store conn.old conn.new }
{
    match role {
        Role::Operator => every_report(alloc, conn, filter, part),
        Role::Ven(id) => own_reports(alloc, conn, id, filter, part),
        Role::Utility => Err(Refusal::Forbidden),
    }
}
