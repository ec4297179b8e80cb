//! A query on the tables, which changes nothing.
ghost use Rattle.std.specs.Prelude.{◌≡◌, false, IfOk, IfErr};
ghost use Rattle.sqlite.specs.Held.{state};
ghost use Rattle.adr_sql.specs.Calls.{LeavesLent};
ghost use Rattle.adr_queries.specs.declared.query.Query.TheVariants as query;
ghost use Rattle.adr_queries.specs.Listed.{listed_for, IsListed};
ghost use Rattle.adr_queries.specs.Replies.{reply};
ghost use Rattle.adr_desk.specs.Asking.{is_lent};
ghost use Rattle.adr_desk.specs.Steps.{TellsTables, RefusesAs};
ghost use Rattle.adr_desk.specs.Transactions.{IsDropped};

use crate::frame::begin;
use crate::listing::page;
use crate::report_listing::reports;
use crate::scans::first_missed;
use crate::site_listing::{subs, vens};
use crate::totals::counted;
use adr_answers::{frozen, program, programs, report, resource, shares, sight_in, sub, ven};
use adr_machine::{Answer, Query, Role, is_operator, rollup_told};
use adr_pages::event;
use adr_site_pages::resources;
use adr_text::{ObjectId, Refusal};
use adr_upkeep::rollup;
use sqlite::{Alter, Connection, Transaction};
use std::alloc::{AllocError, Global};

/// The event of an id, by its own row.
fn one_event<S: Alter>(
    alloc: Global,
    tx: &mut Transaction<'_, S>,
    role: &Role,
    id: &ObjectId,
) -> Result<Answer, Refusal>
    ensures lent { LeavesLent S.Store tx.old.conn tx.new.conn result }
    ensures tells { TellsTables (λ held. reply held (query.Event role.now id.now)) (state S.Store tx.old.conn.now) (state S.Store tx.new.conn.now) result }
    ensures refuses { RefusesAs (λ held. reply held (query.Event role.now id.now)) (state S.Store tx.old.conn.now) (state S.Store tx.new.conn.now) result }
    ensures listed { IfErr result (IsListed (Unit {0}) (listed_for (query.Event role.now id.now))) }
{
    let sight = sight_in(alloc, tx, role)?;
    event(alloc, tx, sight, id)
}

// The same id again.
fn copy_of(id: &ObjectId) -> Result<ObjectId, AllocError>
    ensures { IfOk result (λ copy. copy ≡ id.now) }
{
    id.clone()
}

/// The roll-up of an upstream event, by the reports on it alone; `Forbidden` for another role than the operator,
/// and `NotFound` where there is none.
fn rolled_up<S: Alter>(
    alloc: Global,
    tx: &mut Transaction<'_, S>,
    role: &Role,
    event: &ObjectId,
) -> Result<Answer, Refusal>
    ensures lent { LeavesLent S.Store tx.old.conn tx.new.conn result }
    ensures tells { TellsTables (λ held. reply held (query.Rollup role.now event.now)) (state S.Store tx.old.conn.now) (state S.Store tx.new.conn.now) result }
    ensures refuses { RefusesAs (λ held. reply held (query.Rollup role.now event.now)) (state S.Store tx.old.conn.now) (state S.Store tx.new.conn.now) result }
    ensures listed { IfErr result (IsListed (Unit {0}) (listed_for (query.Rollup role.now event.now))) }
{
    Refusal::Forbidden.unless(is_operator(role))?;
    let found = rollup(alloc, tx, event)?;
    rollup_told(copy_of(event)?, found)
}

/// The reply to a query, on a lent transaction, by the rows of what is asked for.
fn asked<S: Alter>(
    alloc: Global,
    tx: &mut Transaction<'_, S>,
    query: &Query,
) -> Result<Answer, Refusal>
    requires { is_lent query.now ≡ false }
    ensures lent { LeavesLent S.Store tx.old.conn tx.new.conn result }
    ensures tells { TellsTables (λ held. reply held query.now) (state S.Store tx.old.conn.now) (state S.Store tx.new.conn.now) result }
    ensures refuses { RefusesAs (λ held. reply held query.now) (state S.Store tx.old.conn.now) (state S.Store tx.new.conn.now) result }
    ensures listed { IfErr result (IsListed (Unit {0}) (listed_for query.now)) }
{
    match query {
        Query::Programs { role, page } => programs(alloc, tx, role, *page),
        Query::Program { role, id } => program(alloc, tx, role, id),
        Query::Event { role, id } => one_event(alloc, tx, role, id),
        Query::Ven { role, id } => ven(alloc, tx, role, id),
        Query::Resources { role, ven, page } => resources(alloc, tx, role, ven, *page),
        Query::Resource { role, ven, id } => resource(alloc, tx, role, ven, id),
        Query::Shares { role, program } => shares(alloc, tx, role, program),
        Query::Frozen { role, event } => frozen(alloc, tx, role, event),
        Query::Report { role, id } => report(alloc, tx, role, id),
        Query::Rollup { role, event } => rolled_up(alloc, tx, role, event),
        Query::Sub { role, id } => sub(alloc, tx, role, id),
        Query::Outbox { role } => counted(tx, role),
        Query::Events { .. }
        | Query::Vens { .. }
        | Query::Reports { .. }
        | Query::Subs { .. }
        | Query::Probes { .. } => unreachable!(),
    }
}

// The same in a transaction that is dropped and not committed, so a crash leaves what it could before.
fn asked_at_once<S: Alter>(
    alloc: Global,
    conn: &mut Connection<S>,
    query: &Query,
) -> Result<Answer, Refusal>
    requires settled { conn.old.in_transaction ≡ false }
    requires at_once { is_lent query.now ≡ false }
    ensures tells { TellsTables (λ held. reply held query.now) (state S.Store conn.old) (state S.Store conn.new) result }
    ensures refuses { RefusesAs (λ held. reply held query.now) (state S.Store conn.old) (state S.Store conn.new) result }
    ensures listed { IfErr result (IsListed (Unit {0}) (listed_for query.now)) }
    ensures dropped { IsDropped S.Store conn.old conn.new }
{
    let mut tx = begin(conn);
    asked(alloc, &mut tx, query)
}

/// The reply to a query. Listings of events, of vens, of reports and of subscriptions and the keys that a scan missed are told as
/// their rows are lent, all else in a transaction. Whatever transaction is begun for it is dropped, so a crash leaves what it could before.
pub(crate) fn ask_in<S: Alter>(
    alloc: Global,
    conn: &mut Connection<S>,
    query: &Query,
) -> Result<Answer, Refusal>
    requires { conn.old.in_transaction ≡ false }
    ensures tells { TellsTables (λ held. reply held query.now) (state S.Store conn.old) (state S.Store conn.new) result }
    ensures refuses { RefusesAs (λ held. reply held query.now) (state S.Store conn.old) (state S.Store conn.new) result }
    ensures listed { IfErr result (IsListed (Unit {0}) (listed_for query.now)) }
    ensures dropped { IsDropped S.Store conn.old conn.new }
{
    match query {
        Query::Events {
            role,
            filter,
            page: part,
        } => page(alloc, conn, role, filter, *part),
        Query::Vens { role, page } => vens(alloc, conn, role, *page),
        Query::Reports { role, filter, page } => reports(alloc, conn, role, filter, *page),
        Query::Subs { role, filter, page } => subs(alloc, conn, role, filter, *page),
        Query::Probes { limit } => first_missed(alloc, conn, *limit),
        _ => asked_at_once(alloc, conn, query),
    }
}
