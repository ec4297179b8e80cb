//! Listings of vens and of subscriptions: of all, whose rows are lent one after another, or of those of a ven, by their numbers.
ghost use Rattle.std.specs.Prelude.{◌≡◌, false, take, drop, IfOk, IfErr};
ghost use Rattle.sqlite.specs.Held.{state};
ghost use Rattle.sqlite.specs.State.{HasCleanDisk};
ghost use Rattle.adr_sql.specs.Calls.{LeavesLent};
ghost use Rattle.adr_db.specs.Kept.{Kept, Keeps};
ghost use Rattle.adr_db.specs.Calls.{IsOfStore};
ghost use Rattle.adr_queries.specs.declared.query.Query.TheVariants as query;
ghost use Rattle.adr_queries.specs.declared.role.Role.TheVariants as role_of;
ghost use Rattle.adr_queries.specs.Listed.{listed_for, IsListed};
ghost use Rattle.adr_queries.specs.Replies.{reply};
ghost use Rattle.adr_site_pages.specs.Sites.{wanted_among};
ghost use Rattle.adr_desk.specs.Steps.{TellsTables, RefusesAs};
ghost use Rattle.adr_desk.specs.Transactions.{IsDropped};

use crate::frame::begin;
use adr_machine::{Answer, Page, ReportFilter, Role};
use adr_objects::Number;
use adr_site_pages::{objects_of, own_subs, own_vens, subs_page, vens_page};
use adr_state::Ven;
use adr_subscription::Sub;
use adr_text::{ObjectId, Refusal, Rows};
use sqlite::{Alter, Connection, Transaction};
use std::alloc::Global;

// ---- vens

// The rows of the page of all vens, of which no further one is read.
fn vens_of<S: Alter>(
    alloc: Global,
    conn: &mut Connection<S>,
    part: Page,
) -> Result<Rows<(Number, Ven)>, Refusal>
    requires { conn.old.in_transaction ≡ false }
    ensures finds { HasCleanDisk (state S.Store conn.new) → IfOk result (λ rows. (kept : Kept) → Keeps kept (state S.Store conn.old) → (rows ≡ take part.limit (drop part.skip kept.portfolio.vens)) × Keeps kept (state S.Store conn.new)) }
    ensures refused { IfErr result IsOfStore }
    ensures dropped { IsDropped S.Store conn.old conn.new }
{
    let is_settled = conn.is_autocommit();
    prove!(is_settled);
    vens_page(alloc, conn, part)
}

// What the operator is told of vens.
fn every_ven<S: Alter>(
    alloc: Global,
    conn: &mut Connection<S>,
    part: Page,
) -> Result<Answer, Refusal>
    requires { conn.old.in_transaction ≡ false }
    ensures tells { TellsTables (λ held. reply held (query.Vens role_of.Operator part)) (state S.Store conn.old) (state S.Store conn.new) result }
    ensures refuses { RefusesAs (λ held. reply held (query.Vens role_of.Operator part)) (state S.Store conn.old) (state S.Store conn.new) result }
    ensures listed { IfErr result (IsListed (Unit {0}) (listed_for (query.Vens role_of.Operator part))) }
    ensures dropped { IsDropped S.Store conn.old conn.new }
{
    let rows = vens_of(alloc, conn, part)?;
    Ok(Answer::List(objects_of(alloc, rows)?))
}

// What the ven of an id is told of vens, where it is enrolled, and else `Forbidden`.
fn vens_in<S: Alter>(
    alloc: Global,
    tx: &mut Transaction<'_, S>,
    id: &ObjectId,
    part: Page,
) -> Result<Answer, Refusal>
    ensures lent { LeavesLent S.Store tx.old.conn tx.new.conn result }
    ensures tells { TellsTables (λ held. reply held (query.Vens (role_of.Ven id.now) part)) (state S.Store tx.old.conn.now) (state S.Store tx.new.conn.now) result }
    ensures refuses { RefusesAs (λ held. reply held (query.Vens (role_of.Ven id.now) part)) (state S.Store tx.old.conn.now) (state S.Store tx.new.conn.now) result }
    ensures listed { IfErr result (IsListed (Unit {0}) (listed_for (query.Vens (role_of.Ven id.now) part))) }
{
    own_vens(alloc, tx, id, part)
}

// The same in a transaction that is dropped.
fn ven_alone<S: Alter>(
    alloc: Global,
    conn: &mut Connection<S>,
    id: &ObjectId,
    part: Page,
) -> Result<Answer, Refusal>
    requires { conn.old.in_transaction ≡ false }
    ensures tells { TellsTables (λ held. reply held (query.Vens (role_of.Ven id.now) part)) (state S.Store conn.old) (state S.Store conn.new) result }
    ensures refuses { RefusesAs (λ held. reply held (query.Vens (role_of.Ven id.now) part)) (state S.Store conn.old) (state S.Store conn.new) result }
    ensures listed { IfErr result (IsListed (Unit {0}) (listed_for (query.Vens (role_of.Ven id.now) part))) }
    ensures dropped { IsDropped S.Store conn.old conn.new }
{
    let mut tx = begin(conn);
    vens_in(alloc, &mut tx, id, part)
}

/// The vens that a role sees, or `Forbidden`. Their rows are read one by one, as far as the page goes; for a ven its own alone.
/// Whatever is begun on the way is dropped.
pub(crate) fn vens<S: Alter>(
    alloc: Global,
    conn: &mut Connection<S>,
    role: &Role,
    part: Page,
) -> Result<Answer, Refusal>
    requires { conn.old.in_transaction ≡ false }
    ensures tells { TellsTables (λ held. reply held (query.Vens role.now part)) (state S.Store conn.old) (state S.Store conn.new) result }
    ensures refuses { RefusesAs (λ held. reply held (query.Vens role.now part)) (state S.Store conn.old) (state S.Store conn.new) result }
    ensures listed { IfErr result (IsListed (Unit {0}) (listed_for (query.Vens role.now part))) }
    ensures dropped { IsDropped S.Store conn.old conn.new }
{
    match role {
        Role::Operator => every_ven(alloc, conn, part),
        Role::Ven(id) => ven_alone(alloc, conn, id, part),
        Role::Utility => Err(Refusal::Forbidden),
    }
}

// ---- subscriptions

// The rows of the page of all subscriptions, of which no further one is read.
fn subs_of<S: Alter>(
    alloc: Global,
    conn: &mut Connection<S>,
    filter: &ReportFilter,
    part: Page,
) -> Result<Rows<(Number, Sub)>, Refusal>
    requires { conn.old.in_transaction ≡ false }
    ensures finds { HasCleanDisk (state S.Store conn.new) → IfOk result (λ rows. (kept : Kept) → Keeps kept (state S.Store conn.old) → (rows ≡ take part.limit (drop part.skip (wanted_among filter.now kept.portfolio.subs))) × Keeps kept (state S.Store conn.new)) }
    ensures refused { IfErr result IsOfStore }
    ensures dropped { IsDropped S.Store conn.old conn.new }
{
    let is_settled = conn.is_autocommit();
    prove!(is_settled);
    subs_page(alloc, conn, filter, part)
}

// What the operator is told of subscriptions.
fn every_sub<S: Alter>(
    alloc: Global,
    conn: &mut Connection<S>,
    filter: &ReportFilter,
    part: Page,
) -> Result<Answer, Refusal>
    requires { conn.old.in_transaction ≡ false }
    ensures tells { TellsTables (λ held. reply held (query.Subs role_of.Operator filter.now part)) (state S.Store conn.old) (state S.Store conn.new) result }
    ensures refuses { RefusesAs (λ held. reply held (query.Subs role_of.Operator filter.now part)) (state S.Store conn.old) (state S.Store conn.new) result }
    ensures listed { IfErr result (IsListed (Unit {0}) (listed_for (query.Subs role_of.Operator filter.now part))) }
    ensures dropped { IsDropped S.Store conn.old conn.new }
{
    let rows = subs_of(alloc, conn, filter, part)?;
    Ok(Answer::List(objects_of(alloc, rows)?))
}

// What the ven of an id is told of subscriptions, where it is enrolled, and else `Forbidden`.
fn subs_in<S: Alter>(
    alloc: Global,
    tx: &mut Transaction<'_, S>,
    id: &ObjectId,
    filter: &ReportFilter,
    part: Page,
) -> Result<Answer, Refusal>
    ensures lent { LeavesLent S.Store tx.old.conn tx.new.conn result }
    ensures tells { TellsTables (λ held. reply held (query.Subs (role_of.Ven id.now) filter.now part)) (state S.Store tx.old.conn.now) (state S.Store tx.new.conn.now) result }
    ensures refuses { RefusesAs (λ held. reply held (query.Subs (role_of.Ven id.now) filter.now part)) (state S.Store tx.old.conn.now) (state S.Store tx.new.conn.now) result }
    ensures listed { IfErr result (IsListed (Unit {0}) (listed_for (query.Subs (role_of.Ven id.now) filter.now part))) }
{
    own_subs(alloc, tx, id, filter, part)
}

// The same in a transaction that is dropped.
fn subs_of_ven<S: Alter>(
    alloc: Global,
    conn: &mut Connection<S>,
    id: &ObjectId,
    filter: &ReportFilter,
    part: Page,
) -> Result<Answer, Refusal>
    requires { conn.old.in_transaction ≡ false }
    ensures tells { TellsTables (λ held. reply held (query.Subs (role_of.Ven id.now) filter.now part)) (state S.Store conn.old) (state S.Store conn.new) result }
    ensures refuses { RefusesAs (λ held. reply held (query.Subs (role_of.Ven id.now) filter.now part)) (state S.Store conn.old) (state S.Store conn.new) result }
    ensures listed { IfErr result (IsListed (Unit {0}) (listed_for (query.Subs (role_of.Ven id.now) filter.now part))) }
    ensures dropped { IsDropped S.Store conn.old conn.new }
{
    let mut tx = begin(conn);
    subs_in(alloc, &mut tx, id, filter, part)
}

/// The subscriptions that a role sees and the filter wants, or `Forbidden`. Their rows are read one by one, as far as the page goes;
/// for a ven its own alone. Whatever is begun on the way is dropped.
pub(crate) fn subs<S: Alter>(
    alloc: Global,
    conn: &mut Connection<S>,
    role: &Role,
    filter: &ReportFilter,
    part: Page,
) -> Result<Answer, Refusal>
    requires { conn.old.in_transaction ≡ false }
    ensures tells { TellsTables (λ held. reply held (query.Subs role.now filter.now part)) (state S.Store conn.old) (state S.Store conn.new) result }
    ensures refuses { RefusesAs (λ held. reply held (query.Subs role.now filter.now part)) (state S.Store conn.old) (state S.Store conn.new) result }
    ensures listed { IfErr result (IsListed (Unit {0}) (listed_for (query.Subs role.now filter.now part))) }
    ensures dropped { IsDropped S.Store conn.old conn.new }
{
    match role {
        Role::Operator => every_sub(alloc, conn, filter, part),
        Role::Ven(id) => subs_of_ven(alloc, conn, id, filter, part),
        Role::Utility => Err(Refusal::Forbidden),
    }
}
