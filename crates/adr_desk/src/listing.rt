//! A listing of events, whose rows are lent one after another.
ghost use Rattle.std.specs.Prelude.{◌≡◌, false, [], ◌∷◌, map, take, drop, Some, IsTrue, IfOk, IfErr, OnOk};
ghost use Rattle.sqlite.specs.Held.{state};
ghost use Rattle.sqlite.specs.State.{HasCleanDisk};
ghost use Rattle.adr_text.specs.declared.refusal.Refusal.TheVariants.{Forbidden};
ghost use Rattle.adr_sql.specs.Calls.{LeavesLent};
ghost use Rattle.adr_view.specs.Sights.{owner_in};
ghost use Rattle.adr_db.specs.Kept.{Kept, Keeps};
ghost use Rattle.adr_db.specs.Calls.{IsOfStore, IsOneOf};
ghost use Rattle.adr_queries.specs.declared.query.Query.TheVariants as query;
ghost use Rattle.adr_queries.specs.Listed.{listed_for, IsListed};
ghost use Rattle.adr_queries.specs.Replies.{reply};
ghost use Rattle.adr_queries.specs.Roles.{sight_of};
ghost use Rattle.adr_lent.specs.Pages.{kept_for, wanted_among};
ghost use Rattle.adr_pages.specs.Objects.{object_kept};
ghost use Rattle.adr_desk.specs.Steps.{TellsTables, RefusesAs, LooksUp};
ghost use Rattle.adr_desk.specs.Transactions.{IsDropped};

use crate::frame::begin;
use adr_answers::sight_in;
use adr_db::{ShownColumns, ShownKey};
use adr_lent::shown_page;
use adr_machine::{Answer, EventFilter, Object, Page, Role, Sight};
use adr_pages::objects_of;
use adr_text::{Refusal, Rows};
use adr_view::owner_in;
use sqlite::{Alter, Connection, Transaction};
use std::alloc::Global;

// What a role sees, or `Forbidden`.
fn seen_in<S: Alter>(
    alloc: Global,
    tx: &mut Transaction<'_, S>,
    role: &Role,
) -> Result<Sight, Refusal>
    ensures lent { LeavesLent S.Store tx.old.conn tx.new.conn result }
    ensures tells { LooksUp (λ held. sight_of held.base role.now) (state S.Store tx.old.conn.now) (state S.Store tx.new.conn.now) result }
    ensures refuses { RefusesAs (λ held. sight_of held.base role.now) (state S.Store tx.old.conn.now) (state S.Store tx.new.conn.now) result }
    ensures refused { IfErr result (IsOneOf (Forbidden ∷ [])) }
{
    sight_in(alloc, tx, role)
}

// The same in a transaction that is dropped.
fn seen<S: Alter>(alloc: Global, conn: &mut Connection<S>, role: &Role) -> Result<Sight, Refusal>
    requires { conn.old.in_transaction ≡ false }
    ensures tells { LooksUp (λ held. sight_of held.base role.now) (state S.Store conn.old) (state S.Store conn.new) result }
    ensures refuses { RefusesAs (λ held. sight_of held.base role.now) (state S.Store conn.old) (state S.Store conn.new) result }
    ensures refused { IfErr result (IsOneOf (Forbidden ∷ [])) }
    ensures dropped { IsDropped S.Store conn.old conn.new }
{
    let mut tx = begin(conn);
    seen_in(alloc, &mut tx, role)
}

// The rows of the page, of which no further one is read.
fn rows_of<S: Alter>(
    alloc: Global,
    conn: &mut Connection<S>,
    sight: Sight,
    filter: &EventFilter,
    part: Page,
) -> Result<Rows<(ShownKey, ShownColumns)>, Refusal>
    requires { conn.old.in_transaction ≡ false }
    ensures finds { HasCleanDisk (state S.Store conn.new) → IfOk result (λ rows. (kept : Kept) → Keeps kept (state S.Store conn.old) → (rows ≡ take part.limit (drop part.skip (wanted_among filter.now (kept_for (owner_in sight) kept.shown)))) × Keeps kept (state S.Store conn.new)) }
    ensures was_open { HasCleanDisk (state S.Store conn.new) → OnOk result (IsTrue (state S.Store conn.old).is_open) }
    ensures refused { IfErr result IsOfStore }
    ensures dropped { IsDropped S.Store conn.old conn.new }
{
    let is_settled = conn.is_autocommit();
    prove!(is_settled);
    shown_page(alloc, conn, owner_in(sight), filter, part)
}

// Each as an object, with its stamps.
fn objects_in<S: Alter>(
    alloc: Global,
    conn: &mut Connection<S>,
    rows: Rows<(ShownKey, ShownColumns)>,
) -> Result<Rows<Object>, Refusal>
    requires { conn.old.in_transaction ≡ false }
    ensures finds { HasCleanDisk (state S.Store conn.new) → IfOk result (λ objects. (kept : Kept) → Keeps kept (state S.Store conn.old) → map Some objects ≡ map (object_kept kept.stamps) rows) }
    ensures refused { IfErr result IsOfStore }
    ensures dropped { IsDropped S.Store conn.old conn.new }
{
    let mut tx = begin(conn);
    objects_of(alloc, &mut tx, rows)
}

/// A page of events: of those that the role sees and the filter wants, in the order of their keys, at most as many as its limit
/// behind those that it skips; `Forbidden` for a ven that isn't enrolled. What is kept of them is read row by row, as far as the
/// page goes, and then the stamps of those that are told. Whatever is begun on the way is dropped.
pub fn page<S: Alter>(
    alloc: Global,
    conn: &mut Connection<S>,
    role: &Role,
    filter: &EventFilter,
    part: Page,
) -> Result<Answer, Refusal>
    requires { conn.old.in_transaction ≡ false }
    ensures tells { TellsTables (λ held. reply held (query.Events role.now filter.now part)) (state S.Store conn.old) (state S.Store conn.new) result }
    ensures refuses { RefusesAs (λ held. reply held (query.Events role.now filter.now part)) (state S.Store conn.old) (state S.Store conn.new) result }
    ensures listed { IfErr result (IsListed (Unit {0}) (listed_for (query.Events role.now filter.now part))) }
    ensures dropped { IsDropped S.Store conn.old conn.new }
{
    let sight = seen(alloc, conn, role)?;
    let rows = rows_of(alloc, conn, sight, filter, part)?;
    let objects = objects_in(alloc, conn, rows)?;
    Ok(Answer::List(objects))
}
