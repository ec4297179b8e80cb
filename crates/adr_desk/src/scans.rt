//! The keys that an open scan missed, whose rows are lent one after another.
ghost use Rattle.std.specs.Prelude.{◌≡◌, ◌⊎◌, false, IsTrue, IfOk, IfErr, OnOk, None};
ghost use Rattle.sqlite.specs.Held.{state};
ghost use Rattle.sqlite.specs.State.{HasCleanDisk};
ghost use Rattle.adr_text.specs.Refusals.{IsRefusalOf};
ghost use Rattle.adr_text.specs.declared.refusal.Refusal.TheVariants.{NoScan};
ghost use Rattle.adr_state.specs.declared.base.Base.{Base};
ghost use Rattle.adr_state.specs.declared.state.State.{State};
ghost use Rattle.adr_held.specs.Held.{HoldsState};
ghost use Rattle.adr_machine.specs.Listed.{listed};
ghost use Rattle.adr_machine.specs.declared.command.Command.TheVariants as command;
ghost use Rattle.adr_desk.specs.Ends.{HasMissed};
ghost use Rattle.adr_db.specs.Bases.{with_base};
ghost use Rattle.adr_db.specs.Calls.{IsOfStore};
ghost use Rattle.adr_db.specs.Kept.{Kept, Keeps};
ghost use Rattle.adr_queries.specs.declared.query.Query.TheVariants as query;
ghost use Rattle.adr_queries.specs.Listed.{listed_for, IsListed};
ghost use Rattle.adr_queries.specs.Replies.{reply};
ghost use Rattle.adr_missed.specs.Missed.{missed, TellsOn};
ghost use Rattle.adr_desk.specs.Steps.{TellsTables, RefusesAs};
ghost use Rattle.adr_desk.specs.Transactions.{IsDropped};

use crate::frame::begin;
use adr_db::{Meta, read_meta};
use adr_machine::Answer;
use adr_missed::probes;
use adr_state::MirrorKey;
use adr_text::{Refusal, Rows};
use sqlite::{Alter, Connection};
use std::alloc::Global;

// The numbers of the node, read in a transaction that is dropped.
fn numbers<S: Alter>(conn: &mut Connection<S>) -> Result<Meta, Refusal>
    requires { conn.old.in_transaction ≡ false }
    ensures finds { HasCleanDisk (state S.Store conn.new) → IfOk result (λ meta. (kept : Kept) → Keeps kept (state S.Store conn.old) → meta ≡ kept.meta) }
    ensures refused { IfErr result IsOfStore }
    ensures dropped { IsDropped S.Store conn.old conn.new }
{
    let mut tx = begin(conn);
    read_meta(&mut tx)
}

// The keys, of which no further one is read than is wanted.
fn keys_of<S: Alter>(
    alloc: Global,
    conn: &mut Connection<S>,
    meta: &Meta,
    limit: Option<u32>,
) -> Result<Rows<MirrorKey>, Refusal>
    requires { conn.old.in_transaction ≡ false }
    ensures tells { TellsOn S.Store conn.old conn.new (missed limit) meta.now result }
    ensures refuses { IfErr result (λ refusal. (base : Base) → meta.now ≡ with_base meta.now base → IsRefusalOf refusal (missed limit base)) }
    ensures was_open { HasCleanDisk (state S.Store conn.new) → OnOk result (IsTrue (state S.Store conn.old).is_open) }
    ensures refused { IfErr result (λ refusal. IsOfStore refusal ⊎ (refusal ≡ NoScan)) }
    ensures dropped { IsDropped S.Store conn.old conn.new }
{
    let is_settled = conn.is_autocommit();
    prove!(is_settled);
    probes(alloc, conn, meta, limit)
}

/// The first keys that an open scan missed, or `NoScan`. They are read row by row, as far as the limit goes. Whatever is begun on
/// the way is dropped.
pub(crate) fn first_missed<S: Alter>(
    alloc: Global,
    conn: &mut Connection<S>,
    limit: u32,
) -> Result<Answer, Refusal>
    requires { conn.old.in_transaction ≡ false }
    ensures tells { TellsTables (λ held. reply held (query.Probes limit)) (state S.Store conn.old) (state S.Store conn.new) result }
    ensures refuses { RefusesAs (λ held. reply held (query.Probes limit)) (state S.Store conn.old) (state S.Store conn.new) result }
    ensures listed { IfErr result (IsListed (Unit {0}) (listed_for (query.Probes limit))) }
    ensures dropped { IsDropped S.Store conn.old conn.new }
{
    let meta = numbers(conn)?;
    Ok(Answer::Probes(keys_of(alloc, conn, &meta, Some(limit))?))
}

/// All keys that an open scan missed, read row by row, or `NoScan`. Whatever is begun on the way is dropped.
pub(crate) fn all_missed<S: Alter>(
    alloc: Global,
    conn: &mut Connection<S>,
) -> Result<Rows<MirrorKey>, Refusal>
    requires { conn.old.in_transaction ≡ false }
    ensures tells { HasCleanDisk (state S.Store conn.new) → IfOk result (λ keys. (held : State) → HoldsState held (state S.Store conn.old) → HasMissed keys held × HoldsState held (state S.Store conn.new)) }
    ensures refuses { RefusesAs (λ held. missed None held.base) (state S.Store conn.old) (state S.Store conn.new) result }
    ensures listed { IfErr result (IsListed (Unit {0}) (listed command.ScanEnd)) }
    ensures dropped { IsDropped S.Store conn.old conn.new }
{
    let meta = numbers(conn)?;
    keys_of(alloc, conn, &meta, None)
}
