//! Subscriptions on the tables, by who gives the command. The numbers of the node are handed in, and are left as the caller
//! has to put them.
ghost use Rattle.std.specs.Prelude.{IfOk, IfErr};
ghost use Rattle.adr_sql.specs.Calls.{LeavesLent};
ghost use Rattle.adr_machine.specs.declared.command.Command.TheVariants as command;
ghost use Rattle.adr_machine.specs.Edits.{sub_post_decided, sub_put_decided, sub_delete_decided};
ghost use Rattle.adr_queries.specs.Listed.{IsListed};
ghost use Rattle.adr_machine.specs.Listed.{listed};
ghost use Rattle.adr_desk.specs.Decisions.{CarriesOut, IsAnswered, sub_made, sub_put_again};

use crate::sites::along;
use adr_answers::sight_in;
use adr_db::Meta;
use adr_machine::told::of_sub;
use adr_machine::{Outcome, Role, settled_copy};
use adr_objects::Number;
use adr_state::Limits;
use adr_subs::{delete, post, put};
use adr_subscription::SubIn;
use adr_text::{Moment, ObjectId, Refusal};
use adr_touched::Touched;
use adr_view::owner_in;
use sqlite::{Alter, Transaction};
use std::alloc::Global;

// A new subscription of who has the role, each of whose addresses may be called.
fn made<S: Alter>(
    alloc: Global,
    tx: &mut Transaction<'_, S>,
    limits: &Limits,
    meta: &mut Meta,
    now: Moment,
    number: Number,
    role: &Role,
    body: SubIn,
) -> Result<(Outcome, Touched), Refusal>
    ensures lent { LeavesLent S.Store tx.old.conn tx.new.conn result }
    ensures carries { CarriesOut S.Store tx.old.conn.now tx.new.conn.now (sub_made limits.now now number role.now body) meta.old meta.new result }
    ensures answered { IfOk result (λ r. IsAnswered (command.SubPost role.now body) r.0) }
    ensures listed { IfErr result (IsListed (Unit {0}) (listed (command.SubPost role.now body))) }
{
    let sight = sight_in(alloc, tx, role)?;
    along(
        of_sub(post(alloc, tx, limits, meta, now, number, owner_in(sight), body)),
        Touched::none(alloc),
    )
}

/// A new subscription of who has the role.
pub(crate) fn sub_post<S: Alter>(
    alloc: Global,
    tx: &mut Transaction<'_, S>,
    limits: &Limits,
    meta: &mut Meta,
    now: Moment,
    number: Number,
    role: &Role,
    sub: &SubIn,
) -> Result<(Outcome, Touched), Refusal>
    ensures lent { LeavesLent S.Store tx.old.conn tx.new.conn result }
    ensures carries { CarriesOut S.Store tx.old.conn.now tx.new.conn.now (λ base. sub_post_decided limits.now now number role.now sub.now base) meta.old meta.new result }
    ensures answered { IfOk result (λ r. IsAnswered (command.SubPost role.now sub.now) r.0) }
    ensures listed { IfErr result (IsListed (Unit {0}) (listed (command.SubPost role.now sub.now))) }
{
    let body = settled_copy(alloc, sub)?;
    made(alloc, tx, limits, meta, now, number, role, body)
}

// The subscription of an id is replaced by who has the role, by one each of whose addresses may be called.
fn replaced<S: Alter>(
    alloc: Global,
    tx: &mut Transaction<'_, S>,
    meta: &mut Meta,
    now: Moment,
    role: &Role,
    id: &ObjectId,
    body: SubIn,
) -> Result<(Outcome, Touched), Refusal>
    ensures lent { LeavesLent S.Store tx.old.conn tx.new.conn result }
    ensures carries { CarriesOut S.Store tx.old.conn.now tx.new.conn.now (sub_put_again now role.now id.now body) meta.old meta.new result }
    ensures answered { IfOk result (λ r. IsAnswered (command.SubPut role.now id.now body) r.0) }
    ensures listed { IfErr result (IsListed (Unit {0}) (listed (command.SubPut role.now id.now body))) }
{
    let sight = sight_in(alloc, tx, role)?;
    along(
        of_sub(put(alloc, tx, meta, sight, now, id, body)),
        Touched::none(alloc),
    )
}

/// The subscription of an id is replaced by who has the role.
pub(crate) fn sub_put<S: Alter>(
    alloc: Global,
    tx: &mut Transaction<'_, S>,
    meta: &mut Meta,
    now: Moment,
    role: &Role,
    id: &ObjectId,
    sub: &SubIn,
) -> Result<(Outcome, Touched), Refusal>
    ensures lent { LeavesLent S.Store tx.old.conn tx.new.conn result }
    ensures carries { CarriesOut S.Store tx.old.conn.now tx.new.conn.now (λ base. sub_put_decided now role.now id.now sub.now base) meta.old meta.new result }
    ensures answered { IfOk result (λ r. IsAnswered (command.SubPut role.now id.now sub.now) r.0) }
    ensures listed { IfErr result (IsListed (Unit {0}) (listed (command.SubPut role.now id.now sub.now))) }
{
    let body = settled_copy(alloc, sub)?;
    replaced(alloc, tx, meta, now, role, id, body)
}

/// The subscription of an id is removed by who has the role.
pub(crate) fn sub_delete<S: Alter>(
    alloc: Global,
    tx: &mut Transaction<'_, S>,
    meta: &mut Meta,
    role: &Role,
    id: &ObjectId,
) -> Result<(Outcome, Touched), Refusal>
    ensures lent { LeavesLent S.Store tx.old.conn tx.new.conn result }
    ensures carries { CarriesOut S.Store tx.old.conn.now tx.new.conn.now (λ base. sub_delete_decided role.now id.now base) meta.old meta.new result }
    ensures answered { IfOk result (λ r. IsAnswered (command.SubDelete role.now id.now) r.0) }
    ensures listed { IfErr result (IsListed (Unit {0}) (listed (command.SubDelete role.now id.now))) }
{
    let sight = sight_in(alloc, tx, role)?;
    along(
        of_sub(delete(alloc, tx, meta, sight, id)),
        Touched::none(alloc),
    )
}
