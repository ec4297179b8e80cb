//! The table `outbox`: the entries that wait. Behind each that comes or goes `head` is set right.
ghost use Rattle.std.specs.Prelude.{◌≡◌, IfErr};
ghost use Rattle.std.specs.Ordering.{nat_cmp};
ghost use Rattle.sqlite.specs.Values.{bound_value, or_null};
ghost use Rattle.sqlite.specs.declared.types.Value.TheVariants.{Text};
ghost use Rattle.sqlite_value.specs.Value.{owned};
ghost use Rattle.adr_delivery.specs.Entries.{event_of};
ghost use Rattle.adr_delivery.specs.Jobs.{token_for};
ghost use Rattle.adr_state.specs.Keys.{at};
ghost use Rattle.adr_sql.specs.Calls.{LeavesLent};
ghost use Rattle.adr_db.specs.Kept.{with_waiting, without_waiting};
ghost use Rattle.adr_db.specs.Rows.{number_row, operation_number, address_of, lease_end, entry_row};
ghost use Rattle.adr_db.specs.Refusals.{RefusesToPut, RefusesToShow, CannotReadFirst};
ghost use Rattle.adr_db.specs.Admitted.{IsNumber, IsWaiting, ReadsNumber, ReadsWaiting};
ghost use Rattle.adr_db.specs.Calls.{ChangesHeads, LeavesKept, Finds, IsOfStore};
ghost use Rattle.adr_db_outbox.specs.Heads.{destination_at};
ghost use Rattle.adr_db_outbox.specs.Refused.{RefusesToChange};

use crate::heads::{set_both_heads, set_head_where};
use adr_db::cells::number;
use adr_db::reading::{first_number, first_of};
use adr_db::statement::run;
use adr_delivery::{Addressee, Entry};
use adr_objects::Number;
use adr_subscription::OperationKind;
use adr_text::{Moment, Refusal};
use sqlite::types::{ToSql, ValueRef};
use sqlite::{Alter, Transaction};
use std::alloc::Global;

const PUT: &str =
    "INSERT INTO outbox (id, dest, event, operation, url, token, body, failed, leases, leased, until, due) VALUES (?1, ?2, ?3, ?4, ?5, ?6, ?7, ?8, ?9, ?10, ?11, ?12) ON CONFLICT (id) DO UPDATE SET id = excluded.id, dest = excluded.dest, event = excluded.event, operation = excluded.operation, url = excluded.url, token = excluded.token, body = excluded.body, failed = excluded.failed, leases = excluded.leases, leased = excluded.leased, until = excluded.until, due = excluded.due";

const REMOVE: &str = "DELETE FROM outbox WHERE id = ?1";

const READ_DESTINATION: &str = "SELECT dest FROM outbox WHERE id = ?1 ORDER BY id";

const READ_ONE: &str =
    "SELECT id, dest, event, operation, url, token, body, failed, leases, leased, until, due FROM outbox WHERE id = ?1 ORDER BY id";

// The upstream event, where it goes to the utility.
fn event_cell(addressee: &Addressee) -> ValueRef<'_>
    ensures { bound_value (owned result) ≡ or_null Text (event_of addressee.now) }
{
    match addressee {
        Addressee::Utility(event) => event.as_str().to_sql(),
        Addressee::Subscriber { .. } => ValueRef::Null,
    }
}

// The address of a subscription; of the utility the empty text.
fn address_of(addressee: &Addressee) -> &str
    ensures { result.now ≡ address_of addressee.now }
{
    match addressee {
        Addressee::Utility(_) => "",
        Addressee::Subscriber { address, .. } => address.as_str(),
    }
}

// The token of a subscription, where it has one.
fn token_cell(addressee: &Addressee) -> ValueRef<'_>
    ensures { bound_value (owned result) ≡ or_null Text (token_for addressee.now) }
{
    match addressee {
        Addressee::Subscriber {
            token: Some(token),
            ..
        } => token.as_str().to_sql(),
        _ => ValueRef::Null,
    }
}

fn operation_number(operation: OperationKind) -> u32
    ensures { result ≡ operation_number operation }
{
    match operation {
        OperationKind::Post => 1,
        OperationKind::Put => 2,
        OperationKind::Delete => 3,
        OperationKind::Get => 4,
    }
}

// The end of the present lease; 0 where there is none.
fn lease_end(lease: Option<Moment>) -> u64
    ensures { result ≡ lease_end lease }
{
    match lease {
        Some(until) => until.nanos(),
        None => 0,
    }
}

// The destination of the entry of a number, where one waits.
fn read_destination<S: Alter>(
    tx: &mut Transaction<'_, S>,
    id: Number,
) -> Result<Option<Number>, Refusal>
    ensures lent { LeavesLent S.Store tx.old.conn tx.new.conn result }
    ensures finds { Finds S.Store tx.old.conn.now tx.new.conn.now (λ kept found. found ≡ destination_at id kept) result }
    ensures refused { IfErr result IsOfStore }
    ensures fails { RefusesToShow S.Store tx.old.conn.now tx.new.conn.now READ_DESTINATION.now (number_row id) (CannotReadFirst IsNumber ReadsNumber) result }
{
    first_number(tx, READ_DESTINATION, &[number(id.get())?])
}

// Puts the row of an entry. What `head` names stays, right or not.
fn put_row<S: Alter>(tx: &mut Transaction<'_, S>, id: Number, entry: &Entry) -> Result<(), Refusal>
    ensures lent { LeavesLent S.Store tx.old.conn tx.new.conn result }
    ensures changes { ChangesHeads S.Store tx.old.conn.now tx.new.conn.now (with_waiting id entry.now) (λ kept heads. heads) result }
    ensures refused { IfErr result IsOfStore }
    ensures fails { RefusesToPut S.Store tx.old.conn.now tx.new.conn.now PUT.now (entry_row (id, entry.now)) result }
{
    let delivery = &entry.delivery;
    run(
        tx,
        PUT,
        &[
            number(id.get())?,
            number(entry.addressee.destination().get())?,
            event_cell(&entry.addressee),
            operation_number(entry.operation).to_sql(),
            address_of(&entry.addressee).to_sql(),
            token_cell(&entry.addressee),
            entry.body.as_str().to_sql(),
            delivery.failures.get().to_sql(),
            number(delivery.leases)?,
            delivery.lease.is_some().to_sql(),
            number(lease_end(delivery.lease))?,
            number(delivery.due.nanos())?,
        ],
    )
}

/// Puts the entry of a number, new or in the place of the one that has it.
pub fn put_entry<S: Alter>(
    tx: &mut Transaction<'_, S>,
    id: Number,
    entry: &Entry,
) -> Result<(), Refusal>
    ensures lent { LeavesLent S.Store tx.old.conn tx.new.conn result }
    ensures leaves { LeavesKept S.Store tx.old.conn.now tx.new.conn.now (with_waiting id entry.now) result }
    ensures refused { IfErr result IsOfStore }
    ensures fails { RefusesToChange S.Store tx.old.conn.now tx.new.conn.now READ_DESTINATION.now (number_row id) PUT.now (entry_row (id, entry.now)) result }
{
    let left = read_destination(tx, id)?;
    put_row(tx, id, entry)?;
    set_both_heads(tx, left, entry.addressee.destination())
}

// The row of an entry goes. What `head` names stays, right or not.
fn remove_row<S: Alter>(tx: &mut Transaction<'_, S>, id: Number) -> Result<(), Refusal>
    ensures lent { LeavesLent S.Store tx.old.conn tx.new.conn result }
    ensures changes { ChangesHeads S.Store tx.old.conn.now tx.new.conn.now (without_waiting id) (λ kept heads. heads) result }
    ensures refused { IfErr result IsOfStore }
    ensures fails { RefusesToPut S.Store tx.old.conn.now tx.new.conn.now REMOVE.now (number_row id) result }
{
    run(tx, REMOVE, &[number(id.get())?])
}

/// The entry of a number goes.
pub fn remove_entry<S: Alter>(tx: &mut Transaction<'_, S>, id: Number) -> Result<(), Refusal>
    ensures lent { LeavesLent S.Store tx.old.conn tx.new.conn result }
    ensures leaves { LeavesKept S.Store tx.old.conn.now tx.new.conn.now (without_waiting id) result }
    ensures refused { IfErr result IsOfStore }
    ensures fails { RefusesToChange S.Store tx.old.conn.now tx.new.conn.now READ_DESTINATION.now (number_row id) REMOVE.now (number_row id) result }
{
    let left = read_destination(tx, id)?;
    remove_row(tx, id)?;
    set_head_where(tx, left)
}

/// The entry of a number, where one waits.
pub fn read_entry<S: Alter>(
    alloc: Global,
    tx: &mut Transaction<'_, S>,
    id: Number,
) -> Result<Option<Entry>, Refusal>
    ensures lent { LeavesLent S.Store tx.old.conn tx.new.conn result }
    ensures finds { Finds S.Store tx.old.conn.now tx.new.conn.now (λ kept found. found ≡ at nat_cmp id kept.entries) result }
    ensures refused { IfErr result IsOfStore }
    ensures fails { RefusesToShow S.Store tx.old.conn.now tx.new.conn.now READ_ONE.now (number_row id) (CannotReadFirst IsWaiting ReadsWaiting) result }
{
    first_of(alloc, tx, READ_ONE, &[number(id.get())?])
}
