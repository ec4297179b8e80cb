//! How entries that wait, and the utility's ids of reports, read from their rows.
ghost use Rattle.std.specs.Prelude.{◌≡◌, ◌≤◌, is_some, Option, IfOk, IfErr, IfSome, Some, ℕ};
ghost use Rattle.sqlite.specs.Order.{column};
ghost use Rattle.sqlite.specs.Values.{or_null};
ghost use Rattle.sqlite.specs.declared.types.Value.TheVariants.{Text};
ghost use Rattle.adr_text.specs.declared.refusal.Refusal.TheVariants.{Store};
ghost use Rattle.adr_subscription.specs.declared.words.OperationKind.{OperationKind as OperationOf};
ghost use Rattle.adr_delivery.specs.declared.addressee.Addressee.{Addressee as AddresseeOf};
ghost use Rattle.adr_delivery.specs.Failing.{most_failures};
ghost use Rattle.adr_sql.specs.Keys.{cells};
ghost use Rattle.adr_db.specs.Rows.{number, operation_number, lease_end, delivery_columns};
ghost use Rattle.adr_db.specs.Refusals.{CannotRead};
ghost use Rattle.adr_db.specs.Admitted.{IsIdText, IsTokenText, IsAddressee, IsDelivery, IsRemote, IsWaiting, AreParts, ReadsAddressee, ReadsRemote, ReadsWaiting};

use crate::cells::{as_stored, column, flag_in, id_in, is_null, moment_in, text_in};
use crate::reading::FromRow;
use adr_delivery::{Addressee, Delivery, Entry, Failures};
use adr_objects::Number;
use adr_subscription::{BearerToken, FreeText, OperationKind};
use adr_text::{Moment, ObjectId, Refusal};
use sqlite::Row;
use std::alloc::Global;

/// The utility's id of a report, with the upstream event that it tells of.
#[derive(Drop)]
pub struct RemoteRow {
    pub event: ObjectId,
    pub id: ObjectId,
}

impl RemoteRow {
    /// The event and the id.
    pub fn into_parts(self) -> (ObjectId, ObjectId)
        ensures { result ≡ (self.event, self.id) }
    {
        (self.event, self.id)
    }
}

impl FromRow for RemoteRow {
    ghost reads = { ReadsRemote };

    ghost admits = { IsRemote };

    fn from_row(alloc: Global, row: &Row) -> Result<RemoteRow, Refusal> {
        Ok(RemoteRow {
            event: id_in(alloc, row, 0)?,
            id: id_in(alloc, row, 1)?,
        })
    }
}

// The event in the third column, where there is one.
fn event_in(alloc: Global, row: &Row) -> Result<Option<ObjectId>, Refusal>
    ensures event { IfOk result (λ event. or_null Text event ≡ column row.now 2) }
    ensures refused { IfErr result (CannotRead (λ event. IfSome event IsIdText) (λ value event. or_null Text event ≡ value) (column row.now 2)) }
{
    if is_null(row, 2) {
        return Ok(None);
    }
    Ok(Some(id_in(alloc, row, 2)?))
}

// The token that this text is.
fn token_at(alloc: Global, text: &str) -> Result<BearerToken, Refusal>
    ensures token { IfOk result (λ token. token ≡ text.now) }
    ensures refused { IfErr result (CannotRead IsTokenText (λ text token. token ≡ text) text.now) }
{
    match BearerToken::new(alloc, text) {
        Ok(token) => Ok(token),
        Err(fault) => as_stored(Err(Refusal::from(fault))),
    }
}

// The token in the sixth column, where there is one.
fn token_in(alloc: Global, row: &Row) -> Result<Option<BearerToken>, Refusal>
    ensures token { IfOk result (λ token. or_null Text token ≡ column row.now 5) }
    ensures refused { IfErr result (CannotRead (λ token. IfSome token IsTokenText) (λ value token. or_null Text token ≡ value) (column row.now 5)) }
{
    if is_null(row, 5) {
        return Ok(None);
    }
    let text: String = column(row, 5)?;
    Ok(Some(token_at(alloc, text.as_str())?))
}

// To the utility, where there is neither a subscription nor an address nor a token.
fn to_utility(
    event: ObjectId,
    destination: Number,
    address: &FreeText,
    token: &Option<BearerToken>,
) -> Result<Addressee, Refusal>
    ensures same { IfOk result (λ addressee. AreParts addressee destination (Some event) address.now token.now) }
    ensures refused { IfErr result (λ refusal. (refusal ≡ Store) × ((addressee : AddresseeOf) → ¬ AreParts addressee destination (Some event) address.now token.now)) }
{
    if destination.get() == 0 && address.as_str().is_empty() && token.is_none() {
        return Ok(Addressee::Utility(event));
    }
    Err(Refusal::Store)
}

fn addressee_in(alloc: Global, row: &Row) -> Result<Addressee, Refusal>
    ensures addressee { IfOk result (ReadsAddressee row.now) }
    ensures refused { IfErr result (CannotRead IsAddressee ReadsAddressee row.now) }
{
    let destination = Number::new(column(row, 1)?);
    let address = text_in(alloc, row, 4)?;
    let token = token_in(alloc, row)?;
    match event_in(alloc, row)? {
        Some(event) => to_utility(event, destination, &address, &token),
        None => Ok(Addressee::Subscriber {
            subscription: destination,
            address,
            token,
        }),
    }
}

fn operation_of(number: u32) -> Result<OperationKind, Refusal>
    ensures operation { IfOk result (λ operation. number ≡ operation_number operation) }
    ensures refused { IfErr result (λ refusal. (refusal ≡ Store) × ((operation : OperationOf) → ¬ (number ≡ operation_number operation))) }
{
    match number {
        1 => Ok(OperationKind::Post),
        2 => Ok(OperationKind::Put),
        3 => Ok(OperationKind::Delete),
        4 => Ok(OperationKind::Get),
        _ => Err(Refusal::Store),
    }
}

fn failures_in(row: &Row) -> Result<Failures, Refusal>
    ensures failures { IfOk result (λ failures. column row.now 7 ≡ number failures) }
    ensures refused { IfErr result (CannotRead (λ failures. failures ≤ most_failures) (λ value failures. value ≡ number failures) (column row.now 7)) }
{
    Failures::new(column(row, 7)?).ok_or(Refusal::Store)
}

// The lease that lasts until then, where there is one: else its end is 0.
fn lease_from(leased: bool, until: Moment) -> Result<Option<Moment>, Refusal>
    ensures lease { IfOk result (λ lease. (is_some lease ≡ leased) × (lease_end lease ≡ until)) }
    ensures refused { IfErr result (λ refusal. (refusal ≡ Store) × ((lease : Option ℕ) → is_some lease ≡ leased → ¬ (lease_end lease ≡ until))) }
{
    if leased {
        return Ok(Some(until));
    }
    if until.nanos() != 0 {
        return Err(Refusal::Store);
    }
    Ok(None)
}

// How the delivery stands, from the eighth column on.
fn delivery_in(row: &Row) -> Result<Delivery, Refusal>
    ensures delivery { IfOk result (λ delivery. delivery_columns delivery ≡ cells 7 5 row.now) }
    ensures refused { IfErr result (CannotRead IsDelivery (λ row delivery. delivery_columns delivery ≡ cells 7 5 row) row.now) }
{
    Ok(Delivery {
        failures: failures_in(row)?,
        leases: column(row, 8)?,
        lease: lease_from(flag_in(row, 9)?, moment_in(row, 10)?)?,
        due: moment_in(row, 11)?,
    })
}

impl FromRow for Entry {
    ghost reads = { ReadsWaiting };

    ghost admits = { IsWaiting };

    fn from_row(alloc: Global, row: &Row) -> Result<Entry, Refusal> {
        Ok(Entry {
            addressee: addressee_in(alloc, row)?,
            operation: operation_of(column(row, 3)?)?,
            body: text_in(alloc, row, 6)?,
            delivery: delivery_in(row)?,
        })
    }
}
