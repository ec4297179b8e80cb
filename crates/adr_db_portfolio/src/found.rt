//! What is looked for by the id of an object: one row of one table.
ghost use Rattle.std.specs.Prelude.{◌≡◌, option_map, IfErr};
ghost use Rattle.adr_sql.specs.Calls.{LeavesLent};
ghost use Rattle.adr_db.specs.Calls.{Finds, IsOfStore};
ghost use Rattle.adr_state.specs.Vens.{ven_with_id, ven_at};
ghost use Rattle.adr_state.specs.Resources.{resource_with_id};
ghost use Rattle.adr_state.specs.Subs.{sub_with_id};
ghost use Rattle.adr_view.specs.Reports.{report_with_id};

use crate::report::read_report;
use crate::resource::read_resource;
use crate::sub::read_sub;
use crate::ven::read_ven;
use adr_objects::Number;
use adr_state::{Report, Resource, Ven, number_in};
use adr_subscription::Sub;
use adr_text::{ObjectId, Refusal};
use sqlite::{Alter, Transaction};
use std::alloc::Global;

// With its number, where it is there.
fn numbered<T: Drop>(number: Number, found: Option<T>) -> Option<(Number, T)>
    ensures { result ≡ option_map (λ object. (number, object)) found }
{
    match found {
        Some(object) => Some((number, object)),
        None => None,
    }
}

/// The ven of an id with its number, where it is there.
pub fn ven_with_id<S: Alter>(
    alloc: Global,
    tx: &mut Transaction<'_, S>,
    id: &ObjectId,
) -> Result<Option<(Number, Ven)>, Refusal>
    ensures lent { LeavesLent S.Store tx.old.conn tx.new.conn result }
    ensures finds { Finds S.Store tx.old.conn.now tx.new.conn.now (λ kept found. found ≡ ven_with_id id.now kept.portfolio) result }
    ensures refused { IfErr result IsOfStore }
{
    let Some(number) = number_in(b'v', id) else {
        return Ok(None);
    };
    let found = read_ven(alloc, tx, number)?;
    Ok(numbered(number, found))
}

/// The number of the ven of an id, where it is there.
pub fn ven_at<S: Alter>(
    alloc: Global,
    tx: &mut Transaction<'_, S>,
    id: &ObjectId,
) -> Result<Option<Number>, Refusal>
    ensures lent { LeavesLent S.Store tx.old.conn tx.new.conn result }
    ensures finds { Finds S.Store tx.old.conn.now tx.new.conn.now (λ kept ven. ven ≡ ven_at id.now kept.portfolio) result }
    ensures refused { IfErr result IsOfStore }
{
    let Some(number) = number_in(b'v', id) else {
        return Ok(None);
    };
    let ven = read_ven(alloc, tx, number)?;
    Ok(ven.map(|_| number))
}

/// The resource of an id with its number, where it is there.
pub fn resource_with_id<S: Alter>(
    alloc: Global,
    tx: &mut Transaction<'_, S>,
    id: &ObjectId,
) -> Result<Option<(Number, Resource)>, Refusal>
    ensures lent { LeavesLent S.Store tx.old.conn tx.new.conn result }
    ensures finds { Finds S.Store tx.old.conn.now tx.new.conn.now (λ kept found. found ≡ resource_with_id id.now kept.portfolio) result }
    ensures refused { IfErr result IsOfStore }
{
    let Some(number) = number_in(b'r', id) else {
        return Ok(None);
    };
    let found = read_resource(alloc, tx, number)?;
    Ok(numbered(number, found))
}

/// The subscription of an id with its number, where it is there.
pub fn sub_with_id<S: Alter>(
    alloc: Global,
    tx: &mut Transaction<'_, S>,
    id: &ObjectId,
) -> Result<Option<(Number, Sub)>, Refusal>
    ensures lent { LeavesLent S.Store tx.old.conn tx.new.conn result }
    ensures finds { Finds S.Store tx.old.conn.now tx.new.conn.now (λ kept found. found ≡ sub_with_id id.now kept.portfolio) result }
    ensures refused { IfErr result IsOfStore }
{
    let Some(number) = number_in(b's', id) else {
        return Ok(None);
    };
    let found = read_sub(alloc, tx, number)?;
    Ok(numbered(number, found))
}

/// The report of an id with its number, where it is there.
pub fn report_with_id<S: Alter>(
    alloc: Global,
    tx: &mut Transaction<'_, S>,
    id: &ObjectId,
) -> Result<Option<(Number, Report)>, Refusal>
    ensures lent { LeavesLent S.Store tx.old.conn tx.new.conn result }
    ensures finds { Finds S.Store tx.old.conn.now tx.new.conn.now (λ kept found. found ≡ report_with_id id.now kept.portfolio) result }
    ensures refused { IfErr result IsOfStore }
{
    let Some(number) = number_in(b'p', id) else {
        return Ok(None);
    };
    let found = read_report(alloc, tx, number)?;
    Ok(numbered(number, found))
}
