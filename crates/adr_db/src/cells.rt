//! Columns of a row as the values that they stand for. What no call on the tables wrote is the store's
//! refusal.
ghost use Rattle.std.specs.Prelude.{◌≡◌, ◌<◌, ◌+◌, pos, Bool, [], ◌∷◌, IfOk, IfErr, IsTrue, IsUtf8};
ghost use Rattle.sqlite_sql.specs.Ops.{is_null};
ghost use Rattle.sqlite.specs.Order.{column};
ghost use Rattle.sqlite_value.specs.Value.{owned};
ghost use Rattle.sqlite.specs.declared.types.Value.TheVariants.{Int, Text};
ghost use Rattle.adr_sql.specs.Keys.{cells};
ghost use Rattle.adr_db.specs.Calls.{IsOfStore};
ghost use Rattle.adr_db.specs.Kept.{limit_number};
ghost use Rattle.adr_db.specs.Refusals.{IsBeyond, IsMisread, CannotRead};
ghost use Rattle.adr_db.specs.Admitted.{IsIdText, IsNameText, IsMoment, AreStamps, IsNumber, IsKey, ReadsId, ReadsNumber, ReadsKey};
ghost use Rattle.adr_state.specs.Weights.{is_weight};
ghost use Rattle.adr_objects.specs.declared.kind.Kind.{Kind as KindOf};
ghost use Rattle.adr_text.specs.declared.refusal.Refusal.TheVariants.{Store};
ghost use Rattle.adr_db.specs.Rows.{as_stored, number, flag_cell, kind_number, stamps_columns};

use crate::reading::FromRow;
use crate::statement::refusal_of;
use adr_objects::{Kind, Number, Stamps};
use adr_state::{MirrorKey, Weight};
use adr_subscription::FreeText;
use adr_text::{Moment, Name, ObjectId, Refusal};
use sqlite::Row;
use sqlite::types::{FromSql, ValueRef};
use std::alloc::Global;

/// The value of a column.
pub(crate) fn column<T: FromSql>(row: &Row, at: usize) -> Result<T, Refusal>
    ensures reads { IfOk result (λ x. T.FromSql.reads_as (column row.now at) x) }
    ensures refused { IfErr result (IsMisread T.FromSql.is_readable (column row.now at)) }
{
    row.get(at).map_err(refusal_of)
}

/// Whether there is no value in a column.
pub(crate) fn is_null(row: &Row, at: usize) -> bool
    ensures { result ≡ is_null (column row.now at) }
{
    match row.get_ref(at) {
        Ok(ValueRef::Null) | Err(_) => true,
        Ok(_) => false,
    }
}

/// A number as SQL keeps it, or the store's refusal of one above 9,223,372,036,854,775,807.
pub fn number(n: u64) -> Result<ValueRef<'static>, Refusal>
    ensures value { IfOk result (λ value. owned value ≡ Int (pos n)) }
    ensures refused { IfErr result (λ refusal. (refusal ≡ Store) × IsBeyond (number n)) }
{
    match i64::try_from(n) {
        Ok(n) => Ok(ValueRef::Int(n)),
        Err(_) => Err(Refusal::Store),
    }
}

/// At most how many rows a query shows: below 0 SQL has no limit.
pub fn row_limit(most: Option<u32>) -> ValueRef<'static>
    ensures { owned result ≡ Int (limit_number most) }
{
    match most {
        Some(n) => ValueRef::Int(i64::from(n)),
        None => ValueRef::Int(-1),
    }
}

/// The number of a kind.
pub fn kind_number(kind: Kind) -> u32
    ensures { result ≡ kind_number kind }
{
    match kind {
        Kind::Program => 1,
        Kind::Event => 2,
    }
}

fn kind_of(number: u32) -> Result<Kind, Refusal>
    ensures kind { IfOk result (λ kind. number ≡ kind_number kind) }
    ensures refused { IfErr result (λ refusal. (refusal ≡ Store) × ((kind : KindOf) → ¬ (number ≡ kind_number kind))) }
{
    match number {
        1 => Ok(Kind::Program),
        2 => Ok(Kind::Event),
        _ => Err(Refusal::Store),
    }
}

/// A value that no call on the tables wrote is the store's refusal, and want of memory is itself.
pub fn as_stored<T>(read: Result<T, Refusal>) -> Result<T, Refusal>
    ensures same { result ≡ as_stored read }
    ensures refused { IfErr result IsOfStore }
{
    match read {
        Ok(value) => Ok(value),
        Err(Refusal::OutOfMemory) => Err(Refusal::OutOfMemory),
        Err(_) => Err(Refusal::Store),
    }
}

/// The id that this text is.
pub(crate) fn id_of(alloc: Global, text: &str) -> Result<ObjectId, Refusal>
    ensures id { IfOk result (λ id. id ≡ text.now) }
    ensures refused { IfErr result (CannotRead IsIdText (λ text id. id ≡ text) text.now) }
{
    as_stored(ObjectId::new(alloc, text))
}

/// The id in a column.
pub(crate) fn id_in(alloc: Global, row: &Row, at: usize) -> Result<ObjectId, Refusal>
    ensures id { IfOk result (λ id. column row.now at ≡ Text id) }
    ensures refused { IfErr result (CannotRead IsIdText (λ value id. value ≡ Text id) (column row.now at)) }
{
    let text: String = column(row, at)?;
    id_of(alloc, text.as_str())
}

/// The name in a column.
pub(crate) fn name_in(alloc: Global, row: &Row, at: usize) -> Result<Name, Refusal>
    ensures name { IfOk result (λ name. column row.now at ≡ Text name) }
    ensures refused { IfErr result (CannotRead IsNameText (λ value name. value ≡ Text name) (column row.now at)) }
{
    let text: String = column(row, at)?;
    as_stored(Name::new(alloc, text.as_str()))
}

/// The text in a column, whatever it says.
pub(crate) fn text_in(alloc: Global, row: &Row, at: usize) -> Result<FreeText, Refusal>
    ensures text { IfOk result (λ text. column row.now at ≡ Text text) }
    ensures refused { IfErr result (CannotRead IsUtf8 (λ value text. value ≡ Text text) (column row.now at)) }
{
    let text: String = column(row, at)?;
    Ok(FreeText::new(alloc, text.as_str())?)
}

/// The moment in a column.
pub(crate) fn moment_in(row: &Row, at: usize) -> Result<Moment, Refusal>
    ensures moment { IfOk result (λ moment. column row.now at ≡ Int (pos moment)) }
    ensures refused { IfErr result (CannotRead IsMoment (λ value moment. value ≡ Int (pos moment)) (column row.now at)) }
{
    let nanos: u64 = column(row, at)?;
    as_stored(Moment::at(nanos))
}

/// The weight in a column.
pub(crate) fn weight_in(row: &Row, at: usize) -> Result<Weight, Refusal>
    ensures weight { IfOk result (λ weight. column row.now at ≡ Int (pos weight)) }
    ensures refused { IfErr result (CannotRead (λ weight. IsTrue (is_weight weight)) (λ value weight. value ≡ Int (pos weight)) (column row.now at)) }
{
    let amount: u32 = column(row, at)?;
    Weight::new(amount).ok_or(Refusal::Store)
}

/// Whether it is 1; another number than 0 and 1 is refused.
pub(crate) fn flag_in(row: &Row, at: usize) -> Result<bool, Refusal>
    ensures value { IfOk result (λ b. column row.now at ≡ flag_cell b) }
    ensures refused { IfErr result (IsMisread (λ value. (b : Bool) × (value ≡ flag_cell b)) (column row.now at)) }
{
    let found: u32 = column(row, at)?;
    match found {
        0 => Ok(false),
        1 => Ok(true),
        _ => Err(Refusal::Store),
    }
}

/// The stamps in two columns.
pub(crate) fn stamps_in(row: &Row, at: usize) -> Result<Stamps, Refusal>
    requires { at < 100 }
    ensures stamps { IfOk result (λ stamps. stamps_columns stamps ≡ column row.now at ∷ column row.now (at + 1) ∷ []) }
    ensures refused { IfErr result (CannotRead AreStamps (λ cells stamps. stamps_columns stamps ≡ cells) (column row.now at ∷ column row.now (at + 1) ∷ [])) }
{
    Ok(Stamps {
        created: moment_in(row, at)?,
        modified: moment_in(row, at + 1)?,
    })
}

/// The number in the first column.
pub(crate) fn number_in(row: &Row) -> Result<Number, Refusal>
    ensures reads { IfOk result (ReadsNumber row.now) }
    ensures refused { IfErr result (CannotRead IsNumber ReadsNumber row.now) }
{
    Ok(Number::new(column(row, 0)?))
}

impl FromRow for Number {
    ghost reads = { ReadsNumber };

    ghost admits = { IsNumber };

    fn from_row(_: Global, row: &Row) -> Result<Number, Refusal> {
        number_in(row)
    }
}

impl FromRow for ObjectId {
    ghost reads = { ReadsId };

    ghost admits = { IsIdText };

    fn from_row(alloc: Global, row: &Row) -> Result<ObjectId, Refusal> {
        id_in(alloc, row, 0)
    }
}

impl FromRow for MirrorKey {
    ghost reads = { ReadsKey };

    ghost admits = { IsKey };

    fn from_row(alloc: Global, row: &Row) -> Result<MirrorKey, Refusal> {
        Ok(MirrorKey {
            kind: kind_of(column(row, 0)?)?,
            id: id_in(alloc, row, 1)?,
        })
    }
}
