//! How subscriptions read from their rows.
ghost use Rattle.std.specs.Prelude.{◌≡◌, ⊤, IfOk, IfErr};
ghost use Rattle.sqlite.specs.Order.{column};
ghost use Rattle.adr_db.specs.Rows.{owner_cell};
ghost use Rattle.adr_db.specs.Refusals.{CannotRead};
ghost use Rattle.adr_db.specs.Admitted.{IsKeptSub, ReadsBody, ReadsSub};

use crate::cells::{as_stored, column, is_null, stamps_in};
use crate::reading::FromRow;
use adr_objects::Number;
use adr_subscription::{Sub, SubIn, read_kept};
use adr_text::Refusal;
use sqlite::Row;
use std::alloc::Global;

// The ven in the second column, where there is one.
fn owner_in(row: &Row) -> Result<Option<Number>, Refusal>
    ensures owner { IfOk result (λ owner. owner_cell owner ≡ column row.now 1) }
    ensures refused { IfErr result (CannotRead (λ owner. ⊤) (λ value owner. owner_cell owner ≡ value) (column row.now 1)) }
{
    if is_null(row, 1) {
        return Ok(None);
    }
    let number: u64 = column(row, 1)?;
    Ok(Some(Number::new(number)))
}

// The body whose text is in the third column.
fn body_in(alloc: Global, row: &Row) -> Result<SubIn, Refusal>
    ensures body { IfOk result (ReadsBody (column row.now 2)) }
    ensures refused { IfErr result (CannotRead (λ body. ⊤) ReadsBody (column row.now 2)) }
{
    let text: String = column(row, 2)?;
    as_stored(read_kept(alloc, text.as_str()))
}

impl FromRow for Sub {
    ghost reads = { ReadsSub };

    ghost admits = { IsKeptSub };

    fn from_row(alloc: Global, row: &Row) -> Result<Sub, Refusal> {
        Ok(Sub {
            owner: owner_in(row)?,
            body: body_in(alloc, row)?,
            stamps: stamps_in(row, 3)?,
        })
    }
}
