//! What is kept of shown events and of roll-ups, and how that reads from their rows.
ghost use Rattle.adr_db.specs.Admitted.{IsShownKey, AreShownColumns, AreRollupColumns, ReadsShownKey, ReadsShownColumns, ReadsRollupColumns};

use crate::cells::{column, id_in, name_in, text_in};
use crate::reading::FromRow;
use adr_objects::Number;
use adr_subscription::FreeText;
use adr_text::{Name, ObjectId, Refusal};
use sqlite::Row;
use std::alloc::Global;

/// An upstream event, and a resource that is shown it.
#[derive(Drop)]
pub struct ShownKey {
    pub event: ObjectId,
    pub resource: Number,
}

/// What is kept of a shown event.
#[derive(Drop)]
pub struct ShownColumns {
    pub program: ObjectId,
    /// The ven that owns the resource, also where the resource is gone since.
    pub ven: Number,
    pub ven_name: Name,
    pub resource_name: Name,
    /// The object as it is written, without its id and its stamps.
    pub body: FreeText,
}

/// What is kept of the roll-up of an upstream event.
#[derive(Drop)]
pub struct RollupColumns {
    pub program: ObjectId,
    /// The object as it is written, without its client's name.
    pub body: FreeText,
}

impl FromRow for ShownKey {
    ghost reads = { ReadsShownKey };

    ghost admits = { IsShownKey };

    fn from_row(alloc: Global, row: &Row) -> Result<ShownKey, Refusal> {
        Ok(ShownKey {
            event: id_in(alloc, row, 0)?,
            resource: Number::new(column(row, 1)?),
        })
    }
}

impl FromRow for ShownColumns {
    ghost reads = { ReadsShownColumns };

    ghost admits = { AreShownColumns };

    fn from_row(alloc: Global, row: &Row) -> Result<ShownColumns, Refusal> {
        Ok(ShownColumns {
            program: id_in(alloc, row, 2)?,
            ven: Number::new(column(row, 3)?),
            ven_name: name_in(alloc, row, 4)?,
            resource_name: name_in(alloc, row, 5)?,
            body: text_in(alloc, row, 6)?,
        })
    }
}

impl FromRow for RollupColumns {
    ghost reads = { ReadsRollupColumns };

    ghost admits = { AreRollupColumns };

    fn from_row(alloc: Global, row: &Row) -> Result<RollupColumns, Refusal> {
        Ok(RollupColumns {
            program: id_in(alloc, row, 1)?,
            body: text_in(alloc, row, 2)?,
        })
    }
}
