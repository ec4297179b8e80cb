//! How vens, resources, shares, frozen ones too, and those who take part read from their rows.
ghost use Rattle.std.specs.Prelude.{◌≡◌, IfOk, IfErr};
ghost use Rattle.adr_db.specs.Refusals.{CannotRead};
ghost use Rattle.sqlite.specs.declared.types.Value.TheVariants.{Text};
ghost use Rattle.adr_db.specs.Admitted.{IsVen, ReadsVen, IsResource, IsResourceNameText, ReadsResource, IsShareKey, IsShareWeight, ReadsShareKey, ReadsShareWeight, IsFrozenKey, ReadsFrozenKey, IsParticipant, ReadsParticipant};
ghost use Rattle.sqlite.specs.Order.{column};

use crate::cells::{as_stored, column, id_in, name_in, stamps_in, weight_in};
use crate::reading::FromRow;
use adr_objects::{Number, ResourceName};
use adr_state::{FrozenKey, Participant, Resource, ShareKey, Ven, Weight};
use adr_text::Refusal;
use sqlite::Row;
use std::alloc::Global;

impl FromRow for Ven {
    ghost reads = { ReadsVen };

    ghost admits = { IsVen };

    fn from_row(alloc: Global, row: &Row) -> Result<Ven, Refusal> {
        Ok(Ven {
            name: name_in(alloc, row, 1)?,
            stamps: stamps_in(row, 2)?,
        })
    }
}

// The name in the third column.
fn resource_name_in(alloc: Global, row: &Row) -> Result<ResourceName, Refusal>
    ensures name { IfOk result (λ name. column row.now 2 ≡ Text name) }
    ensures refused { IfErr result (CannotRead IsResourceNameText (λ value name. value ≡ Text name) (column row.now 2)) }
{
    let text: String = column(row, 2)?;
    match ResourceName::new(alloc, text.as_str()) {
        Ok(name) => Ok(name),
        Err(fault) => as_stored(Err(Refusal::from(fault))),
    }
}

impl FromRow for Resource {
    ghost reads = { ReadsResource };

    ghost admits = { IsResource };

    fn from_row(alloc: Global, row: &Row) -> Result<Resource, Refusal> {
        Ok(Resource {
            ven: Number::new(column(row, 1)?),
            name: resource_name_in(alloc, row)?,
            stamps: stamps_in(row, 3)?,
        })
    }
}

impl FromRow for ShareKey {
    ghost reads = { ReadsShareKey };

    ghost admits = { IsShareKey };

    fn from_row(alloc: Global, row: &Row) -> Result<ShareKey, Refusal> {
        Ok(ShareKey {
            program: id_in(alloc, row, 0)?,
            resource: Number::new(column(row, 1)?),
        })
    }
}

impl FromRow for FrozenKey {
    ghost reads = { ReadsFrozenKey };

    ghost admits = { IsFrozenKey };

    fn from_row(alloc: Global, row: &Row) -> Result<FrozenKey, Refusal> {
        Ok(FrozenKey {
            event: id_in(alloc, row, 0)?,
            resource: Number::new(column(row, 1)?),
        })
    }
}

impl FromRow for Weight {
    ghost reads = { ReadsShareWeight };

    ghost admits = { IsShareWeight };

    fn from_row(_: Global, row: &Row) -> Result<Weight, Refusal> {
        weight_in(row, 2)
    }
}

impl FromRow for Participant {
    ghost reads = { ReadsParticipant };

    ghost admits = { IsParticipant };

    fn from_row(alloc: Global, row: &Row) -> Result<Participant, Refusal> {
        Ok(Participant {
            resource: Number::new(column(row, 0)?),
            weight: weight_in(row, 1)?,
            name: name_in(alloc, row, 2)?,
            ven_name: name_in(alloc, row, 3)?,
        })
    }
}
