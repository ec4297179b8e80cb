//! How the stamps of what is shown read from their rows.
ghost use Rattle.std.specs.Prelude.{◌≡◌, [], ◌∷◌, IfOk, IfErr};
ghost use Rattle.sqlite.specs.declared.types.Value.TheVariants.{Text};
ghost use Rattle.adr_db.specs.Rows.{number, view_key_row};
ghost use Rattle.adr_db.specs.Refusals.{CannotRead};
ghost use Rattle.adr_db.specs.Admitted.{IsViewKey, AreStamps, ReadsViewKey, ReadsStamps};

use crate::cells::{column, id_of, number, stamps_in};
use crate::reading::FromRow;
use adr_objects::{Number, Stamps};
use adr_state::ViewKey;
use adr_text::Refusal;
use sqlite::Row;
use std::alloc::Global;

/// The key of this kind, id and number: a program and a roll-up have the number 0, and a report has no id.
fn key_from(alloc: Global, kind: u32, id: &str, n: u64) -> Result<ViewKey, Refusal>
    ensures key { IfOk result (λ key. view_key_row key ≡ number kind ∷ Text id.now ∷ number n ∷ []) }
    ensures refused { IfErr result (CannotRead IsViewKey (λ row key. view_key_row key ≡ row) (number kind ∷ Text id.now ∷ number n ∷ [])) }
{
    match (kind, n) {
        (1, 0) => Ok(ViewKey::Program(id_of(alloc, id)?)),
        (2, _) => Ok(ViewKey::Event(id_of(alloc, id)?, Number::new(n))),
        (3, _) if id.is_empty() => Ok(ViewKey::Report(Number::new(n))),
        (4, 0) => Ok(ViewKey::Rollup(id_of(alloc, id)?)),
        _ => Err(Refusal::Store),
    }
}

impl FromRow for ViewKey {
    ghost reads = { ReadsViewKey };

    ghost admits = { IsViewKey };

    fn from_row(alloc: Global, row: &Row) -> Result<ViewKey, Refusal> {
        let id: String = column(row, 1)?;
        key_from(alloc, column(row, 0)?, id.as_str(), column(row, 2)?)
    }
}

impl FromRow for Stamps {
    ghost reads = { ReadsStamps };

    ghost admits = { AreStamps };

    fn from_row(_: Global, row: &Row) -> Result<Stamps, Refusal> {
        stamps_in(row, 3)
    }
}
