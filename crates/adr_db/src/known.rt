//! What is known of an upstream key, as it is kept, and how a row of `mirror` reads.
ghost use Rattle.std.specs.Prelude.{OnOk, IfErr};
ghost use Rattle.adr_text.specs.Refusals.{Gives};
ghost use Rattle.adr_db.specs.Rows.{mark_from};
ghost use Rattle.adr_db.specs.Calls.{IsOfStore};
ghost use Rattle.adr_db.specs.Admitted.{AreColumns, ReadsColumns, ReadsMark};

use crate::cells::{as_stored, column};
use crate::reading::FromRow;
use adr_objects::read_canonical;
use adr_state::Mark;
use adr_text::{Moment, Refusal};
use sqlite::Row;
use std::alloc::Global;

/// A mark as it is kept: 1, its moment and the canonical text of its body where it is live; 2, 0 and no
/// text where it is dead.
#[derive(Drop)]
pub struct MarkColumns {
    pub state: u32,
    /// Nanoseconds since 1970-01-01T00:00:00Z.
    pub moment: u64,
    pub body: String,
}

impl FromRow for MarkColumns {
    ghost reads = { ReadsColumns };

    ghost admits = { AreColumns };

    fn from_row(_: Global, row: &Row) -> Result<MarkColumns, Refusal> {
        Ok(MarkColumns {
            state: column(row, 2)?,
            moment: column(row, 3)?,
            body: column(row, 4)?,
        })
    }
}

/// The mark that the columns stand for.
fn mark_from(alloc: Global, columns: &MarkColumns) -> Result<Mark, Refusal>
    ensures mark { Gives (λ mark. mark) result (mark_from columns.now) }
    ensures admitted { OnOk result (AreColumns columns.now) }
    ensures refused { IfErr result IsOfStore }
{
    let text = columns.body.as_str();
    match columns.state {
        1 => Ok(Mark::Live(
            as_stored(Moment::at(columns.moment))?,
            as_stored(read_canonical(alloc, text))?,
        )),
        2 => Ok(Mark::Dead),
        _ => Err(Refusal::Store),
    }
}

impl FromRow for Mark {
    ghost use Rattle.std.specs.Prelude.{⊤};

    ghost reads = { ReadsMark };

    ghost admits = { λ mark. ⊤ };

    fn from_row(alloc: Global, row: &Row) -> Result<Mark, Refusal> {
        let columns = MarkColumns::from_row(alloc, row)?;
        mark_from(alloc, &columns)
    }
}
