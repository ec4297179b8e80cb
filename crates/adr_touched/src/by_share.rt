//! What an edit of a share touches.
ghost use Rattle.std.specs.Prelude.{IfErr};
ghost use Rattle.adr_sql.specs.Calls.{LeavesLent};
ghost use Rattle.adr_db.specs.BaseCalls.{FindsOn};
ghost use Rattle.adr_db.specs.Calls.{IsOfStore};
ghost use Rattle.adr_touched.specs.Touched.{CoversShares};

use crate::events::events_by_share;
use crate::ordered::ids_of;
use crate::touched::{Touched, with_rollups};
use adr_objects::Kind;
use adr_text::{ObjectId, Refusal, Rows};
use sqlite::{Alter, Transaction};
use std::alloc::Global;

/// What an edit of a share in a program touches: the live events of the program that are not frozen, and their roll-ups.
pub fn touched_by_share<S: Alter>(
    alloc: Global,
    tx: &mut Transaction<'_, S>,
    program: &ObjectId,
) -> Result<Touched, Refusal>
    ensures lent { LeavesLent S.Store tx.old.conn tx.new.conn result }
    ensures finds { FindsOn S.Store tx.old.conn.now tx.new.conn.now (CoversShares program.now) result }
    ensures refused { IfErr result IsOfStore }
{
    let keys = events_by_share(alloc, tx, program)?;
    let events = ids_of(alloc, Kind::Event, keys.as_slice())?;
    Ok(with_rollups(alloc, Rows::new(alloc), events, Rows::new(alloc))?)
}
