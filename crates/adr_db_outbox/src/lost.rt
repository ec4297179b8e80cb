//! Which entries went with their subscription, from the tables `outbox` and `sub`.
ghost use Rattle.std.specs.Prelude.{◌≡◌, [], IfErr};
ghost use Rattle.adr_sql.specs.Calls.{LeavesLent};
ghost use Rattle.adr_db.specs.Kept.{numbers_lost};
ghost use Rattle.adr_db.specs.Calls.{Finds, IsOfStore};
ghost use Rattle.adr_db.specs.Refusals.{RefusesToShow, CannotReadAll};
ghost use Rattle.adr_db.specs.Admitted.{IsNumber, ReadsNumber};

use adr_db::reading::all_of;
use adr_objects::Number;
use adr_text::{Refusal, Rows};
use sqlite::{Alter, Transaction};
use std::alloc::Global;

const READ_LOST: &str =
    "SELECT o.id FROM outbox o WHERE o.dest <> 0 AND NOT EXISTS (SELECT 1 FROM sub s WHERE s.id = o.dest) ORDER BY o.id";

/// The numbers of the entries that go to a subscription which is not there, in their order.
pub fn read_lost<S: Alter>(
    alloc: Global,
    tx: &mut Transaction<'_, S>,
) -> Result<Rows<Number>, Refusal>
    ensures lent { LeavesLent S.Store tx.old.conn tx.new.conn result }
    ensures finds { Finds S.Store tx.old.conn.now tx.new.conn.now (λ kept lost. lost ≡ numbers_lost kept) result }
    ensures refused { IfErr result IsOfStore }
    ensures fails { RefusesToShow S.Store tx.old.conn.now tx.new.conn.now READ_LOST.now [] (CannotReadAll IsNumber ReadsNumber) result }
{
    all_of(alloc, tx, READ_LOST, &[])
}
