//! Which entry leaves next, from the tables `head` and `outbox`.
ghost use Rattle.std.specs.Prelude.{◌≡◌, [], ◌∷◌, IfErr};
ghost use Rattle.adr_delivery.specs.Next.{next_entry};
ghost use Rattle.adr_sql.specs.Calls.{LeavesLent};
ghost use Rattle.adr_db.specs.Rows.{number};
ghost use Rattle.adr_db.specs.Calls.{Finds, IsOfStore};
ghost use Rattle.adr_db.specs.Refusals.{RefusesToShow, CannotReadFirst};
ghost use Rattle.adr_db.specs.Admitted.{IsWaitingEntry, ReadsWaitingEntry};

use adr_db::cells::number;
use adr_db::reading::first_of;
use adr_delivery::Entry;
use adr_objects::Number;
use adr_text::{Moment, Refusal};
use sqlite::{Alter, Transaction};
use std::alloc::Global;

const READ_NEXT: &str =
    "SELECT o.id, o.dest, o.event, o.operation, o.url, o.token, o.body, o.failed, o.leases, o.leased, o.until, o.due FROM head h JOIN outbox o ON o.id = h.entry WHERE o.due <= ?1 AND (o.leased = 0 OR o.until <= ?1) ORDER BY o.id LIMIT 1";

/// The first entry that is due and has no lease that lasts past the moment, of those before which none of their destination
/// waits. It costs a look-up of an entry for each destination.
pub fn read_next<S: Alter>(
    alloc: Global,
    tx: &mut Transaction<'_, S>,
    now: Moment,
) -> Result<Option<(Number, Entry)>, Refusal>
    ensures lent { LeavesLent S.Store tx.old.conn tx.new.conn result }
    ensures finds { Finds S.Store tx.old.conn.now tx.new.conn.now (λ kept next. next ≡ next_entry now kept.entries) result }
    ensures refused { IfErr result IsOfStore }
    ensures fails { RefusesToShow S.Store tx.old.conn.now tx.new.conn.now READ_NEXT.now (number now ∷ []) (CannotReadFirst IsWaitingEntry ReadsWaitingEntry) result }
{
    first_of(alloc, tx, READ_NEXT, &[number(now.nanos())?])
}
