//! The live events of a program, from the table `mirror`.
ghost use Rattle.std.specs.Prelude.{◌≡◌, map, filter, IfErr};
ghost use Rattle.adr_sql.specs.Calls.{LeavesLent};
ghost use Rattle.adr_db.specs.Rows.{event_key_row};
ghost use Rattle.adr_db.specs.Refusals.{RefusesToShow, CannotReadAll};
ghost use Rattle.adr_db.specs.Admitted.{IsKey, ReadsKey};
ghost use Rattle.adr_db.specs.Calls.{Finds, IsOfStore};
ghost use Rattle.adr_db_shown.specs.Entries.{is_event_of};

use adr_db::reading::all_of;
use adr_state::MirrorKey;
use adr_text::{ObjectId, Refusal, Rows};
use sqlite::types::ToSql;
use sqlite::{Alter, Transaction};
use std::alloc::Global;

const READ_OF: &str = "SELECT kind, id FROM mirror WHERE program = ?1 ORDER BY kind, id";

/// The upstream keys of the live events of a program, by the bytes of their ids. No body is read, and no row of another
/// program.
pub fn read_live_events<S: Alter>(
    alloc: Global,
    tx: &mut Transaction<'_, S>,
    program: &ObjectId,
) -> Result<Rows<MirrorKey>, Refusal>
    ensures lent { LeavesLent S.Store tx.old.conn tx.new.conn result }
    ensures finds { Finds S.Store tx.old.conn.now tx.new.conn.now (λ kept keys. keys ≡ map (λ e. e.0) (filter (is_event_of program.now) kept.mirror)) result }
    ensures refused { IfErr result IsOfStore }
    ensures fails { RefusesToShow S.Store tx.old.conn.now tx.new.conn.now READ_OF.now (event_key_row program.now) (CannotReadAll IsKey ReadsKey) result }
{
    all_of(alloc, tx, READ_OF, &[program.as_str().to_sql()])
}
