//! The stamps of what the resources are shown of one upstream event, from the table `stamp`.
ghost use Rattle.std.specs.Prelude.{◌≡◌, [], ◌∷◌, filter, IfErr};
ghost use Rattle.sqlite.specs.declared.types.Value.TheVariants.{Text};
ghost use Rattle.adr_sql.specs.Calls.{LeavesLent};
ghost use Rattle.adr_view.specs.Laws.{is_key_of};
ghost use Rattle.adr_db.specs.Rows.{number};
ghost use Rattle.adr_db.specs.Refusals.{RefusesToShow, CannotReadAll};
ghost use Rattle.adr_db.specs.Admitted.{IsStamped, ReadsStamped};
ghost use Rattle.adr_db.specs.Calls.{Finds, IsOfStore};
ghost use Rattle.adr_db_shown.specs.Entries.{is_key_between};

use adr_db::cells::number;
use adr_db::reading::all_of;
use adr_objects::{Number, Stamps};
use adr_state::ViewKey;
use adr_text::{ObjectId, Refusal, Rows};
use sqlite::types::ToSql;
use sqlite::{Alter, Transaction};
use std::alloc::Global;

const READ_OF: &str =
    "SELECT kind, a, b, created, modified FROM stamp WHERE kind = ?1 AND a = ?2 ORDER BY kind, a, b";

const READ_BETWEEN: &str =
    "SELECT kind, a, b, created, modified FROM stamp WHERE kind = ?1 AND a = ?2 AND b >= ?3 AND b <= ?4 ORDER BY kind, a, b";

/// The stamps of what the resources are shown of an upstream event, by their numbers. Those of nothing else are read.
pub fn read_event_stamps<S: Alter>(
    alloc: Global,
    tx: &mut Transaction<'_, S>,
    event: &ObjectId,
) -> Result<Rows<(ViewKey, Stamps)>, Refusal>
    ensures lent { LeavesLent S.Store tx.old.conn tx.new.conn result }
    ensures finds { Finds S.Store tx.old.conn.now tx.new.conn.now (λ kept rows. rows ≡ filter (λ e. is_key_of event.now e.0) kept.stamps) result }
    ensures refused { IfErr result IsOfStore }
    ensures fails { RefusesToShow S.Store tx.old.conn.now tx.new.conn.now READ_OF.now (number 2 ∷ Text event.now ∷ []) (CannotReadAll IsStamped ReadsStamped) result }
{
    all_of(
        alloc,
        tx,
        READ_OF,
        &[2u32.to_sql(), event.as_str().to_sql()],
    )
}

/// The stamps of what the resources from one number to another are shown of an upstream event, by their numbers. Those of
/// nothing else are read.
pub fn read_stamps_between<S: Alter>(
    alloc: Global,
    tx: &mut Transaction<'_, S>,
    event: &ObjectId,
    first: Number,
    last: Number,
) -> Result<Rows<(ViewKey, Stamps)>, Refusal>
    ensures lent { LeavesLent S.Store tx.old.conn tx.new.conn result }
    ensures finds { Finds S.Store tx.old.conn.now tx.new.conn.now (λ kept rows. rows ≡ filter (λ e. is_key_between event.now first last e.0) kept.stamps) result }
    ensures refused { IfErr result IsOfStore }
    ensures fails { RefusesToShow S.Store tx.old.conn.now tx.new.conn.now READ_BETWEEN.now (number 2 ∷ Text event.now ∷ number first ∷ number last ∷ []) (CannotReadAll IsStamped ReadsStamped) result }
{
    let first = number(first.get())?;
    let last = number(last.get())?;
    all_of(
        alloc,
        tx,
        READ_BETWEEN,
        &[2u32.to_sql(), event.as_str().to_sql(), first, last],
    )
}
