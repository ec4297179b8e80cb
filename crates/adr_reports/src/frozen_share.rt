//! One row of the table `frozen_share`: the weight that is kept for a resource in a frozen event.
ghost use Rattle.std.specs.Prelude.{◌≡◌, IfErr};
ghost use Rattle.adr_state.specs.Keys.{frozen_cmp, at};
ghost use Rattle.adr_sql.specs.Calls.{LeavesLent};
ghost use Rattle.adr_db.specs.Calls.{Finds, IsOfStore};

use adr_db::cells::number;
use adr_db::reading::first_in;
use adr_db::statement::rows_of;
use adr_state::{FrozenKey, Weight};
use adr_text::Refusal;
use sqlite::types::ToSql;
use sqlite::{Alter, Transaction};

const READ_ONE: &str =
    "SELECT event, resource, weight FROM frozen_share WHERE event = ?1 AND resource = ?2 ORDER BY event, resource";

/// The weight of the key, where one is kept.
pub(crate) fn read_frozen_share<S: Alter>(
    tx: &mut Transaction<'_, S>,
    key: &FrozenKey,
) -> Result<Option<Weight>, Refusal>
    ensures lent { LeavesLent S.Store tx.old.conn tx.new.conn result }
    ensures finds { Finds S.Store tx.old.conn.now tx.new.conn.now (λ kept found. found ≡ at frozen_cmp key.now kept.portfolio.frozen_shares) result }
    ensures refused { IfErr result IsOfStore }
{
    let resource = number(key.resource.get())?;
    let rows = rows_of(tx, READ_ONE, &[key.event.as_str().to_sql(), resource])?;
    first_in(*rows.allocator(), &rows)
}
