//! What a scan has not seen, from the tables `mirror` and `polled`, by rows that are lent.
ghost use Rattle.std.specs.Prelude.{IsTrue, ◌≡◌, [], IfOk, OnOk, IfErr};
ghost use Rattle.std.specs.Borrow.{sem, RestsIfErr};
ghost use Rattle.sqlite.specs.contracts.connection.Connection.{the_row};
ghost use Rattle.sqlite.specs.Held.{state};
ghost use Rattle.sqlite.specs.State.{HasCleanDisk};
ghost use Rattle.adr_state.specs.Scans.{probes};
ghost use Rattle.adr_db.specs.Calls.{IsOfStore};
ghost use Rattle.adr_db.specs.Kept.{Kept, Keeps, at_most};
ghost use Rattle.adr_lent.specs.Lent.{Begins, Stands};
ghost use Rattle.adr_lent.specs.Selections.{Selects};
ghost use Rattle.adr_missed.specs.Unseen.{unseen_rows};

use crate::taken::first_of;
use adr_db::statement::refusal_of;
use adr_lent::lend;
use adr_state::MirrorKey;
use adr_text::{Refusal, Rows};
use sqlite::{Alter, Connection, Error, Rows as LentRows};
use std::alloc::Global;

const READ_UNSEEN: &str =
    "SELECT kind, id FROM mirror WHERE state = 1 AND NOT EXISTS (SELECT 1 FROM polled p WHERE p.kind = mirror.kind AND p.id = mirror.id) ORDER BY kind, id";

/// The live keys that were not polled: programs before events, each by the bytes of its id.
pub fn lend_unseen<'conn, S: Alter>(
    conn: &'conn mut Connection<S>,
) -> Result<LentRows<'conn, S>, Error>
    ensures* refused { sem 𝓛 (RestsIfErr (the_row S.row S.Store) conn.entry (λ rows. rows.conn.ghost_name) result (Stands S.Store conn.old)) }
    ensures same_reference { IfOk result (λ rows. rows.conn.ghost_name ≡ conn.entry.ghost_name) }
    ensures begun { IfOk result (λ rows. Begins S.Store READ_UNSEEN.now [] conn.old rows.conn.now) }
    ensures selects { Selects S.Store READ_UNSEEN.now [] unseen_rows conn.old }
{
    lend(conn, READ_UNSEEN, &[])
}

/// The first of them where there is a limit, at most so many, and else all.
pub fn unseen_keys<S: Alter>(
    alloc: Global,
    conn: &mut Connection<S>,
    limit: Option<u32>,
) -> Result<Rows<MirrorKey>, Refusal>
    ensures finds { HasCleanDisk (state S.Store conn.new) → IfOk result (λ keys. (kept : Kept) → Keeps kept (state S.Store conn.old)
        → (keys ≡ at_most limit (probes kept.mirror kept.polled)) × Keeps kept (state S.Store conn.new)) }
    ensures was_open { HasCleanDisk (state S.Store conn.new) → OnOk result (IsTrue (state S.Store conn.old).is_open) }
    ensures stands { Stands S.Store conn.old conn.new }
    ensures refused { IfErr result IsOfStore }
{
    let mut rows = match lend_unseen(conn) {
        Ok(rows) => rows,
        Err(error) => return Err(refusal_of(error)),
    };
    first_of::<MirrorKey, S>(alloc, &mut rows, limit)
}
