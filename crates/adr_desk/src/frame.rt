//! The frame of a transaction: it is begun where none stands, and committed or else dropped.
ghost use Rattle.std.specs.Prelude.{◌≡◌, false, true, IsTrue, IfErr};
ghost use Rattle.sqlite.specs.Held.{state};
ghost use Rattle.adr_db.specs.Calls.{IsOfStore};
ghost use Rattle.adr_desk.specs.Transactions.{Ends};

use adr_db::statement::refusal_of;
use adr_text::Refusal;
use sqlite::{Alter, Connection, Transaction};

/// Begins a transaction. What stood before was committed.
pub(crate) fn begin<S: Alter>(conn: &mut Connection<S>) -> Transaction<'_, S>
    requires { conn.old.in_transaction ≡ false }
    ensures same_reference { result.conn.ghost_name ≡ conn.entry.ghost_name }
    ensures begun { result.conn.now ≡ record conn.old { in_transaction = true } }
    ensures settled { IsTrue (state S.Store conn.old).is_open → (state S.Store conn.old).now ≡ (state S.Store conn.old).committed }
{
    let is_settled = conn.is_autocommit();
    prove!(is_settled);
    conn.transaction()
}

/// Commits what the transaction did.
pub(crate) fn commit<S: Alter>(tx: Transaction<'_, S>) -> Result<(), Refusal>
    ensures ends { Ends S.Store tx.entry.conn.now tx.exit.0.now result }
    ensures refused { IfErr result IsOfStore }
{
    match tx.commit() {
        Ok(()) => Ok(()),
        Err(error) => Err(refusal_of(error)),
    }
}
