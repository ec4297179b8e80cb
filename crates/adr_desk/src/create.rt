//! The tables of a new node, made in one transaction.
ghost use Rattle.std.specs.Prelude.{◌≡◌, false, [], IfErr};
ghost use Rattle.sqlite.specs.Held.{state};
ghost use Rattle.adr_state.specs.States.{empty};
ghost use Rattle.adr_sql.specs.Contents.{Holds};
ghost use Rattle.adr_sql.specs.Schemas.{no_schema};
ghost use Rattle.adr_sql.specs.Calls.{Commits};
ghost use Rattle.adr_held.specs.Held.{HoldsState, AreLeftWith};
ghost use Rattle.adr_db.specs.Calls.{IsOfStore};

use crate::frame::{begin, commit};
use adr_db::create;
use adr_text::Refusal;
use sqlite::{Alter, Connection};

/// Makes the tables in an empty database: all of them, or none.
pub(crate) fn create_in<S: Alter>(conn: &mut Connection<S>) -> Result<(), Refusal>
    requires { conn.old.in_transaction ≡ false }
    ensures whole { Commits S.Store conn.old conn.new
        (λ s. Holds no_schema [] (state S.Store conn.old) → HoldsState empty s)
        (λ trees. Holds no_schema [] (state S.Store conn.old) → AreLeftWith empty trees)
        result }
    ensures refused { IfErr result IsOfStore }
{
    let mut tx = begin(conn);
    create(&mut tx)?;
    commit(tx)
}
