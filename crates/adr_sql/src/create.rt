//! Tables are made in one transaction.
ghost use Rattle.std.specs.Prelude.{List, ◌++◌, map, fold, OnOk};
ghost use Rattle.sqlite.specs.Table.{Table};
ghost use Rattle.sqlite.specs.Held.{state};
ghost use Rattle.sqlite.specs.State.{HasCleanDisk};
ghost use Rattle.sqlite.specs.Schema.{Schema};
ghost use Rattle.sqlite.specs.Change.{created};
ghost use Rattle.adr_sql.specs.Contents.{Contents, Holds, empty_tables};
ghost use Rattle.adr_sql.specs.Creations.{Makes};
ghost use Rattle.adr_sql.specs.Calls.{LeavesLent, FailsToRunAll};

use crate::statement::run;
use sqlite::{Alter, Error, Transaction};

/// Makes a table of each text, behind those that the database has, which hold what they held.
pub fn create_tables<S: Alter>(tx: &mut Transaction<'_, S>, texts: &[&str]) -> Result<(), Error>
    ensures lent { LeavesLent S.Store tx.old.conn tx.new.conn result }
    ensures made { HasCleanDisk (state S.Store tx.new.conn.now) → OnOk result ((schema : Schema) (all : Contents) (tables : List Table) → Makes schema (map (λ t. t.now) texts.now) tables
        → Holds schema all (state S.Store tx.old.conn.now) → Holds (fold created schema tables) (all ++ empty_tables tables) (state S.Store tx.new.conn.now)) }
    ensures fails { FailsToRunAll S.Store tx.old.conn.now tx.new.conn.now (map (λ t. t.now) texts.now) result }
{
    'texts: for text in texts {
        run(tx, text, &[])?;
    }
    Ok(())
}
