//! The version of the tables, by which a file that was kept is known as one of this node.
ghost use Rattle.std.specs.Prelude.{◌≡◌, [], ◌∷◌, IfOk, IfErr};
ghost use Rattle.sqlite.specs.Held.{state};
ghost use Rattle.sqlite.specs.State.{HasCleanDisk};
ghost use Rattle.std.specs.Bool.{Decides};
ghost use Rattle.sqlite.specs.Order.{column};
ghost use Rattle.adr_text.specs.declared.refusal.Refusal.TheVariants.{OutOfMemory, BadFile};
ghost use Rattle.adr_db.specs.Rows.{number};
ghost use Rattle.adr_sql.specs.Calls.{LeavesLent};
ghost use Rattle.adr_sql.specs.Contents.{Contents, Holds, rows_of_table};
ghost use Rattle.adr_db.specs.Calls.{IsOneOf};
ghost use Rattle.adr_db.specs.Versions.{SayVersion, SayKnown, CannotKnow, number_of, schema_of_version};
ghost use Rattle.adr_db.specs.declared.version.Version.{Version};

use crate::meta::{FIRST_VERSION, VERSION, expect};
use crate::statement::refusal_of;
use adr_text::Refusal;
use sqlite::{Alter, Error, Row, Transaction};

const READ: &str = "SELECT k, version FROM meta ORDER BY k";

/// The versions of the tables that this node opens.
#[derive(Clone, Copy, PartialEq, Eq)]
pub enum Version {
    /// Without frozen shares.
    First,
    /// That of today.
    Second,
}

/// Whether a row of `meta` says this version.
fn says(row: &Row, version: u32) -> Result<bool, Refusal>
    ensures says { IfOk result (λ is. Decides is (column row.now 1 ≡ number version)) }
    ensures refused { IfErr result (λ refusal. refusal ≡ OutOfMemory) }
{
    match expect(row, 1, version) {
        Ok(()) => Ok(true),
        Err(Refusal::Store) => Ok(false),
        Err(refusal) => Err(refusal),
    }
}

/// The version that rows of `meta` say. No row, and a row of another version, are of no file of this node.
fn known(rows: &[Row]) -> Result<Version, Refusal>
    ensures says { IfOk result (λ v. SayVersion (number_of v) rows.now) }
    ensures refused { IfErr result (CannotKnow rows.now) }
{
    let Some(row) = rows.first() else {
        return Err(Refusal::BadFile);
    };
    if says(row, VERSION)? {
        return Ok(Version::Second);
    }
    if says(row, FIRST_VERSION)? {
        return Ok(Version::First);
    }
    Err(Refusal::BadFile)
}

/// The version of tables that were kept, by which they are known as those of this node. Where there is no table `meta`, or none
/// that has a version, and where it is another, they are not.
pub(crate) fn kept_version<S: Alter>(tx: &mut Transaction<'_, S>) -> Result<Version, Refusal>
    ensures lent { LeavesLent S.Store tx.old.conn tx.new.conn result }
    ensures known { HasCleanDisk (state S.Store tx.new.conn.now) → IfOk result (λ v. (of : Version) (all : Contents) → Holds (schema_of_version of) all (state S.Store tx.old.conn.now) → SayVersion (number_of v) (rows_of_table all 0) × Holds (schema_of_version of) all (state S.Store tx.new.conn.now)) }
    ensures unknown { HasCleanDisk (state S.Store tx.new.conn.now) → IfErr result (λ refusal. refusal ≡ BadFile → (of : Version) (all : Contents) → Holds (schema_of_version of) all (state S.Store tx.old.conn.now) → ¬ SayKnown (rows_of_table all 0)) }
    ensures listed { IfErr result (IsOneOf (BadFile ∷ [])) }
{
    let rows = match adr_sql::rows_of(tx, READ, &[]) {
        Ok(rows) => rows,
        Err(Error::SqlInputError(_)) => return Err(Refusal::BadFile),
        Err(error) => return Err(refusal_of(error)),
    };
    known(&rows)
}
