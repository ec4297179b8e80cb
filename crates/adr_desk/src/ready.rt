//! A database is made ready for a desk: new tables, or those that were kept.
ghost use Rattle.std.specs.Prelude.{◌≡◌, ◌⊎◌, false, [], ◌∷◌, IsTrue, OnOk, OnErr, IfErr};
ghost use Rattle.sqlite.specs.Held.{state};
ghost use Rattle.sqlite.specs.State.{HasCleanDisk, Survives};
ghost use Rattle.adr_text.specs.declared.refusal.Refusal.TheVariants.{BadFile};
ghost use Rattle.adr_state.specs.declared.state.State.{State};
ghost use Rattle.adr_sql.specs.Contents.{Contents, Holds, rows_of_table};
ghost use Rattle.adr_sql.specs.Calls.{Commits};
ghost use Rattle.adr_db.specs.declared.version.Version.{Version};
ghost use Rattle.adr_db.specs.Versions.{SayKnown, schema_of_version};
ghost use Rattle.adr_held.specs.Held.{HoldsState, HoldsInEither, AreLeftWith};
ghost use Rattle.adr_db.specs.Calls.{IsOfStore, IsOneOf};
ghost use Rattle.adr_desk.specs.Preparing.{Becomes, AreKnown, UpgradedFrom};
ghost use Rattle.adr_desk.specs.declared.ready.Start.TheVariants.{Kept};

use crate::create::create_in;
use crate::frame::{begin, commit};
use adr_db::upgrade;
use adr_text::Refusal;
use sqlite::{Alter, Connection};

/// What a database is expected to be.
#[derive(Clone, Copy, Debug, PartialEq, Eq)]
pub enum Start {
    /// An empty one, in which the tables are made.
    New,
    /// One whose tables a node made before, of this version or of the first one.
    Kept,
}

/// Tables that were kept become those of this version, in one transaction, which changes nothing where they are.
fn upgrade_in<S: Alter>(conn: &mut Connection<S>) -> Result<(), Refusal>
    requires { conn.old.in_transaction ≡ false }
    ensures whole { Commits S.Store conn.old conn.new
        (UpgradedFrom (state S.Store conn.old))
        (λ trees. (held : State) → HoldsInEither held (state S.Store conn.old) → AreLeftWith held trees)
        result }
    ensures unknown { HasCleanDisk (state S.Store conn.new) → IfErr result (λ refusal. refusal ≡ BadFile → (of : Version) (all : Contents) → Holds (schema_of_version of) all (state S.Store conn.old) → ¬ SayKnown (rows_of_table all 0)) }
    ensures listed { IfErr result (IsOneOf (BadFile ∷ [])) }
{
    let mut tx = begin(conn);
    upgrade(&mut tx)?;
    commit(tx)
}

/// Makes a database ready: a new one gets its tables, all of them or none, and one that was kept is taken as it is, where
/// its tables are those of this version; those of version 1 become such, with what they held. On a refusal what was committed
/// stands. A crash on the way leaves what it could before, or all of it.
pub fn prepare<S: Alter>(conn: &mut Connection<S>, start: Start) -> Result<(), Refusal>
    requires { conn.old.in_transaction ≡ false }
    ensures over { conn.new.in_transaction ≡ false }
    ensures made { HasCleanDisk (state S.Store conn.new) → OnOk result ((held : State) → Becomes start held (state S.Store conn.old) → HoldsState held (state S.Store conn.new)) }
    ensures known { HasCleanDisk (state S.Store conn.new) → OnOk result (start ≡ Kept → AreKnown (state S.Store conn.old)) }
    ensures committed { HasCleanDisk (state S.Store conn.new) → OnOk result ((state S.Store conn.new).committed ≡ (state S.Store conn.new).now) }
    ensures is_open { HasCleanDisk (state S.Store conn.new) → OnOk result (IsTrue (state S.Store conn.new).is_open) }
    ensures undone { HasCleanDisk (state S.Store conn.new) → IsTrue (state S.Store conn.new).is_open → OnErr result ((state S.Store conn.new).committed ≡ (state S.Store conn.old).committed) }
    ensures listed { IfErr result (λ refusal. IsOfStore refusal ⊎ ((refusal ≡ BadFile) × (start ≡ Kept))) }
    ensures unknown { HasCleanDisk (state S.Store conn.new) → IfErr result (λ refusal. refusal ≡ BadFile → (held : State) → ¬ HoldsInEither held (state S.Store conn.old)) }
    ensures crash { Survives (state S.Store conn.old) (state S.Store conn.new) (λ trees. (held : State) → Becomes start held (state S.Store conn.old) → AreLeftWith held trees) }
{
    match start {
        Start::New => create_in(conn),
        Start::Kept => upgrade_in(conn),
    }
}
