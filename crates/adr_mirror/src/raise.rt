//! One mark joins the mirror.
ghost use Rattle.std.specs.Prelude.{◌≡◌, IfErr};
ghost use Rattle.adr_sql.specs.Calls.{LeavesLent};
ghost use Rattle.adr_state.specs.Keys.{mirror_cmp, at};
ghost use Rattle.adr_db.specs.Calls.{Turns, IsOfStore};
ghost use Rattle.adr_mirror.specs.Raises.{is_raised, added_by, rise_of, with_raised};

use crate::known::rise_of;
use adr_db_mirror::{put_mark, read_mark};
use adr_state::{Mark, MirrorKey};
use adr_text::Refusal;
use sqlite::{Alter, Transaction};
use std::alloc::Global;

/// What a mark makes of its key.
#[derive(Clone, Copy)]
pub(crate) enum Rise {
    /// The key keeps the mark that it has.
    Same,
    /// The key has a higher mark now.
    Higher,
    /// The key has its first mark now.
    First,
}

impl Rise {
    /// Whether the mark rose.
    pub fn is_raised(self) -> bool
        ensures { result ≡ is_raised self }
    {
        match self {
            Rise::Same => false,
            Rise::Higher | Rise::First => true,
        }
    }

    /// How many keys it adds.
    pub fn added(self) -> u64
        ensures { result ≡ added_by self }
    {
        match self {
            Rise::First => 1,
            Rise::Same | Rise::Higher => 0,
        }
    }
}

/// Raises the mark of a key to the given one, unless it is as great.
pub(crate) fn raise<S: Alter>(
    alloc: Global,
    tx: &mut Transaction<'_, S>,
    key: &MirrorKey,
    mark: &Mark,
) -> Result<Rise, Refusal>
    ensures lent { LeavesLent S.Store tx.old.conn tx.new.conn result }
    ensures turns { Turns S.Store tx.old.conn.now tx.new.conn.now (with_raised (key.now, mark.now)) (λ kept rise. rise ≡ rise_of (at mirror_cmp key.now kept.mirror) mark.now) result }
    ensures refused { IfErr result IsOfStore }
{
    let known = read_mark(tx, key)?;
    let rise = rise_of(alloc, &known, mark)?;
    if !rise.is_raised() {
        return Ok(rise);
    }
    put_mark(alloc, tx, key, mark)?;
    Ok(rise)
}
