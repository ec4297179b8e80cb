//! What is true of what the tables keep.
ghost use Rattle.sqlite.specs.Held.{state};
ghost use Rattle.adr_db.specs.Laws.{KeptReadsBack};

use sqlite::{Alter, Connection};

/// What the tables keep is what they hold, read back: so they keep one thing at most, and it is a function of what the
/// store shows.
pub fn what_is_kept_reads_back<S: Alter>(conn: &Connection<S>)
    ensures { KeptReadsBack (state S.Store conn.now) }
{}
