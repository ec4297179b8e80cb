//! Laws of the keys that a scan missed, by what is kept.
ghost use Rattle.sqlite.specs.Held.{state};
ghost use Rattle.adr_missed.specs.Laws.{FirstAreTold, AllAreTold};

use sqlite::{Alter, Connection};

/// Where the tables hold a state, the first keys that a scan missed are told by what the tables keep, and so are all of them,
/// which the end of the scan answers.
pub fn missed_are_told<S: Alter>(conn: &Connection<S>)
    ensures first { FirstAreTold (state S.Store conn.now) }
    ensures all { AllAreTold (state S.Store conn.now) }
{}
