//! Laws of what is told of the reports that are kept.
ghost use Rattle.sqlite.specs.Held.{state};
ghost use Rattle.adr_report_pages.specs.Laws.{ReportsAreTheirRows};

use sqlite::{Alter, Connection};

/// Where the tables hold a state, a page of the reports in sight that are wanted is told by the rows that are kept of them:
/// those in sight that are wanted by their columns, in the order of their numbers, each with its intervals and its stamps.
pub fn reports_are_their_rows<S: Alter>(conn: &Connection<S>)
    ensures { ReportsAreTheirRows (state S.Store conn.now) }
{}
