//! Laws of what is told of the rows that are kept of shown events.
ghost use Rattle.sqlite.specs.Held.{state};
ghost use Rattle.adr_pages.specs.Laws.{EventsAreTheirRows, EventIsItsRow};

use sqlite::{Alter, Connection};

/// Where the tables hold a state, a page of the events in sight that are wanted is told by the rows that are kept of them:
/// those of the ven that asks, or all for the operator, which are wanted by their columns, in the order of their keys; and one
/// event by its row.
pub fn events_are_their_rows<S: Alter>(conn: &Connection<S>)
    ensures page { EventsAreTheirRows (state S.Store conn.now) }
    ensures one { EventIsItsRow (state S.Store conn.now) }
{}
