//! Laws of a state that the tables hold together with what is shown of it.
ghost use Rattle.sqlite.specs.Held.{state};
ghost use Rattle.adr_held.specs.Laws.{WhatIsHeldReadsBack, HeldKeepsShown, ShownStandsAlone, ShownIsHeld, EmptyIsHeld, UndrawnIsNew, EditsKeepVens, NoneIsLost, RightStays, RunsAreRight, LeftIsHeld, FirstLeftIsHeld};

use sqlite::{Alter, Connection};

/// A state that the tables hold is what they hold, read back: so they hold one at most.
pub fn what_is_held_reads_back<S: Alter>(conn: &Connection<S>)
    ensures { WhatIsHeldReadsBack (state S.Store conn.now) }
{}

/// Where the tables hold a state, its rows stand in order, and what is kept beside its base is what is shown of that.
pub fn held_keeps_shown<S: Alter>(conn: &Connection<S>)
    ensures { HeldKeepsShown (state S.Store conn.now) }
{}

/// Neither the numbers of the node nor its outbox are shown: what is kept of what is shown stays right as these change.
pub fn shown_stands_alone()
    ensures { ShownStandsAlone }
{}

/// Where tables keep what is shown of a base that they hold, beside the numbers, the stamps and the outbox of a state that is
/// right, they hold that state.
pub fn shown_is_held<S: Alter>(conn: &Connection<S>)
    ensures { ShownIsHeld (state S.Store conn.now) }
{}

/// Tables that keep nothing hold the state at first.
pub fn empty_is_held<S: Alter>(conn: &Connection<S>)
    ensures { EmptyIsHeld (state S.Store conn.now) }
{}

/// In a state that is right a number that was not drawn is of no resource, and of no entry that waits.
pub fn undrawn_is_new()
    ensures { UndrawnIsNew }
{}

/// So a resource that is there before and after an edit has its ven: a new one comes in the place of none.
pub fn edits_keep_vens()
    ensures { EditsKeepVens }
{}

/// And no entry lacks the subscription that it goes to.
pub fn none_is_lost()
    ensures { NoneIsLost }
{}

/// What the machine makes of a state that is right is right.
pub fn right_stays()
    ensures { RightStays }
{}

/// So whatever a run from an empty start reaches is right.
pub fn runs_are_right()
    ensures { RunsAreRight }
{}

/// A connection which is opened over trees that a crash left holds the state that these were left with.
pub fn left_is_held<S: Alter>(conn: &Connection<S>)
    ensures { LeftIsHeld (state S.Store conn.now) }
{
    let _ = conn.schema();
}

/// So does one over trees that were left in version 1: under that version.
pub fn first_left_is_held<S: Alter>(conn: &Connection<S>)
    ensures { FirstLeftIsHeld (state S.Store conn.now) }
{
    let _ = conn.schema();
}
