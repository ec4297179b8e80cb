//! Laws of what is told as tables are refreshed, source by source.
ghost use Rattle.adr_told.specs.Commits.{VisitsJoin, OthersStayUntouched, NoneIsTouched, VisitedIsAsComputed};
ghost use Rattle.adr_told.specs.Laws.{EventIsToldAsWhole, RollupIsToldAsWhole, ObjectIsToldAsWhole, WholeIsToldInTurn, EventsAreToldAsWhole, RollupsAreToldAsWhole, ObjectsAreToldAsWhole};

/// The changes that a refresh of an upstream event answers are told as the machine tells those of that source.
pub fn event_is_told_as_whole()
    ensures { EventIsToldAsWhole }
{}

/// So is the change of a roll-up.
pub fn rollup_is_told_as_whole()
    ensures { RollupIsToldAsWhole }
{}

/// So is the change of a program or of a report.
pub fn object_is_told_as_whole()
    ensures { ObjectIsToldAsWhole }
{}

/// What the machine tells of a command is what it tells of the sources that differ, in their order.
pub fn whole_is_told_in_turn()
    ensures { WholeIsToldInTurn }
{}

/// What a visit of events tells is what the machine tells of these sources, and what it leaves is what their refresh leaves.
pub fn events_are_told_as_whole()
    ensures { EventsAreToldAsWhole }
{}

/// So it is of roll-ups.
pub fn rollups_are_told_as_whole()
    ensures { RollupsAreToldAsWhole }
{}

/// And of programs and reports.
pub fn objects_are_told_as_whole()
    ensures { ObjectsAreToldAsWhole }
{}

/// Before the first visit no source is touched.
pub fn none_is_touched()
    ensures { NoneIsTouched }
{}

/// Nor is one that stands behind those that were visited.
pub fn others_stay_untouched()
    ensures { OthersStayUntouched }
{}

/// A visit that begins with what another left is, with that one, one visit.
pub fn visits_join()
    ensures { VisitsJoin }
{}

/// A visit of all sources that differ, in their order, tells and leaves what comparing the whole views gives, and the tables
/// keep what is shown then.
pub fn visited_is_as_computed()
    ensures { VisitedIsAsComputed }
{}
