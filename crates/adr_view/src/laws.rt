//! Laws of what is shown.
ghost use Rattle.adr_view.specs.Laws.{SameContentsAreEqual, PartsSumUp, ShownIsOfTheView, ReportsAndRollupsAreShown, LatestIsOfGreatestRevision, ReportsAreOnTheShown, RollupsCountEachOnce, FreezingLeavesAll, FreezingKeepsWhoTakesPart, FrozenIsKept};

/// Two contents count as the same exactly where they are equal, so no change is missed or made up.
pub fn same_contents_are_equal()
    ensures { SameContentsAreEqual }
{}

/// The parts of an interval sum to its setpoint.
pub fn parts_sum_up()
    ensures { PartsSumUp }
{}

/// What is shown of an event is all that the view has at keys of it, where rows stand in order.
pub fn shown_is_of_the_view()
    ensures { ShownIsOfTheView }
{}

/// Where rows stand in order, what the view has at the key of a report is what the report of that number says,
/// and at the key of a roll-up the roll-up of that upstream event; it has nothing there where there is none.
pub fn reports_and_rollups_are_shown()
    ensures { ReportsAndRollupsAreShown }
{}

/// The latest value is that of the report of greatest revision among those that have one.
pub fn latest_is_of_greatest_revision()
    ensures { LatestIsOfGreatestRevision }
{}

/// What a report may be on, of an upstream event and a resource that is there, is exactly what the view has at
/// their key, where rows stand in order.
pub fn reports_are_on_the_shown()
    ensures { ReportsAreOnTheShown }
{}

/// In each interval of a roll-up the sum is that of the latest values, one of each who has one, and the
/// names are exactly those of the others, in the order of bytes and each once. Where rows stand in order, no report of an event
/// is of two of its participants, so no value is counted twice.
pub fn rollups_count_each_once()
    ensures { RollupsCountEachOnce }
{}

/// Freezing an event changes who takes part in no live event, no weight, and nothing of what is shown.
pub fn freezing_leaves_all()
    ensures { FreezingLeavesAll }
{}

/// Where rows stand in order, the pairs of those who take part in an event keep them: so freezing it is refused only
/// where there is no room for the pairs.
pub fn freezing_keeps_who_takes_part()
    ensures { FreezingKeepsWhoTakesPart }
{}

/// Who takes part in a frozen event, and with which weights, stays whatever body it has and whatever share is put or goes;
/// and freezing it again changes nothing.
pub fn frozen_is_kept()
    ensures { FrozenIsKept }
{}
