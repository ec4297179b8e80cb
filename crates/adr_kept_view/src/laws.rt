//! Laws of the refresh of what tables keep.
ghost use Rattle.adr_kept_view.specs.Laws.{EventIsRefreshed, RollupIsRefreshed, ObjectIsRefreshed};

/// Where tables keep what is shown of an upstream event, what is written at one resource after another leaves what the
/// refresh of that source leaves, and tells its changes.
pub fn event_is_refreshed()
    ensures { EventIsRefreshed }
{}

/// So does what is written where the roll-up of an upstream event is refreshed.
pub fn rollup_is_refreshed()
    ensures { RollupIsRefreshed }
{}

/// So does what is written at the key of a program or of a report.
pub fn object_is_refreshed()
    ensures { ObjectIsRefreshed }
{}
