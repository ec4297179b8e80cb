//! Laws over what is read, whatever the bytes are.
ghost use Rattle.adr_schema.specs.Laws.{SetpointsAreSmall, IntervalsDiffer, UsageIsSmall, UsageIntervalsDiffer, PagesAddUp};

pub use adr_objects::laws::{
    canonical_texts_differ, canonical_texts_read_back, fractions_are_never_setpoints,
};

/// A setpoint of an event that is read has a magnitude of at most 10^12.
pub fn setpoints_are_small_when_read()
    ensures { SetpointsAreSmall }
{}

/// No two intervals of an event that is read have one id.
pub fn intervals_differ_when_read()
    ensures { IntervalsDiffer }
{}

/// A usage in a report that is read is a whole number of a magnitude of at most 10^12.
pub fn usage_is_small_when_read()
    ensures { UsageIsSmall }
{}

/// No two intervals of a report that is read have one id.
pub fn usage_intervals_differ_when_read()
    ensures { UsageIntervalsDiffer }
{}

/// Each element of a page is a version or is counted as none.
pub fn pages_add_up_to_their_length()
    ensures { PagesAddUp }
{}
