//! Laws of what is told of the texts that are kept of shown events.
ghost use Rattle.adr_event_text.specs.Laws.{KeptEventsAsWritten, KeptNoticesAsWritten};

/// The text of a shown event that is kept, and that of what was done to it, are those of the event as it is written: an object
/// of its members, its id and its stamps, in the order of their names.
pub fn kept_events_are_told_as_written()
    ensures events { KeptEventsAsWritten }
    ensures notices { KeptNoticesAsWritten }
{}
