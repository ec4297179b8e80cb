//! Laws over the texts of shown events and of roll-ups.
ghost use Rattle.adr_shown.specs.Laws.{ShownAsWritten, RollupsAsWritten, ShownTextsReadBack, ShownTextsDiffer, RollupTextsReadBack, RollupTextsDiffer};

/// What is kept of a shown event has the members of the event as it is written, less its id and its
/// stamps.
pub fn shown_events_are_kept_as_written()
    ensures { ShownAsWritten }
{}

/// What is kept of a roll-up has the members of the roll-up as it is written, less the name that it is
/// told under.
pub fn rollups_are_kept_as_written()
    ensures { RollupsAsWritten }
{}

/// The text of a shown event reads back as that event, for every event that the types admit.
pub fn shown_texts_read_back()
    ensures { ShownTextsReadBack }
{}

/// Two shown events with one text are the same, for all that the types admit.
pub fn shown_texts_differ()
    ensures { ShownTextsDiffer }
{}

/// The text of a roll-up reads back as that roll-up, with the id of its upstream event, for every
/// roll-up that the types admit.
pub fn rollup_texts_read_back()
    ensures { RollupTextsReadBack }
{}

/// Two roll-ups with one text are the same, and of one upstream event, for all that the types admit.
pub fn rollup_texts_differ()
    ensures { RollupTextsDiffer }
{}
