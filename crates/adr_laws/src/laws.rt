//! Laws over whole runs.
ghost use Rattle.adr_laws.specs.Laws.{MirrorIsGreatest, PortfolioIsWhole, RowsStandInOrder, ParticipantsLackNone, ShownPartsSumUp, ShownPartsSumUpAfterRuns, OnlyLiveEventsAreShown, ObjectsLackNone, ShownIsTold, ReportsAreAnswered, ReportsAreAnsweredAfterRuns, NumbersAreOwn, RevisionsAreOwn, NumbersAreDrawnOnce, StampsAreOfTheView, StampsAreInTime, RunsAreOfTheStepsThatStand};
ghost use Rattle.adr_laws.specs.Entries.{EntriesAreCounted, EntriesHaveNumbers, EntriesAreNumberedOnce, LeasedAreFirst, EntriesLeaveInOrder, OthersLeaveWithTheirSubscription};
ghost use Rattle.adr_laws.specs.Enrolment.{EnrolmentShowsNothing};
ghost use Rattle.adr_laws.specs.Reported.{ReportsAreWrittenAsSent, ReportsAreLastWritten, RemovedReportsAreGone, ReportsNeverReturn, LatestIsLastReported, RollupsAreOfTheLast};

use adr_state::Limits;

/// After any run from an empty start, the mirror at a key is the greatest mark in all accepted evidence
/// for it, whatever was lost, repeated or reordered.
pub fn mirror_is_greatest()
    ensures { MirrorIsGreatest }
{}

/// After any run from an empty start, each resource and each subscription of a ven has its ven, and each share its
/// resource, so nothing is left of what was removed, and no report is left on a resource that is not there; each
/// share has a weight from 1 to 1,000,000; and no two vens have one name, nor two resources.
pub fn portfolio_is_whole()
    ensures { PortfolioIsWhole }
{}

/// After any run from an empty start, the upstream keys stand in their order, each once, and so do the
/// resources and the reports in that of their numbers.
pub fn rows_stand_in_order()
    ensures { RowsStandInOrder }
{}

/// Where the portfolio is whole, the participants of an event are exactly the resources with a share in its
/// program and of a name that it is for, and of one that is frozen those for which a weight is kept, in their order,
/// each with its weight.
pub fn participants_lack_none()
    ensures { ParticipantsLackNone }
{}

/// The parts of a setpoint that stand in what is shown, one at the key of each resource that takes part, sum to
/// it, where one takes part; an interval with no setpoint shows no part, and nobody else is shown the event. It
/// is so of every whole base whose rows stand in order, and after any run from an empty start.
pub fn shown_parts_sum_up()
    ensures base { ShownPartsSumUp }
    ensures run { ShownPartsSumUpAfterRuns }
{}

/// Where upstream keys stand in order, an event is shown only where it is live upstream. A report that names one which is
/// not stays shown.
pub fn only_live_events_are_shown()
    ensures { OnlyLiveEventsAreShown }
{}

/// After any run from an empty start, each ven, each resource, each report and each subscription has a number of its
/// own, from 1 up to the serial, and each report a revision of its own, which is its number or was drawn later; and
/// whatever commands follow, the serial never falls and no number is drawn again.
pub fn numbers_are_drawn_once()
    ensures own { NumbersAreOwn }
    ensures revisions { RevisionsAreOwn }
    ensures once { NumbersAreDrawnOnce }
{}

/// After any run from an empty start, the stamps have exactly the keys of what is shown, in their order, each
/// once; and where the moments of the run never fall, nothing shown was modified before it was created.
pub fn stamps_are_of_the_view()
    ensures view { StampsAreOfTheView }
    ensures time { StampsAreInTime }
{}

/// Where what is shown is stamped, the programs and the events in sight are exactly those at all their keys that
/// are in sight, in order, each with its stamps; and what is shown at a key is told, and never as if it were not there,
/// but for roll-ups, which are no objects and are told without stamps.
pub fn objects_lack_none()
    ensures listed { ObjectsLackNone }
    ensures one { ShownIsTold }
{}

/// Where what is shown is stamped and rows stand in order, a command whose edit is accepted is answered, wherever there
/// are numbers and room for what is told of it: no report that is kept or that goes is refused for want of stamps.
/// So it is after any run from an empty start.
pub fn reports_are_answered()
    ensures state { ReportsAreAnswered }
    ensures run { ReportsAreAnsweredAfterRuns }
{}

/// A post that is accepted writes one report, under a new number, and a replacement one under the number of its id;
/// it says what was sent, and is on the upstream event and the resource of the shown event that was named.
/// After any run from an empty start, each report that is there says what was posted or replaced last under its
/// number. The value that counts for an upstream event, a participant and an interval is that of the report that was
/// posted or replaced last, of those that are there still as they were written and have a value for it; where none of
/// them has one, none counts. So a report that was replaced or removed counts no more, the order is that in which
/// posts and replacements were accepted, and each interval of a roll-up that is shown is the sum of these values, one
/// at most of each participant, and names the participants that have none.
pub fn the_last_reported_counts()
    ensures sent { ReportsAreWrittenAsSent }
    ensures reports { ReportsAreLastWritten }
    ensures values { LatestIsLastReported }
    ensures rollups { RollupsAreOfTheLast }
{}

/// After any run from an empty start, a report is not there when its removal is accepted. And where a report was there
/// and then is not, whether it was removed or went with its resource, it is never there again, whatever commands follow.
pub fn reports_never_return()
    ensures removed { RemovedReportsAreGone }
    ensures gone { ReportsNeverReturn }
{}

/// After any run of a node with these limits from an empty start, as many entries were made as were sent, given up and
/// dropped, and wait; and no more were made than numbers were drawn, so no count has stopped short.
pub fn entries_are_counted(limits: Limits)
    ensures { EntriesAreCounted limits }
{}

/// After any run from an empty start, the entries that wait have numbers from 1 up to the serial, which rise, so no two
/// have one, and which are of no ven, no resource, no report and no subscription; and whatever commands follow, no
/// number that is drawn by then is that of an entry that was not there: so what a command makes has greater numbers
/// than all that were drawn before it.
pub fn entries_are_numbered_once()
    ensures own { EntriesHaveNumbers }
    ensures once { EntriesAreNumberedOnce }
{}

/// After any run from an empty start, an entry that has a lease, be it one that has ended, is the first that waits of
/// its destination. So one that a command about entries takes away, which was sent or is given up, was the first of its
/// destination: the entries of a destination leave in the order of their numbers. And where another command takes one
/// away, the subscription that it goes to is not there then.
pub fn entries_leave_in_order()
    ensures leased { LeasedAreFirst }
    ensures order { EntriesLeaveInOrder }
    ensures others { OthersLeaveWithTheirSubscription }
{}

/// After any run from an empty start, a new ven and a new resource change nothing of what is shown: nothing is told of
/// them, and they are never refused for want of room in the outbox, though `OutboxFull` stands in their lists.
pub fn enrolment_shows_nothing()
    ensures { EnrolmentShowsNothing }
{}

/// Of whatever a run over a desk answers, the answers that stand are the machine's over the commands that
/// stand, and the state is where those lead.
pub fn runs_are_of_the_steps_that_stand()
    ensures { RunsAreOfTheStepsThatStand }
{}
