//! Laws of ids, of programs that are shown, of reports that are listed, written and kept, of stamps, and of limits.
ghost use Rattle.adr_view_laws.specs.ReadIds.{IdsReadBack, RowsAreFoundByIds, EachIsFoundByItsId, ShownIdsReadBack};
ghost use Rattle.adr_view_laws.specs.ShownPrograms.{ProgramsAreShown, ProgramsAreShownAfterRuns};
ghost use Rattle.adr_view_laws.specs.ListedReports.{ReportsLackNone, ReportsLackNoneAfterRuns, ReportsAreSeenByTheirOwn, NoFilterAsksForAll};
ghost use Rattle.adr_view_laws.specs.KeptLimits.{LimitsAreKept, StatesFit};
ghost use Rattle.adr_view_laws.specs.WrittenReports.{WrittenReportsAreThere};
ghost use Rattle.adr_view_laws.specs.KeptReports.{ReportsStay};
ghost use Rattle.adr_view_laws.specs.ToldStamps.{StampsAreTold};

/// An id that is written of a number is read back as that number by the letter of its kind, exactly where the number is from
/// 1 to 9·10^15; by another letter it is read as none; and no other text is read as that number by its letter. So the ven,
/// the resource, the report or the subscription of such a number is found by the id that is written of it, and so is each
/// that there is after any run from an empty start of a node that draws no greater number. The id of what a resource is
/// shown of an upstream event is an object id, and both are read back from it.
pub fn ids_read_back()
    ensures ids { IdsReadBack }
    ensures rows { RowsAreFoundByIds }
    ensures run { EachIsFoundByItsId }
    ensures shown { ShownIdsReadBack }
{}

/// Where rows stand in order, the view has at the key of a program the name of the program of that upstream id, exactly where
/// it is live and its body was read. So it is after any run from an empty start.
pub fn programs_are_shown()
    ensures base { ProgramsAreShown }
    ensures run { ProgramsAreShownAfterRuns }
{}

/// Where what is shown is stamped and rows stand in order, a listing of reports is a page of all that are kept, in sight and
/// asked for, in the order of their numbers, each with what it says and its stamps: none lacks. So it is after any run
/// from an empty start. The operator sees each report, and a ven exactly those on its own resources. Without a filter
/// all in sight are asked for, which for the operator are all that are kept.
pub fn reports_lack_none()
    ensures state { ReportsLackNone }
    ensures run { ReportsLackNoneAfterRuns }
    ensures seen { ReportsAreSeenByTheirOwn }
    ensures unfiltered { NoFilterAsksForAll }
{}

/// After any run of a node from an empty start, vens, resources, shares, reports, subscriptions, upstream keys and entries
/// stand in the order of their keys, each once, and are at most as many as the limits of the node admit; the last
/// number that was drawn is not above its limit, and no entry was leased more often than that limit says. Where no limit
/// but `trail` is above its largest, the state is one that a desk may hold: `Image::of` takes it.
pub fn limits_are_kept()
    ensures own { LimitsAreKept }
    ensures largest { StatesFit }
{}

/// Whatever the state, the report that an accepted post or replacement is answered is there after it, under the number that
/// is answered, and says what is answered.
pub fn written_reports_are_there()
    ensures { WrittenReportsAreThere }
{}

/// After any run from an empty start and one more command, a report that was there is there as it was, unless that command
/// replaces or removes it by an id that is read as its number, or its resource is not there then.
pub fn reports_stay()
    ensures { ReportsStay }
{}

/// Whatever the state, of what is shown after an accepted command both stamps are of its moment where nothing was shown at
/// the key before; where something else was shown there, that had stamps, the modified stamp is of that moment and the
/// created one stays; and where the same was, that had stamps, both stay.
pub fn stamps_are_told()
    ensures { StampsAreTold }
{}
