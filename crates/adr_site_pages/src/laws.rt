//! Laws of what is told of the vens, the resources and the subscriptions that are kept.
ghost use Rattle.adr_site_pages.specs.Laws.{VensAreTheirRows, ResourcesAreTheirRows, SubsAreTheirRows};

/// A page of the vens that are in sight in a state is told by the rows that are kept of it: those in sight, in the order of
/// their numbers.
pub fn vens_are_their_rows()
    ensures { VensAreTheirRows }
{}

/// A page of the resources of a ven is told by the rows that are kept of the state: those of that ven, in the order of their
/// numbers.
pub fn resources_are_their_rows()
    ensures { ResourcesAreTheirRows }
{}

/// A page of the subscriptions that are in sight in a state and wanted is told by the rows that are kept of it: those in sight
/// that are wanted, by what their bodies name, in the order of their numbers.
pub fn subs_are_their_rows()
    ensures { SubsAreTheirRows }
{}
