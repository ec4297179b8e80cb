//! Laws of what is told.
ghost use Rattle.adr_notices.specs.Laws.{EachMatchIsToldOnce, ToldIsInSight};

/// The entries of a change go to exactly the subscriptions that match, each of which gets one, in the order of their
/// numbers.
pub fn each_match_is_told_once()
    ensures { EachMatchIsToldOnce }
{}

/// A subscription's owner sees what is told of what the view has at a key exactly where that owner sees it by asking,
/// where rows stand in order.
pub fn told_is_in_sight()
    ensures { ToldIsInSight }
{}
