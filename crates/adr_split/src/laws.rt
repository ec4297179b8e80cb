//! Laws of the fair split, over every setpoint and all weights.
ghost use Rattle.adr_split.specs.Laws.{FairSplitFits, OneListFits};

/// The computed split is fair.
pub fn fair_split_fits()
    ensures { FairSplitFits }
{}

/// A list that is a fair split is the computed one, so exactly one list fits.
pub fn one_list_fits()
    ensures { OneListFits }
{}
