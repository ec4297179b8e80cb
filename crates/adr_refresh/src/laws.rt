//! Laws of the refresh: what is refreshed source by source is what whole views give.
ghost use Rattle.adr_refresh.specs.Laws.{ViewIsOfSources, OthersAreShownAsBefore, RefreshedIsAsComputed, TouchedIsEnough, FreezingTouchesNothing, SharesTouchNoFrozen, StampsAreGivenBack, ChangesStandInTurn};

/// Where rows stand in order, what the view has at a key is what is shown there of its source.
pub fn view_is_of_sources()
    ensures { ViewIsOfSources }
{}

/// A change of the base leaves what is shown of each source that it does not touch.
pub fn others_are_shown_as_before()
    ensures { OthersAreShownAsBefore }
{}

/// Where rows stand in order and what is shown has stamps, sources that are refreshed one after another, among which
/// each is that is not shown as before, leave what a comparison of whole views leaves: what is kept, the changes
/// and the stamps; whatever their order, where one comes twice, and where there are more.
pub fn refreshed_is_as_computed()
    ensures { RefreshedIsAsComputed }
{}

/// So it is where each source is among them that a change of the base touches.
pub fn touched_is_enough()
    ensures { TouchedIsEnough }
{}

/// The freezing of an event touches nothing.
pub fn freezing_touches_nothing()
    ensures { FreezingTouchesNothing }
{}

/// A share that is put or goes touches no event that is frozen.
pub fn shares_touch_no_frozen()
    ensures { SharesTouchNoFrozen }
{}

/// After that exactly what is shown has stamps again.
pub fn stamps_are_given_back()
    ensures { StampsAreGivenBack }
{}

/// Sources in their order, each once, among which each is that is not shown as before, tell in turn exactly the changes
/// between the whole views, in the order of the keys.
pub fn changes_stand_in_turn()
    ensures { ChangesStandInTurn }
{}
