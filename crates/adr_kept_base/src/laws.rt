//! Laws of tables that keep what is shown of a base.
ghost use Rattle.adr_kept_base.specs.Laws.{KeptAsItChanges, KeptOnceRefreshed, KeptOfNothing};

/// Where tables keep what is shown of a base, they keep it still once the base has changed, under owners that are those
/// of the base before and then, where a resource that stays has the ven that it had: so that the refresh finds what goes.
pub fn kept_as_it_changes()
    ensures { KeptAsItChanges }
{}

/// Where tables keep what is shown then, under such owners, they keep it as what is shown of that base.
pub fn kept_once_refreshed()
    ensures { KeptOnceRefreshed }
{}

/// Empty tables keep what is shown where nothing is.
pub fn kept_of_nothing()
    ensures { KeptOfNothing }
{}
