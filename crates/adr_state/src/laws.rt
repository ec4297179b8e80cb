//! Laws of what is kept, over all evidence.
ghost use Rattle.adr_state.specs.Keys.{mirror_cmp, share_cmp, frozen_cmp, view_cmp};
ghost use Rattle.adr_state.specs.Laws.{MarksAreOrdered, JoinsAreGreatest, IsSameOrder};

use crate::keys::{FrozenKey, MirrorKey, ShareKey, ViewKey};

/// Nothing known is below every mark, a deletion is below none, and versions are in order between.
pub fn marks_are_ordered()
    ensures { MarksAreOrdered }
{}

/// Evidence raises what is known of its keys to at least what it tells, and lowers nothing.
pub fn joins_are_greatest()
    ensures { JoinsAreGreatest }
{}

/// The keys of the maps compare as the definitions have it, and no other way.
pub fn keys_have_their_orders()
    ensures mirror { IsSameOrder ⟦<MirrorKey as Ord>⟧.cmp mirror_cmp }
    ensures share { IsSameOrder ⟦<ShareKey as Ord>⟧.cmp share_cmp }
    ensures frozen { IsSameOrder ⟦<FrozenKey as Ord>⟧.cmp frozen_cmp }
    ensures view { IsSameOrder ⟦<ViewKey as Ord>⟧.cmp view_cmp }
{}
