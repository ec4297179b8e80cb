//! What is kept for an event that is frozen, whatever commands follow.
ghost use Rattle.adr_frozen_laws.specs.FrozenRuns.{FrozenStay, KeptTakePart, FreezesAreKept};

/// After any run from an empty start and whatever commands follow, an event that was frozen is frozen still; the weight that
/// was kept in it for a resource is kept as long as that is there, and no other weight is kept in it. So no edit of shares, of
/// names or of targets moves a weight, nor does a newer version, and one is let go only with its resource.
///
/// Who takes part in an event that is frozen are, after any run, those for whom a weight is kept, each with it, in the order of
/// the resources' numbers, whatever the event says. So from a freeze that was accepted on, whatever follows, those are the
/// pairs that were answered whose resources are there still.
pub fn frozen_stay()
    ensures kept { FrozenStay }
    ensures participants { KeptTakePart }
    ensures answered { FreezesAreKept }
{}
