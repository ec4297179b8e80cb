//! The law of catch-up, over whole runs.
ghost use Rattle.adr_catch_up.specs.Laws.{AndItCatchesUp, CatchUp, EachPremiseIsNeeded, PremisesCanBeMet, ScanEndsAreAnswered};
ghost use Rattle.adr_catch_up.specs.Needed.{AreThePremises};

/// Where all evidence that was ever accepted from an empty start is honest, the live part of the mirror is after a quiet
/// scan exactly what the upstream has, each object with its present version, whatever was lost, repeated or reordered
/// before.
///
/// An honest upstream gives each later version of an object a later moment, and what it deleted never returns. A quiet
/// scan goes from a `ScanBegin` over the first `ScanEnd` behind it to the last probe's answer. In it the upstream doesn't
/// change; pages show present versions alone; each present object is shown by a page or is live as the scan ends; each key
/// that the `ScanEnd` answers is probed, and answered with its present version or as gone; no other evidence is
/// accepted after the `ScanEnd`; and no page and no such answer is refused.
pub fn quiet_scans_catch_up()
    ensures { CatchUp }
{}

/// Where no other came since the `ScanBegin`, a `ScanEnd` is answered by keys: each live one was shown by a page since then
/// or is among them, so none is cut off.
pub fn scan_ends_are_answered()
    ensures { ScanEndsAreAnswered }
{}

/// There is a quiet scan: a page shows one of two programs, and the other, of which there was a notification, is probed
/// and found gone. After it the mirror has the first alone.
pub fn premises_can_be_met()
    ensures met { PremisesCanBeMet }
    ensures caught_up { AndItCatchesUp }
{}

/// Each premise of the law is needed: of some run all the others hold, and it does not catch up.
pub fn each_premise_is_needed()
    ensures all { AreThePremises }
    ensures needed { EachPremiseIsNeeded }
{}
