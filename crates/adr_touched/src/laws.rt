//! Laws of the answers: they have all that an edit touches.
ghost use Rattle.adr_touched.specs.Laws.{AnswersSuffice, VenIsCovered, EvidenceIsCovered};

/// Where upstream keys have each event that an edit touches, and numbers each report, the sources of both have all that
/// it touches.
pub fn answers_suffice()
    ensures { AnswersSuffice }
{}

/// So the keys and the numbers that are answered for a ven have all that is touched where it goes.
pub fn ven_is_covered()
    ensures { VenIsCovered }
{}

/// The keys whose mark rose, which are answered where evidence joins the mirror, have all that it touches.
pub fn evidence_is_covered()
    ensures { EvidenceIsCovered }
{}
