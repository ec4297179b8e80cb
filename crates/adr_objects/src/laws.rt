//! Laws over setpoints and over canonical texts.
ghost use Rattle.adr_objects.specs.Laws.{FractionsAreRefused, CanonicalTextsReadBack, CanonicalTextsDiffer};

/// A number with a point or an exponent is never a setpoint, also where its value is whole.
pub fn fractions_are_never_setpoints()
    ensures { FractionsAreRefused }
{}

/// The canonical text of a body reads back as that body, for every body that the types admit.
pub fn canonical_texts_read_back()
    ensures { CanonicalTextsReadBack }
{}

/// Two bodies with one canonical text are the same.
pub fn canonical_texts_differ()
    ensures { CanonicalTextsDiffer }
{}
