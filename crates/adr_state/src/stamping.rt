//! How vens and resources are stamped.
ghost use Rattle.std.specs.Prelude.{◌≡◌};
ghost use Rattle.adr_state.specs.Stamping.{fresh, modified_at};

use adr_objects::Stamps;
use adr_text::Moment;

/// Both stamps of what is new.
pub fn fresh(now: Moment) -> Stamps
    ensures { result ≡ fresh now }
{
    Stamps {
        created: now,
        modified: now,
    }
}

/// What is put again keeps when it was created.
pub fn modified_at(now: Moment, stamps: Stamps) -> Stamps
    ensures { result ≡ modified_at now stamps }
{
    Stamps {
        created: stamps.created,
        modified: now,
    }
}
