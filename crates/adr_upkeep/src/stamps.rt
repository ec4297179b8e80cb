//! The stamps of what differs.
ghost use Rattle.std.specs.Prelude.{◌≡◌};
ghost use Rattle.std.specs.Option.{option_copied};
ghost use Rattle.adr_kept_view.specs.Changes.{put_stamps};

use adr_objects::Stamps;
use adr_state::{fresh, modified_at};
use adr_text::Moment;

/// The stamps of what differs now: when it was created stays.
pub(crate) fn stamps_put(now: Moment, stamps: Option<&Stamps>) -> Stamps
    ensures { result ≡ put_stamps now (option_copied stamps.entry) }
{
    match stamps {
        Some(stamps) => modified_at(now, *stamps),
        None => fresh(now),
    }
}
