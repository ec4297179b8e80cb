//! The paths that are served.
ghost use Rattle.std.specs.Prelude.{◌≡◌};
ghost use Rattle.adr_routes.specs.Paths.{place_of};

use crate::place::{One, Place, Root, Two};
use adr_text::ObjectId;

/// A path that there is.
#[derive(Drop)]
pub enum Path {
    /// With no id.
    At(Root),
    /// Of what has this id.
    Of(One, ObjectId),
    /// Under two ids, as they come in its text.
    Under(Two, ObjectId, ObjectId),
}

/// Its kind.
pub fn place_of(path: &Path) -> Place
    ensures { result ≡ place_of path.now }
{
    match path {
        Path::At(root) => Place::Root(*root),
        Path::Of(one, _) => Place::One(*one),
        Path::Under(two, _, _) => Place::Two(*two),
    }
}
