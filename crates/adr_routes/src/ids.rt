//! The ids in a path, and the path that they make.
ghost use Rattle.std.specs.Prelude.{◌≡◌, map, IfOk};
ghost use Rattle.adr_routes.specs.Words.{id_from};
ghost use Rattle.adr_routes.specs.Paths.{one_id, two_ids, path_at};

use crate::path::Path;
use crate::place::Place;
use crate::words::id_from;
use adr_text::ObjectId;
use std::alloc::{AllocError, Global};

/// The first name, where it is an id.
fn one_id(alloc: Global, names: &[&[u8]]) -> Result<Option<ObjectId>, AllocError>
    ensures { IfOk result (λ id. id ≡ one_id (map id_from (map (λ s. s.now) names.now))) }
{
    match names.first() {
        Some(name) => id_from(alloc, name),
        None => Ok(None),
    }
}

/// The first two names, where both are ids.
fn two_ids(alloc: Global, names: &[&[u8]]) -> Result<Option<(ObjectId, ObjectId)>, AllocError>
    ensures { IfOk result (λ ids. ids ≡ two_ids (map id_from (map (λ s. s.now) names.now))) }
{
    let Some((first, rest)) = names.split_first() else {
        return Ok(None);
    };
    let Some(first) = id_from(alloc, first)? else {
        return Ok(None);
    };
    match one_id(alloc, rest)? {
        Some(second) => Ok(Some((first, second))),
        None => Ok(None),
    }
}

/// The path of this kind with these names, where they are ids.
pub(crate) fn path_at(
    alloc: Global,
    place: Place,
    names: &[&[u8]],
) -> Result<Option<Path>, AllocError>
    ensures { IfOk result (λ path. path ≡ path_at place (map id_from (map (λ s. s.now) names.now))) }
{
    match place {
        Place::Root(root) => Ok(Some(Path::At(root))),
        Place::One(one) => Ok(one_id(alloc, names)?.map(|id| Path::Of(one, id))),
        Place::Two(two) => Ok(two_ids(alloc, names)?.map(|(a, b)| Path::Under(two, a, b))),
    }
}
