//! Items in their order, each once.
ghost use Rattle.std.specs.Prelude.{◌≡◌, IfOk};
ghost use Rattle.std.specs.List.{filter_map};
ghost use Rattle.std.specs.Ordering.{is_eq};
ghost use Rattle.adr_state.specs.Keys.{kind_cmp};
ghost use Rattle.adr_touched.specs.Touched.{set_of, id_at, ids_of};

use adr_objects::Kind;
use adr_state::{MirrorKey, push_some};
use adr_text::{ObjectId, Rows};
use std::alloc::{AllocError, Global};
use std::collections::BTreeSet;

// The set of the items.
fn set_of<T: Ord + Drop>(alloc: Global, items: Rows<T>) -> Result<BTreeSet<T>, AllocError>
    ensures { IfOk result (λ set. set.keys ≡ set_of T.cmp items) }
{
    let mut set = BTreeSet::new(alloc);
    'items: for item in items.into_vec() {
        set.insert(item)?;
    }
    Ok(set)
}

/// The items in their order, each once.
pub(crate) fn in_order<T: Ord + Drop>(alloc: Global, items: Rows<T>) -> Result<Rows<T>, AllocError>
    ensures { IfOk result (λ sorted. sorted ≡ set_of T.cmp items) }
{
    let set = set_of(alloc, items)?;
    let mut sorted = Rows::new(alloc);
    'items: for item in set {
        sorted.push(item)?;
    }
    Ok(sorted)
}

// Whether a kind is this one.
fn is_of(kind: Kind, other: Kind) -> bool
    ensures { result ≡ is_eq (kind_cmp kind other) }
{
    match kind {
        Kind::Program => matches!(other, Kind::Program),
        Kind::Event => matches!(other, Kind::Event),
    }
}

// The id of a key, where it is of this kind.
fn id_at(alloc: Global, kind: Kind, key: &MirrorKey) -> Result<Option<ObjectId>, AllocError>
    ensures { IfOk result (λ id. id ≡ id_at kind key.now) }
{
    if is_of(kind, key.kind) {
        Ok(Some(key.id.copy(alloc)?))
    } else {
        Ok(None)
    }
}

// The ids of the keys of this kind, in the order of the keys.
fn ids_among(alloc: Global, kind: Kind, keys: &[MirrorKey]) -> Result<Rows<ObjectId>, AllocError>
    ensures { IfOk result (λ ids. ids ≡ filter_map (id_at kind) keys.now) }
{
    let mut ids = Vec::new(alloc);
    'keys: for key in keys {
        push_some(&mut ids, id_at(alloc, kind, key)?)?;
    }
    Ok(Rows::from_vec(ids))
}

/// The ids of the keys of this kind, in order, each once.
pub(crate) fn ids_of(
    alloc: Global,
    kind: Kind,
    keys: &[MirrorKey],
) -> Result<Rows<ObjectId>, AllocError>
    ensures { IfOk result (λ ids. ids ≡ ids_of kind keys.now) }
{
    let ids = ids_among(alloc, kind, keys)?;
    in_order(alloc, ids)
}
