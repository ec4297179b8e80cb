//! Evidence, and its join into the mirror.
ghost use Rattle.std.specs.Prelude.{◌≡◌, OnOk, IfOk};
ghost use Rattle.std.specs.Option.{option_copied};
ghost use Rattle.std.specs.BTreeMap.{insert_entry};
ghost use Rattle.adr_state.specs.Keys.{mirror_cmp, at};
ghost use Rattle.adr_state.specs.Mirror.{key_of, mark_of, raised, joined, evidence_of};

use crate::base::Mark;
use crate::keys::MirrorKey;
use crate::marks::is_below;
use adr_objects::Found;
use adr_text::Table;
use std::alloc::{AllocError, Global};

/// The key of what was found.
pub fn key_of(found: &Found) -> Result<MirrorKey, AllocError>
    ensures { IfOk result (λ key. key ≡ key_of found.now) }
{
    Ok(MirrorKey {
        kind: found.kind,
        id: found.id.as_id().clone()?,
    })
}

/// The mark that a version tells: it is live.
pub fn mark_of(found: &Found) -> Result<Mark, AllocError>
    ensures { IfOk result (λ mark. mark ≡ mark_of found.now) }
{
    Ok(Mark::Live(found.moment, found.body.clone()?))
}

/// What the mirror has at the key.
fn mark_at<'m>(mirror: &'m Table<MirrorKey, Mark>, key: &MirrorKey) -> Option<&'m Mark>
    ensures { option_copied result ≡ at mirror_cmp key.now mirror.now }
{
    mirror.get(key)
}

fn put_mark(
    mirror: &mut Table<MirrorKey, Mark>,
    key: MirrorKey,
    mark: Mark,
) -> Result<(), AllocError>
    ensures { OnOk result (mirror.new ≡ insert_entry mirror_cmp mirror.old key mark) }
{
    mirror.put(key, mark)
}

/// Raises the mark of a key to the given one, unless it is as great. Where memory runs out the mirror is
/// left anyhow.
pub fn raise(
    alloc: Global,
    mirror: &mut Table<MirrorKey, Mark>,
    key: MirrorKey,
    mark: Mark,
) -> Result<(), AllocError>
    ensures { OnOk result (mirror.new ≡ raised mirror.old (key, mark)) }
{
    if is_below(alloc, mark_at(mirror, &key), &mark)? {
        put_mark(mirror, key, mark)?;
    }
    Ok(())
}

/// Joins the mirror with what was found: each key keeps the greatest of the mark that it had and those
/// that came for it. Where memory runs out the mirror is left anyhow.
pub fn join(
    alloc: Global,
    mirror: &mut Table<MirrorKey, Mark>,
    founds: &[Found],
) -> Result<(), AllocError>
    ensures { OnOk result (mirror.new ≡ joined mirror.old (evidence_of founds.now)) }
{
    for found in founds {
        raise(alloc, mirror, key_of(found)?, mark_of(found)?)?;
    }
    Ok(())
}
