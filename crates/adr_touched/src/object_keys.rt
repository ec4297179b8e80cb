//! The keys of programs and reports.
ghost use Rattle.std.specs.Prelude.{◌≡◌, map, IfOk};
ghost use Rattle.adr_state.specs.Mirror.{key_of};
ghost use Rattle.adr_kept_view.specs.declared.object.ObjectKey.TheVariants as object;

use adr_kept_view::ObjectKey;
use adr_objects::{Found, Number};
use adr_state::{MirrorKey, key_of};
use adr_text::{ObjectId, Rows};
use std::alloc::{AllocError, Global};

/// Those of the programs of these ids.
pub(crate) fn program_keys(
    alloc: Global,
    ids: Rows<ObjectId>,
) -> Result<Rows<ObjectKey>, AllocError>
    ensures { IfOk result (λ keys. keys ≡ map object.Program ids) }
{
    let mut keys = Rows::new(alloc);
    'ids: for id in ids.into_vec() {
        keys.push(ObjectKey::Program(id))?;
    }
    Ok(keys)
}

/// Those of the reports of these numbers.
pub(crate) fn report_keys(
    alloc: Global,
    numbers: Rows<Number>,
) -> Result<Rows<ObjectKey>, AllocError>
    ensures { IfOk result (λ keys. keys ≡ map object.Report numbers) }
{
    let mut keys = Rows::new(alloc);
    'numbers: for number in numbers.into_vec() {
        keys.push(ObjectKey::Report(number))?;
    }
    Ok(keys)
}

/// The upstream keys of what was found.
pub(crate) fn keys_of_founds(alloc: Global, founds: &[Found]) -> Result<Rows<MirrorKey>, AllocError>
    ensures { IfOk result (λ keys. keys ≡ map key_of founds.now) }
{
    let mut keys = Rows::new(alloc);
    'founds: for found in founds {
        keys.push(key_of(found)?)?;
    }
    Ok(keys)
}
