//! The order of what is known of an upstream key.
ghost use Rattle.std.specs.Prelude.{◌≡◌, IfOk};
ghost use Rattle.std.specs.Option.{option_copied};
ghost use Rattle.adr_state.specs.Marks.{is_below, is_version_below};

use crate::base::Mark;
use adr_objects::{Body, canonical};
use adr_text::Moment;
use std::alloc::{AllocError, Global};

/// Whether what is known is less than the mark.
pub(crate) fn is_below(alloc: Global, known: Option<&Mark>, mark: &Mark) -> Result<bool, AllocError>
    ensures { IfOk result (λ below. below ≡ is_below (option_copied known.entry) mark.now) }
{
    let Some(known) = known else {
        return Ok(true);
    };
    match (known, mark) {
        (Mark::Dead, _) => Ok(false),
        (Mark::Live(_, _), Mark::Dead) => Ok(true),
        (Mark::Live(m, a), Mark::Live(n, b)) => is_version_below(alloc, *m, a, *n, b),
    }
}

/// Whether the first version is less than the second. Only versions of one moment need their texts.
fn is_version_below(
    alloc: Global,
    m: Moment,
    a: &Body,
    n: Moment,
    b: &Body,
) -> Result<bool, AllocError>
    ensures { IfOk result (λ below. below ≡ is_version_below m a.now n b.now) }
{
    if m < n {
        return Ok(true);
    }
    if m != n {
        return Ok(false);
    }
    let a = canonical(alloc, a)?;
    let b = canonical(alloc, b)?;
    Ok(a.as_str() < b.as_str())
}
