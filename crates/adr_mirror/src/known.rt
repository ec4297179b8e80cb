//! What is kept of a key, compared with a mark.
ghost use Rattle.std.specs.Prelude.{◌≡◌, nat_lt, ◌==◌, ◌&&◌, ◌||◌, Option, Some, option_map, string_bytes, IfOk};
ghost use Rattle.adr_objects.specs.Canonical.{canonical_text};
ghost use Rattle.adr_state.specs.declared.base.Mark.{Mark as Marks};
ghost use Rattle.adr_state.specs.Marks.{is_text_below, is_below};
ghost use Rattle.adr_db.specs.Rows.{columns_row, mark_columns};
ghost use Rattle.adr_mirror.specs.Raises.{rise_of};

use crate::raise::Rise;
use adr_db::MarkColumns;
use adr_objects::{Body, canonical};
use adr_state::Mark;
use adr_text::Moment;
use std::alloc::{AllocError, Global};

// Only versions of one moment need their texts.
fn is_version_below(
    alloc: Global,
    known: &MarkColumns,
    moment: Moment,
    body: &Body,
) -> Result<bool, AllocError>
    ensures { IfOk result (λ below. below ≡ (nat_lt known.now.moment moment || (known.now.moment == moment && is_text_below (string_bytes known.now.body) (canonical_text body.now)))) }
{
    let nanos = moment.nanos();
    if known.moment < nanos {
        return Ok(true);
    }
    if known.moment != nanos {
        return Ok(false);
    }
    let text = canonical(alloc, body)?;
    Ok(known.body.as_str() < text.as_str())
}

/// Whether what is kept is less than the mark.
fn is_below(alloc: Global, known: &MarkColumns, mark: &Mark) -> Result<bool, AllocError>
    ensures { IfOk result (λ below. (m : Marks) → columns_row known.now ≡ mark_columns m → below ≡ is_below (Some m) mark.now) }
{
    if known.state != 1 {
        return Ok(false);
    }
    match mark {
        Mark::Live(moment, body) => is_version_below(alloc, known, *moment, body),
        Mark::Dead => Ok(true),
    }
}

/// What the mark makes of what is kept.
pub(crate) fn rise_of(
    alloc: Global,
    known: &Option<MarkColumns>,
    mark: &Mark,
) -> Result<Rise, AllocError>
    ensures { IfOk result (λ rise. (m : Option Marks) → option_map columns_row known.now ≡ option_map mark_columns m → rise ≡ rise_of m mark.now) }
{
    let Some(known) = known else {
        return Ok(Rise::First);
    };
    if is_below(alloc, known, mark)? {
        return Ok(Rise::Higher);
    }
    Ok(Rise::Same)
}
