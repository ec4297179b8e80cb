//! What is kept of what is shown, as columns.
ghost use Rattle.std.specs.Prelude.{◌≡◌, IfOk};

use adr_db::{RollupColumns, ShownColumns};
use adr_objects::{Number, Rollup, ShownEvent};
use adr_subscription::FreeText;
use std::alloc::{AllocError, Global};

/// What is kept of what a resource of this ven is shown, whose text this is.
pub(crate) fn shown_columns(
    alloc: Global,
    ven: Number,
    shown: &ShownEvent,
    text: &str,
) -> Result<ShownColumns, AllocError>
    ensures { IfOk result (λ columns. columns ≡ record { program = shown.now.program; ven = ven; ven_name = shown.now.ven_name; resource_name = shown.now.resource_name; body = text.now }) }
{
    Ok(ShownColumns {
        program: shown.program.copy(alloc)?,
        ven,
        ven_name: shown.ven_name.copy(alloc)?,
        resource_name: shown.resource_name.copy(alloc)?,
        body: FreeText::new(alloc, text)?,
    })
}

/// What is kept of a roll-up, whose text this is.
pub(crate) fn rollup_columns(
    alloc: Global,
    rollup: &Rollup,
    text: &str,
) -> Result<RollupColumns, AllocError>
    ensures { IfOk result (λ columns. columns ≡ record { program = rollup.now.program; body = text.now }) }
{
    Ok(RollupColumns {
        program: rollup.program.copy(alloc)?,
        body: FreeText::new(alloc, text)?,
    })
}
