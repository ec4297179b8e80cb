//! Small work over lists.
ghost use Rattle.std.specs.Prelude.{◌≡◌, ◌++◌, OnOk, OnErr};
ghost use Rattle.std.specs.Option.{option_to_list};

use std::alloc::AllocError;

/// Adds the item, if there is one.
pub fn push_some<T: Drop>(items: &mut Vec<T>, item: Option<T>) -> Result<(), AllocError>
    ensures ok { OnOk result (items.new.items ≡ items.old.items ++ option_to_list item) }
    ensures err { OnErr result (items.new.items ≡ items.old.items) }
{
    if let Some(item) = item {
        items.push(item)?;
    }
    Ok(())
}
