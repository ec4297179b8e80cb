//! Maps under the keys of the view.
ghost use Rattle.std.specs.Prelude.{◌≡◌, OnOk};
ghost use Rattle.std.specs.Option.{option_copied};
ghost use Rattle.std.specs.BTreeMap.{insert_entry};
ghost use Rattle.std.specs.BTreeSet.{insert_key};
ghost use Rattle.adr_state.specs.Keys.{view_cmp, at};

use adr_state::ViewKey;
use adr_text::Table;
use std::alloc::AllocError;
use std::collections::BTreeSet;

/// What the map has at the key.
pub fn row_at<'m, V: Drop>(map: &'m Table<ViewKey, V>, key: &ViewKey) -> Option<&'m V>
    ensures { option_copied result ≡ at view_cmp key.now map.now }
{
    map.get(key)
}

/// Puts a row, in its place in the order of the keys.
pub(crate) fn put_row<V: Drop>(
    map: &mut Table<ViewKey, V>,
    key: ViewKey,
    value: V,
) -> Result<(), AllocError>
    ensures { OnOk result (map.new ≡ insert_entry view_cmp map.old key value) }
{
    map.put(key, value)
}

/// Adds a key, unless it is there.
pub(crate) fn add_key(keys: &mut BTreeSet<ViewKey>, key: ViewKey) -> Result<(), AllocError>
    ensures { OnOk result (keys.new.keys ≡ insert_key view_cmp keys.old.keys key) }
{
    keys.insert(key)?;
    Ok(())
}
