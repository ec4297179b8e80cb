//! What the refresh of an upstream event finds.
use adr_db::ShownColumns;
use adr_objects::{Number, ShownEvent, Stamps};
use adr_text::Table;

/// Of an upstream event, by the numbers of the resources: what tables keep, its stamps, and what is shown now.
pub struct Found {
    pub kept: Table<Number, ShownColumns>,
    pub stamps: Table<Number, Stamps>,
    pub shown: Table<Number, ShownEvent>,
}

impl Drop for Found {
    fn drop(self) {
        let Found {
            kept: _,
            stamps: _,
            shown: _,
        } = self;
    }
}
