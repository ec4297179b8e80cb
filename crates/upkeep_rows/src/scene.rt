//! What stands before an edit.
use crate::held::Held;
use adr_objects::Number;
use adr_state::Limits;
use adr_text::Moment;

/// What an edit is chosen and made by.
#[derive(Clone, Copy)]
pub struct Scene<'h> {
    pub limits: &'h Limits,
    pub now: Moment,
    /// The number that is drawn for it.
    pub number: Number,
    /// What the tables hold before it.
    pub before: &'h Held,
    /// The number of the first event that isn't gone.
    pub first_event: u64,
}
