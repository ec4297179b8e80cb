//! Whose subscriptions may hear of a change.
use adr_objects::Number;

/// Whose subscriptions may hear of a change: nobody's, the operator's and those of one ven, or all.
#[derive(Clone, Copy)]
pub enum Hearers {
    Nobody,
    Of(Number),
    Everyone,
}
