//! Numbers and moments.
use crate::sameness::Same;
use adr_objects::{Number, Priority, Setpoint};
use adr_text::Moment;

impl Same for u32 {
    fn is_same(&self, other: &u32) -> bool {
        *self == *other
    }
}

impl Same for u64 {
    fn is_same(&self, other: &u64) -> bool {
        *self == *other
    }
}

impl Same for i32 {
    fn is_same(&self, other: &i32) -> bool {
        *self == *other
    }
}

impl Same for i64 {
    fn is_same(&self, other: &i64) -> bool {
        *self == *other
    }
}

impl Same for Moment {
    fn is_same(&self, other: &Moment) -> bool {
        self == other
    }
}

impl Same for Number {
    fn is_same(&self, other: &Number) -> bool {
        self == other
    }
}

impl Same for Setpoint {
    fn is_same(&self, other: &Setpoint) -> bool {
        self == other
    }
}

impl Same for Priority {
    fn is_same(&self, other: &Priority) -> bool {
        self == other
    }
}
