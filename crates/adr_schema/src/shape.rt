//! What a value is not that is not read for its shape. No clause says which of the words is told.
use crate::flaw::Shape;
use crate::place::Part;
use adr_text::{Moment, member};
use arrayvec::ArrayString;
use serde_json::Value;

// A text that is no id, or no name, of at most so many bytes.
fn shape_of_text(text: &str, most: usize) -> Shape {
    if text.is_empty() {
        Shape::Empty
    } else if text.len() > most {
        Shape::Longer(most)
    } else {
        Shape::OtherCharacters
    }
}

/// A member that has to be there, and be a text of at most so many bytes.
pub(crate) fn shape_of_member(value: &Value, name: &str, most: usize) -> Shape {
    match member(value, name) {
        Some(found) => match found.as_str() {
            Some(text) => shape_of_text(text, most),
            None => Shape::NotText,
        },
        None => Shape::Missing,
    }
}

// A text that is no moment, of which each has at most 64 bytes.
fn shape_of_moment(text: &str) -> Shape {
    let mut with_offset: ArrayString<64> = ArrayString::new();
    if with_offset.try_push_str(text).is_ok()
        && with_offset.try_push_str("Z").is_ok()
        && Moment::read(with_offset.as_str()).is_ok()
    {
        Shape::NoOffset
    } else {
        Shape::NotMoment
    }
}

// Whether a member is absent, or such a text as a period has.
fn is_period_text(member: Option<&Value>) -> bool {
    match member {
        Some(found) => found.as_str().is_some_and(|text| text.len() <= 64),
        None => true,
    }
}

// A value that is no period.
fn shape_of_period(value: &Value) -> Shape {
    let start = member(value, "start");
    if start.is_none() {
        Shape::NoStart
    } else if !is_period_text(start) {
        Shape::Start
    } else if !is_period_text(member(value, "duration")) {
        Shape::Duration
    } else {
        Shape::RandomizeStart
    }
}

/// A member that is not read.
pub(crate) fn shape_of(part: Part, value: &Value) -> Shape {
    let most = match part {
        // an interval's, which is a number
        Part::Id | Part::Priority | Part::Setpoint => return Shape::NotNumber,
        Part::IntervalPeriod => return shape_of_period(value),
        Part::EventName => 256,
        _ => 128,
    };
    match (part, value.as_str()) {
        (Part::ModificationDateTime, Some(text)) => shape_of_moment(text),
        (_, Some(text)) => shape_of_text(text, most),
        (_, None) => Shape::NotText,
    }
}
