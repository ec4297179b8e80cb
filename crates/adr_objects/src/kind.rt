//! The kinds of object that the utility shows.

/// What an upstream object is (OpenADR 3.0, PROGRAM and EVENT). Programs stand before events.
#[derive(Clone, Copy, PartialEq, Eq, PartialOrd, Ord)]
pub enum Kind {
    Program,
    Event,
}
