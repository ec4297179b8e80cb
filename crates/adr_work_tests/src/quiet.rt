//! A handle that tells no log anything.
use log::sink::Discard;
use log::{LevelFilter, Logged};

/// The same handle, which tells no log anything.
pub fn quiet<R>(rt: R) -> Logged<R, Discard> {
    Logged::new(rt, LevelFilter::Off, Discard)
}
