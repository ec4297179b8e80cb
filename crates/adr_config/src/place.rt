//! Where a value of a configuration stands.
use crate::limits::NAMES;
use std::fmt;

/// Where a value of a configuration stands. Items are counted from 0.
#[derive(Clone, Copy, Debug)]
pub(crate) enum Place {
    /// A line and a column of the text, lines counted from 1, columns in bytes.
    Text(usize, usize),
    Listen,
    Upstream,
    UpstreamToken,
    Callbacks,
    /// An item of `callbacks`.
    Callback(usize),
    ClientName,
    Limits,
    /// The limit of the name that stands there among the names of limits.
    Limit(usize),
    Poll,
    Workers,
    Store,
    Tokens,
    /// An item of `tokens`.
    Item(usize),
    /// The token of such an item.
    Token(usize),
    /// Its role.
    Role(usize),
    /// Its id of a ven.
    VenId(usize),
    StopAfter,
    MassDeletion,
    Log,
}

/// As a path: `poll`, `limits.keys`, `callbacks[0]`, `tokens[2].venID`.
impl fmt::Display for Place {
    fn fmt<W: fmt::Write>(&self, f: &mut fmt::Formatter<W>) -> fmt::Result {
        match self {
            Place::Text(line, column) => write!(f, "line {line}, column {column}"),
            Place::Listen => write!(f, "listen"),
            Place::Upstream => write!(f, "upstream"),
            Place::UpstreamToken => write!(f, "upstreamToken"),
            Place::Callbacks => write!(f, "callbacks"),
            Place::Callback(i) => write!(f, "callbacks[{i}]"),
            Place::ClientName => write!(f, "clientName"),
            Place::Limits => write!(f, "limits"),
            Place::Limit(i) => match NAMES.get(*i) {
                Some(name) => write!(f, "limits.{name}"),
                None => write!(f, "limits"),
            },
            Place::Poll => write!(f, "poll"),
            Place::Workers => write!(f, "workers"),
            Place::Store => write!(f, "store"),
            Place::Tokens => write!(f, "tokens"),
            Place::Item(i) => write!(f, "tokens[{i}]"),
            Place::Token(i) => write!(f, "tokens[{i}].token"),
            Place::Role(i) => write!(f, "tokens[{i}].role"),
            Place::VenId(i) => write!(f, "tokens[{i}].venID"),
            Place::StopAfter => write!(f, "stopAfter"),
            Place::MassDeletion => write!(f, "massDeletion"),
            Place::Log => write!(f, "log"),
        }
    }
}
