//! HTTP/1.x messages as bytes that come in pieces (RFC 9112): what requests and replies have in common.
#![tactic(auto)]

mod ahead;
mod chunk_line;
mod chunks;
mod codings;
mod cuts;
mod end;
mod extent;
mod fields;
mod front;
mod length;
mod lines;
mod output;
mod trailers;
mod written;

pub use ahead::Ahead;
pub use chunks::read_chunks;
pub use cuts::{behind, cut, parts};
pub use end::{MessageFault, ReadEnd};
pub use extent::{Extent, extent_of};
pub use fields::{is_same_letters, values};
pub use front::{Front, MOST_FIELDS, MOST_FRONT, NeverFound, await_front};
pub use length::read_length;
pub use lines::has_empty_line;
pub use output::write_all;
pub use written::{put_length, put_line};
