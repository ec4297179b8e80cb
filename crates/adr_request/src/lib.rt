//! A request, read from bytes that come in pieces (RFC 9112, RFC 6750).
#![tactic(auto)]

mod authorization;
mod body;
mod head;
mod head_front;
mod laws;
mod request;

pub use head::{Head, MOST_BODY};
pub use laws::one_reading;
pub use request::{HttpRequest, read_request};
