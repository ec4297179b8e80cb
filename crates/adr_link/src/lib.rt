//! The node as a client of its utility and of those that it notifies: requests as bytes, replies read from bytes that come
//! in pieces, and what comes of each (RFC 9112, RFC 6750; OpenADR 3.0).
#![tactic(auto)]

mod address;
mod found;
mod laws;
mod message;
mod outcome;
mod reply;
mod reply_body;
mod reply_front;
mod reply_head;
mod target;
mod upstream;

pub use found::{Asked, Finding, found_of};
pub use laws::one_reading;
pub use outcome::{Outcome, outcome_of};
pub use reply::{HttpReply, LinkFault, read_reply};
pub use reply_head::{MOST_BODY, ReplyHead};
pub use target::is_for_utility;
pub use upstream::Upstream;
