//! Replies, and their bytes (RFC 9112, RFC 7807).
#![tactic(auto)]

mod fields;
mod problem;
mod rendering;
mod reply;

pub use problem::Problem;
pub use rendering::{MEMORY_REPLY, memory_reply, render};
pub use reply::{Extra, Reply};
