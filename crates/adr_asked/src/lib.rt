//! What is asked of the machine, by lines and by requests alike, how it is taken on a desk, and the reply to it.
#![tactic(auto)]

mod asked;
mod filter;
mod query;
mod replies;
mod request;
mod taking;

pub use asked::Asked;
pub use replies::reply_to;
pub use request::asked_of;
pub use taking::{take_asked, without};
