//! Subscriptions: what one asks for, as it is posted and as it is kept, and what it serves.
#![tactic(auto)]

mod address;
mod bounded;
mod free_text;
mod item;
mod kept;
mod kept_sub;
pub mod laws;
mod object;
mod read;
mod settle;
mod subscription;
mod target;
mod token;
mod words;
mod write;

pub use address::{callable_address, callback_address};
pub use bounded::Bounded;
pub use free_text::FreeText;
pub use item::{SubscriptionItem, item_for};
pub use kept::{kept_text, read_kept};
pub use kept_sub::Sub;
pub use object::SubObject;
pub use read::read_sub;
pub use settle::settled;
pub use subscription::SubIn;
pub use target::{Target, is_targeted};
pub use token::BearerToken;
pub use words::{ObjectKind, OperationKind};
