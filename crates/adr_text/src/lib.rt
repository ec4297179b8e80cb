//! Texts, moments, refusals, JSON fields, lists and maps that contracts see as lists, and counted
//! reads and writes, each with its exact contract.
#![tactic(auto)]

mod counts;
mod fault;
mod field;
mod from_json;
mod id;
mod kth;
mod moment;
mod name;
mod number;
mod refusal;
mod rows;
mod source;
mod table;
mod to_json;
mod wrapped;

pub use counts::Counts;
pub use fault::Fault;
pub use field::{list, member, objects, read_value, text, whole};
pub use from_json::{FromJson, all, maybe, needed};
pub use id::ObjectId;
pub use kth::KthFails;
pub use moment::Moment;
pub use name::Name;
pub use number::Whole;
pub use refusal::Refusal;
pub use rows::Rows;
pub use source::{IoFault, Sink, Source};
pub use table::Table;
pub use to_json::{ToJson, array, put, put_maybe};
pub use wrapped::{Reader, Writer};
