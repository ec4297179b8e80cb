//! A desk under one lock: a trail of accepted commands, passes that count them, and receipts that the trail bears out.
#![tactic(auto)]

mod book;
mod kept;
mod office;
mod rebase;
mod recorded;
pub mod replay;
mod trail;
mod unrecorded;

pub use kept::{AuditFault, Book, MOST_TURNS, Pass, Receipt};
pub use office::Office;
pub use recorded::RecordedTrail;
pub use trail::Trail;
pub use unrecorded::UnrecordedTrail;
