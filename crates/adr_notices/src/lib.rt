//! What is told of a change of what is shown, and to whom; and what becomes of the outbox as a command is committed.
#![tactic(auto)]

mod commit;
mod entries;
pub mod laws;
mod made;
mod notice;
mod rollup;
mod shown;

pub use commit::outbox_after;
pub use entries::{entries_of, entry_for, matching};
pub use made::{entries_made, entries_of_change};
pub use notice::{EventNames, Notice, notice_of, operation_kind};
pub use rollup::rollup_entry;
pub use shown::Shown;
