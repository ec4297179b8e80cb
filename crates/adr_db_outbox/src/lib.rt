//! The entries that wait and the utility's ids of reports in the tables, one typed call per statement, on a lent transaction.
#![tactic(auto)]

mod heads;
mod lost;
mod next;
mod outbox;
mod remote;

pub use lost::read_lost;
pub use next::read_next;
pub use outbox::{put_entry, read_entry, remove_entry};
pub use remote::{put_remote, read_remote, remove_remote};
