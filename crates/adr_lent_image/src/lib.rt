//! The whole state of the tables, each table read row by row as its rows are lent, one table after another.
#![tactic(auto)]

mod frozen;
mod gathering;
mod groups;
mod image;
mod intervals;
mod marks;
mod numbers;
mod reports;
mod sites;
mod stamps;
mod subs;
mod waits;

pub use frozen::{lend_frozen, lend_frozen_shares, lent_frozen, lent_frozen_shares};
pub use gathering::{Gathering, gather_all, lent_table, read_each};
pub use groups::Waiting;
pub use image::{image_of, lent_base, lent_outbox, lent_portfolio};
pub use intervals::{lend_intervals, lent_intervals};
pub use marks::{lend_marks, lend_polled, lent_marks, lent_polled};
pub use numbers::{lend_meta, lent_meta};
pub use reports::lent_reports;
pub use sites::{lend_resources, lend_shares, lent_resources, lent_shares, lent_vens};
pub use stamps::{lend_stamps, lent_stamps};
pub use subs::lent_subs;
pub use waits::{lend_entries, lend_remotes, lent_entries, lent_remotes};
