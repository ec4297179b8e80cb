//! Rows of the tables, lent one at a time by a borrowed connection, pages of those that are wanted, and pages of what is kept
//! of shown events.
#![tactic(auto)]

mod cut;
mod page;
mod picked;
mod shown;
mod stream;
mod whole;

pub use cut::{Wanting, lent_page, offer};
pub use page::shown_page;
pub use stream::{lend, next_of};
pub use whole::{lend_reports, lend_subs, lend_vens};
