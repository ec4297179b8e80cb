//! The answers to queries of one object, and to short listings, each from its own rows in the tables, on a lent transaction.
#![tactic(auto)]

mod of_frozen;
mod of_program;
mod of_programs;
mod of_report;
mod of_resource;
mod of_share;
mod of_sub;
mod of_ven;
mod sight;
mod told;

pub use of_frozen::frozen;
pub use of_program::program;
pub use of_programs::programs;
pub use of_report::report;
pub use of_resource::resource;
pub use of_share::shares;
pub use of_sub::sub;
pub use of_ven::ven;
pub use sight::sight_in;
