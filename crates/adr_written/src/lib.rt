//! How objects are written: what the node shows, and what it tells of it.
#![tactic(auto)]

mod ids;
mod write;
mod write_fields;
mod write_frozen_shares;
mod write_notices;
mod write_outbox;
mod write_reports;
mod write_subs;

pub use ids::{report_id, resource_id, shown_id, sub_id, ven_id};
pub use write::{write_problem, write_program, write_resource, write_share, write_ven};
pub use write_fields::{one_payload, put_text, valued, with_values};
pub use write_frozen_shares::write_frozen;
pub use write_notices::{write_program_notice, write_report_notice};
pub use write_outbox::write_counts;
pub use write_reports::{resources, write_report, write_rollup};
pub use write_subs::write_sub;
