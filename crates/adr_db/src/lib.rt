//! The tables of the node: what they keep, how their rows read, and the numbers of the node, on a lent transaction.
#![tactic(auto)]

pub mod cells;
mod known;
pub mod laws;
mod meta;
mod migration;
mod outbox;
pub mod reading;
mod report_columns;
mod schema;
mod shown;
mod sites;
mod stamps;
pub mod statement;
mod sub;
mod version;

pub use known::MarkColumns;
pub use meta::{Meta, put_meta, read_meta};
pub use migration::{create_v1, migrate, upgrade};
pub use outbox::RemoteRow;
pub use report_columns::ReportColumns;
pub use schema::create;
pub use shown::{RollupColumns, ShownColumns, ShownKey};
pub use version::Version;
