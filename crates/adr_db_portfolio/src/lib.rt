//! Vens, resources, shares, frozen ones too, reports and subscriptions in the tables, one typed call per statement, on a lent transaction.
#![tactic(auto)]

mod found;
mod frozen;
mod frozen_share;
mod participant;
mod report;
mod report_value;
mod resource;
mod share;
mod sharers;
mod sub;
mod ven;

pub use found::{report_with_id, resource_with_id, sub_with_id, ven_at, ven_with_id};
pub use frozen::{is_frozen, put_frozen};
pub use frozen_share::{put_frozen_share, read_frozen_in, read_frozen_of, remove_frozen_shares};
pub use participant::Sharers;
pub use report::{
    put_report, read_columns, read_report, read_reports_of, read_reports_on, remove_report,
};
pub use report_value::read_values;
pub use resource::{
    put_resource, read_resource, read_resources_named, read_resources_of, remove_resource,
};
pub use share::{put_share, read_share, read_shares, read_shares_of, remove_share};
pub use sharers::read_sharers;
pub use sub::{put_sub, read_sub, read_subs, read_subs_of, remove_sub};
pub use ven::{put_ven, read_ven, read_vens_named, remove_ven};
