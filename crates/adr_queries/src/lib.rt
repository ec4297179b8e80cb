//! What the machine is asked, who asks and how much that one sees, and what is told.
#![tactic(auto)]

mod answer;
mod event;
mod filter;
mod frozen;
mod page;
mod program;
mod query;
mod replies;
mod reported;
mod resource;
mod role;
mod scan;
mod share;
mod shown;
mod sight;
mod subscribed;
mod ven;

pub use answer::{Answer, Object};
pub use filter::{
    EventFilter, ReportFilter, TargetFilter, is_about, is_from, is_of, wanted_of, wanted_reports,
    wanted_subs, wants,
};
pub use frozen::frozen_object;
pub use page::page_of;
pub use query::{Page, Query};
pub use replies::reply;
pub use reported::rollup_told;
pub use role::{Role, is_operator};
pub use shown::{object_at, objects_seen, told};
pub use sight::{owner_of, sight_of};
