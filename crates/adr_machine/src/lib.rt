//! The machine: what each command means, and a desk that keeps the state as plain maps.
#![tactic(auto)]

mod command;
mod commit;
mod copies;
mod decided;
mod deliver;
mod desk;
mod edit;
mod outcome;
mod plain;
mod runs;
mod subscribe;
pub mod told;

pub use adr_queries::{
    Answer, EventFilter, Object, Page, Query, ReportFilter, Role, TargetFilter, is_operator,
    objects_seen, page_of, reply, rollup_told, sight_of, wanted_of, wanted_reports,
};
pub use adr_state::{Image, Limits, MOST_NUMBER, Settings, number_in, number_within};
pub use adr_view::Sight;
pub use command::Command;
pub use desk::Desk;
pub use outcome::{Outcome, answered_by};
pub use plain::PlainDesk;
pub use runs::run;
pub use subscribe::settled_copy;
