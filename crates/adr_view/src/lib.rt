//! What the node shows: the view that follows from what it keeps, the changes between two views, and
//! the stamps after them.
#![tactic(auto)]

mod all;
mod changes;
mod enrolled;
pub mod laws;
mod parts;
mod report;
mod rollup;
mod same;
mod sight;
mod sub;
mod view;
mod view_map;

pub use all::view_of;
pub use changes::{Change, Operation, changes_of, restamped};
pub use enrolled::{is_under, resource_at, resource_object, ven_at, ven_object, ven_with_id};
pub use report::{Reported, fits, kept_report};
pub use rollup::{
    Reporter, event_body, event_key, mark_at, reporters, rollup_at, rollup_for, rollup_of,
};
pub use sight::{Sight, owner_in, sees_owner, sees_ven};
pub use sub::{sub_in_sight, sub_object};
pub use view::{Content, View, carries, rows_for};
pub use view_map::row_at;
