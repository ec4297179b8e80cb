//! What is shown of an upstream event, from the tables; and the tables of it kept up: what they keep of one upstream event is
//! compared with what is shown now, and the difference is written and answered, on a lent transaction.
#![tactic(auto)]

mod columns;
mod events;
mod found;
mod objects;
mod owner;
mod rolled_up;
mod rollups;
mod shown_rows;
mod stamps;
mod turn;

pub use events::{refresh, refresh_sharing};
pub use objects::{content_now, refresh_object, ven_now};
pub use rolled_up::rollup;
pub use rollups::{refresh_rollup, refresh_rollup_sharing};
pub use shown_rows::shown;
