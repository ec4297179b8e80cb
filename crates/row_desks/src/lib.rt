//! What programs over rows share: what a row is, desks over disks in memory, of which one may stop, a desk that is told lines
//! and requests as bytes, and whether two desks hold the same state.
#![tactic(auto)]

mod disks;
mod portfolio;
mod row;
mod same;
mod same_outbox;
mod served;

pub use disks::{
    DiskDesk, Disks, Stop, bytes_of, closed, disks_with, is_kept, new_desk, new_disks, open,
    opened_again,
};
pub use row::{Place, Row, read_row};
pub use same::holds;
pub use served::{Front, serve, take_lines};
