//! One step or look of a book under its lock: the one place where threads take it.
#![tactic(auto)]

mod call;
mod clock;
mod halt;
mod in_book;
mod steps;
mod telling;
mod under_lock;

pub use call::Call;
pub use clock::Clock;
pub use halt::halts;
pub use in_book::take_in_book;
pub use steps::Steps;
pub use under_lock::take_under_lock;
