//! What tables keep of what is shown, and how a refresh changes it: the definitions, and the law that ties them to the
//! refresh of a source.
#![tactic(auto)]

mod change;
mod found;
pub mod laws;
mod object;

pub use change::{RollupChange, ShownChange};
pub use found::Found;
pub use object::{ObjectChange, ObjectKey, OldObject};
