//! What a command touched is visited and told, one kind after another, once its edit is made: with that it is committed as the
//! machine commits it, and no more is looked at.
#![tactic(auto)]

mod commit;

pub use commit::commit_touched;
