//! Whether two commands, or two answers, are the same.
#![tactic(auto)]

mod answers;
mod commands;
mod delivery_commands;
mod jobs;
mod lists;
mod mirror_commands;
mod operator_commands;
mod posted;
mod quantities;
mod reports;
mod roles;
mod sameness;
mod shown;
mod site_commands;
mod subscriptions;
mod texts;
mod upstream;
mod words;

pub use sameness::Same;
