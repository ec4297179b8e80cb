//! Tests of what an operator writes and reads, of what no clause says: configurations and their networks, the lines of the
//! log, and why elements of a page are passed over.
#![tactic(auto)]

#[cfg(test)]
mod configurations;
#[cfg(test)]
mod lines;
#[cfg(test)]
mod networks;
#[cfg(test)]
mod reasons;
