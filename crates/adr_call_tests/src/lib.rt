//! Tests of the crates below, of what no clause says: each public call with ample memory, reads and
//! writes that fail, and lists at their limits. Tables of texts are data of the program `worked_rows`.
#![tactic(auto)]

#[cfg(test)]
mod counted;
#[cfg(test)]
mod desks;
#[cfg(test)]
mod inspected;
#[cfg(test)]
mod machine;
#[cfg(test)]
mod objects;
#[cfg(test)]
mod scripts;
#[cfg(test)]
mod shown;
#[cfg(test)]
mod splits;
#[cfg(test)]
mod subscriptions;
#[cfg(test)]
mod texts;
