//! Tests of the book among threads and of the work in them, of what no clause says: that senders work side by side and
//! outside the lock, that each job is settled by its own command, that a round asks and tells what it should, and each
//! public call once with ample memory. Whatever the schedule, each ends by itself and checks the same.
#![tactic(auto)]

#[cfg(test)]
mod clock;
#[cfg(test)]
mod day;
#[cfg(test)]
mod dead;
#[cfg(test)]
mod desk;
#[cfg(test)]
mod enrolling;
#[cfg(test)]
mod failing;
#[cfg(test)]
mod fetches;
#[cfg(test)]
mod halting;
#[cfg(test)]
mod held;
#[cfg(test)]
mod idle;
#[cfg(test)]
mod many;
#[cfg(test)]
mod moments;
#[cfg(test)]
mod passes;
#[cfg(test)]
mod peer;
#[cfg(test)]
mod polled;
#[cfg(test)]
mod queue;
#[cfg(test)]
mod quiet;
#[cfg(test)]
mod reporting;
#[cfg(test)]
mod steps;
#[cfg(test)]
mod stopped;
