//! Plays random edits, the same at each run, over tables in memory: behind each one it refreshes what the tables keep of the
//! events that the edit touched, and compares what is told then, and what is kept, with what the whole views before and
//! after give. Where something differs it says where, and its exit status says so too.
//!
//! `upkeep_rows costs PARTICIPANTS EVENTS [FILE]` measures what a refresh takes, over tables in memory or in a new file.
#![tactic(auto)]

mod choice;
mod compared;
mod costs;
mod counts;
mod dice;
mod edit;
mod held;
mod made;
mod objects;
mod pages;
mod play;
mod refreshed;
mod scene;
mod step;
mod touched;
mod visited;

use anyhow::{Result, bail};
use std::env;
use std::process::ExitCode;
use std::rt::Env;

/// The words behind the program's name.
fn words<R: Env + AllocGlobal>(rt: &R) -> Result<Vec<String>> {
    Ok(env::args(rt)?.skip(1).collect(rt.alloc())?)
}

fn status_of(is_same: bool) -> ExitCode {
    if is_same {
        ExitCode::SUCCESS
    } else {
        ExitCode::FAILURE
    }
}

fn main(rt: HostRuntime) -> Result<ExitCode> {
    let words = words(&rt)?;
    match words.as_slice() {
        [] => Ok(status_of(play::play(&rt)?)),
        [first, participants, events] if first.as_str() == "costs" => {
            costs::run(&rt, participants.as_str(), events.as_str(), None)?;
            Ok(ExitCode::SUCCESS)
        }
        [first, participants, events, file] if first.as_str() == "costs" => {
            costs::run(
                &rt,
                participants.as_str(),
                events.as_str(),
                Some(file.as_str()),
            )?;
            Ok(ExitCode::SUCCESS)
        }
        _ => bail!("usage: upkeep_rows [costs PARTICIPANTS EVENTS [FILE]]"),
    }
}
