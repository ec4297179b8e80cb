//! Runs the tables of requests and replies as bytes: each file of the folder that it is given, or where it runs, whose
//! name ends in `.bytes`. Each case is served on new desks, one over plain maps and one over tables, from a source that
//! gives its bytes all at once, one by one, and in pieces of at most 7; the reply is compared byte by byte. The lines
//! of a script behind the request tell whether its step was taken, once or not at all. All at once it is served too on a
//! desk over disks in memory, which hold then what the desk held. A table is made of these lines:
//!
//! - `# TEXT` says nothing;
//! - `bytes NAME` names the table;
//! - `cut everywhere` asks for every cut into two pieces too, as row 17 does;
//! - `token TOKEN ROLE` grants a token a role: `operator`, `utility` or `ven:ID`;
//! - `before LINE` is a line of a script that is taken before each case;
//! - `case NAME` begins a case;
//! - `send TEXT` is a part of the request's bytes;
//! - `reply TEXT` is a part of the bytes that are to be written;
//! - `then LINE` is a line of a script that is taken behind the request;
//! - `prints LINE` is what the line before it prints.
//!
//! In a TEXT `\r`, `\n`, `\t`, `\\` and `\xHH` are bytes, and `\{N:TEXT}` is so many copies of a text.
#![tactic(auto)]

mod case;
mod file;
mod grants;
mod run;

use crate::file::File;
use anyhow::Result;
use std::process::ExitCode;
use std::rt::{Env, Files};
use table_files::{folder, run_each, status_of};

fn run_all<R: Env + Files + Print + AllocGlobal + Clone + Drop>(rt: &R) -> Result<bool> {
    let folder = folder(rt)?;
    run_each::<File, R>(rt, folder.as_str(), ".bytes")
}

fn main(rt: HostRuntime) -> Result<ExitCode> {
    Ok(status_of(run_all(&rt)?))
}
