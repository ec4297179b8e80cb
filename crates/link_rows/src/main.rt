//! Runs the tables of the client's side: each file of the folder that it is given, or where it runs, whose name ends in
//! `.link`. A case is a reply as bytes, which come all at once, one by one, and in pieces of at most 7, with what it is
//! read as and what it means to who asked; or a request that is asked for, with its bytes or the refusal. A table is
//! made of these lines:
//!
//! - `# TEXT` says nothing;
//! - `link NAME` names the table;
//! - `cut everywhere` asks for every cut of a reply into two pieces too;
//! - `case NAME` begins a case.
//!
//! A reply:
//!
//! - `comes TEXT` is a part of the bytes that come;
//! - `reads STATUS` is the status that is read, and `body TEXT` a part of the body;
//! - `faults bad reply` and `faults too large` say that none is read;
//! - `to QUESTION` is what was asked: `page programs`, `page events`, `probe programs ID`, `probe events ID`,
//!   `POST upstream`, `PUT upstream` or `POST callback`;
//! - `means MEANING` is what the reply means to it: `page FOUND SKIPPED`, `version ID`, `gone`, `failure`, `sent`,
//!   `sent ID`, `failed` or `failed forget`.
//!
//! A request:
//!
//! - `address TEXT` is the utility's address, and `token TEXT` its token;
//! - `ask QUESTION` is what is asked for: as above, where a page has a number behind it, how many are passed over;
//! - `target TEXT` is where a job goes, `shows TEXT` its token, and `sends TEXT` a part of its body;
//! - `writes TEXT` is a part of the request's bytes;
//! - `refused upstream` and `refused job` say that there is none.
//!
//! In a TEXT `\r`, `\n`, `\t`, `\\` and `\xHH` are bytes, and `\{N:TEXT}` is so many copies of a text.
#![tactic(auto)]

mod asking;
mod case;
mod file;
mod meaning;
mod question;
mod reading;
mod run;

use crate::file::File;
use anyhow::Result;
use std::process::ExitCode;
use std::rt::{Env, Files};
use table_files::{folder, run_each, status_of};

fn run_all<R: Env + Files + Print + AllocGlobal + Clone + Drop>(rt: &R) -> Result<bool> {
    let folder = folder(rt)?;
    run_each::<File, R>(rt, folder.as_str(), ".link")
}

fn main(rt: HostRuntime) -> Result<ExitCode> {
    Ok(status_of(run_all(&rt)?))
}
