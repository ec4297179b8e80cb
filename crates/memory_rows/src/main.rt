//! Plays a row line by line where memory may be refused in the midst of any of them. A line that is answered with want of
//! memory, or not at all, has either changed nothing, and is then told again and has to be answered as with ample memory;
//! or it was taken, and its answer could not be told. Any other answer that is not that of the row is wrong.
//!
//!     memory_rows FILE DESK WAY
//!
//! It plays the row of a file on the desk over plain maps (`plain`) or over tables (`tables`), each line as a line of a
//! script (`lines`), or those of the operator, of sites and of the utility as requests in bytes (`requests`). It refuses no
//! memory itself: `runs/memory` has it run where the first allocation is refused, then the second, and so on.
#![tactic(auto)]

mod asker;
mod exchange;
mod played;
mod request;

use crate::asker::{Asker, grants};
use crate::exchange::exchanges;
use crate::played::{Counts, play};
use adr_desk::MemoryDesk;
use adr_http::{Roles, Routes};
use adr_machine::{Desk, PlainDesk};
use adr_state::Settings;
use adr_text::Name;
use anyhow::{Result, bail};
use row_desks::{Row, read_row};
use std::alloc::Global;
use std::process::ExitCode;
use std::rt::{Env, Files};
use std::{env, fs};
use table_files::status_of;

/// The name under which the desks report.
const CLIENT: &str = "aggregator";

fn settings(alloc: Global, row: &Row) -> Result<Settings> {
    let client = Name::new(alloc, CLIENT)?;
    let limits = row.limits;
    Ok(Settings { client, limits })
}

/// Plays a row on a desk, and counts what came of its lines.
fn play_on<D: Desk>(alloc: Global, desk: &mut D, row: &Row, by_requests: bool) -> Result<Counts> {
    let roles = Roles::new(grants(alloc)?)?;
    let routes = Routes::new(alloc)?;
    let asker = Asker {
        roles: &roles,
        routes: &routes,
        by_requests,
    };
    play(alloc, desk, &asker, &exchanges(alloc, row)?)
}

fn play_row(alloc: Global, row: &Row, desk: &str, way: &str) -> Result<Counts> {
    let by_requests = match way {
        "lines" => false,
        "requests" => true,
        _ => bail!("no such way: {way}"),
    };
    match desk {
        "plain" => {
            let mut desk = PlainDesk::new(alloc, settings(alloc, row)?);
            play_on(alloc, &mut desk, row, by_requests)
        }
        "tables" => {
            let mut desk = MemoryDesk::open_memory(alloc, settings(alloc, row)?)?;
            play_on(alloc, &mut desk, row, by_requests)
        }
        _ => bail!("no such desk: {desk}"),
    }
}

/// Plays the row of a file, says how it went, and answers whether no line went wrong.
fn run_file<R: Files + Print + AllocGlobal>(
    rt: &R,
    file: &str,
    desk: &str,
    way: &str,
) -> Result<bool> {
    let alloc = rt.alloc();
    let row = read_row(alloc, &fs::read(rt, file)?)?;
    let Counts {
        ample,
        again,
        taken,
        wrong,
    } = play_row(alloc, &row, desk, way)?;
    let name = &row.name;
    println!(rt;
        "row {name} {desk} {way}: ample {ample}, again {again}, taken {taken}, wrong {wrong}"
    )?;
    Ok(wrong == 0)
}

fn run_all<R: Env + Files + Print + AllocGlobal>(rt: &R) -> Result<bool> {
    let mut words = Vec::new(rt.alloc());
    for word in env::args(rt)?.skip(1) {
        words.push(word)?;
    }
    match words.as_slice() {
        [file, desk, way] => run_file(rt, file.as_str(), desk.as_str(), way.as_str()),
        _ => bail!("usage: memory_rows FILE DESK WAY"),
    }
}

fn main(rt: HostRuntime) -> Result<ExitCode> {
    Ok(status_of(run_all(&rt)?))
}
