//! Runs the worked rows: each row file of the folder that it is given, or where it runs, is a script with the lines
//! that it has to print. Over which desks it is run, and which rows are tests in other crates, stands in
//! `data/README.md`; what the lines of a row file `NAME.row` are, at `read_row` of `row_desks`.
//!
//! A table of texts is `NAME.texts`, of these lines:
//!
//! - `# TEXT` and an empty line say nothing;
//! - `texts NAME` names the table;
//! - `read READER` names what reads the texts that follow;
//! - `around TEXT` is what stands around each text that follows, with `$` in place of the text;
//! - `> TEXT` is a text;
//! - `< ANSWER` is what the reader makes of the text before.
//!
//! Who takes part in an event is read from tables of its own, by number and weight, since no line of a script asks for
//! that. The calls on reports and roll-ups are made on such tables too, without a desk. Files that a desk is not to take are
//! made by the program itself.
#![tactic(auto)]

mod answers;
mod kept_files;
mod old_files;
mod participants;
mod play;
mod reader;
mod report;
mod site_reports;
mod stops;
mod texts;
mod twin;
mod whole_run;

use crate::kept_files::run_kept_files;
use crate::old_files::run_old_files;
use crate::participants::run_participants;
use crate::play::play;
use crate::report::{report, report_both, report_part};
use crate::site_reports::run_reports;
use crate::stops::run_stops;
use crate::texts::{Texts, read_texts, run_texts};
use crate::twin::Twin;
use crate::whole_run::take_alike;
use adr_desk::MemoryDesk;
use adr_machine::{Desk, PlainDesk};
use adr_state::{Limits, Settings};
use adr_text::Name;
use anyhow::Result;
use row_desks::{DiskDesk, Row, Stop, is_kept, new_desk, read_row};
use std::alloc::Global;
use std::process::ExitCode;
use std::rt::{Env, Files};
use table_files::{Table, folder, run_each, status_of};

/// The name under which the desks report.
const CLIENT: &str = "aggregator";

pub(crate) fn settings_of(alloc: Global, limits: Limits) -> Result<Settings> {
    let client = Name::new(alloc, CLIENT)?;
    Ok(Settings { client, limits })
}

/// What a desk is set to for a row.
pub(crate) fn settings(alloc: Global, row: &Row) -> Result<Settings> {
    settings_of(alloc, row.limits)
}

fn run_plain<R: Print + AllocGlobal>(rt: &R, row: &Row) -> Result<bool> {
    let alloc = rt.alloc();
    let mut desk = PlainDesk::new(alloc, settings(alloc, row)?);
    let played = play(alloc, &mut desk, row);
    report(rt, "plain", row, &played)
}

/// Runs a row on the desk over tables alone.
fn run_tables<R: Print + AllocGlobal>(rt: &R, row: &Row) -> Result<bool> {
    let alloc = rt.alloc();
    let mut desk = MemoryDesk::open_memory(alloc, settings(alloc, row)?)?;
    let played = play(alloc, &mut desk, row);
    report(rt, "tables", row, &played)
}

/// Whether the commands of a row, told as a list, lead each desk to where the row led.
fn is_list_alike(alloc: Global, row: &Row, desk: &mut Twin) -> Result<bool> {
    let image = desk.image()?;
    let alike = take_alike(
        alloc,
        settings(alloc, row)?,
        settings(alloc, row)?,
        desk.told.as_slice(),
        &image,
    )?;
    Ok(alike && !desk.lost)
}

/// Runs a row on both desks side by side, and compares what they answer and hold after each call; then tells each of two more its
/// commands as a list.
fn run_both<R: Print + AllocGlobal>(rt: &R, row: &Row) -> Result<bool> {
    let alloc = rt.alloc();
    let mut desk = Twin::new(alloc, settings(alloc, row)?, settings(alloc, row)?)?;
    let played = play(alloc, &mut desk, row);
    let both = report_both(rt, row, &played, desk.apart)?;
    let alike = is_list_alike(alloc, row, &mut desk)?;
    let list = report_part(rt, row, "list", alike)?;
    Ok(both && list)
}

/// Runs a row on a desk over disks in memory, and answers whether it printed what it has to, and whether the disks hold then
/// what the desk held.
fn is_kept_on(alloc: Global, row: &Row, mut desk: DiskDesk) -> Result<bool> {
    let played = play(alloc, &mut desk, row);
    let is_kept = is_kept(alloc, desk)?;
    Ok(played.passed(row) && is_kept)
}

/// Runs a row on a new desk over disks in memory.
fn run_file<R: Print + AllocGlobal>(rt: &R, row: &Row) -> Result<bool> {
    let alloc = rt.alloc();
    let passed = match new_desk(alloc, settings(alloc, row)?, Stop::never()) {
        Ok(desk) => is_kept_on(alloc, row, desk)?,
        Err(_) => false,
    };
    report_part(rt, row, "file", passed)
}

/// A row file as a table.
#[derive(Drop)]
struct RowTable(Row);

impl Table for RowTable {
    fn read(alloc: Global, bytes: &[u8]) -> Result<RowTable> {
        Ok(RowTable(read_row(alloc, bytes)?))
    }

    fn run<R: Print + AllocGlobal>(&self, rt: &R) -> Result<bool> {
        let row = &self.0;
        let plain = run_plain(rt, row)?;
        let tables = run_tables(rt, row)?;
        let both = run_both(rt, row)?;
        let file = run_file(rt, row)?;
        let stops = !row.stop_everywhere || run_stops(rt, row)?;
        let old = run_old_files(rt, row)?;
        Ok(plain && tables && both && file && stops && old)
    }
}

impl Table for Texts {
    fn read(alloc: Global, bytes: &[u8]) -> Result<Texts> {
        read_texts(alloc, bytes)
    }

    fn run<R: Print + AllocGlobal>(&self, rt: &R) -> Result<bool> {
        run_texts(rt, self)
    }
}

fn run_all<R: Env + Files + Print + AllocGlobal + Clone + Drop>(rt: &R) -> Result<bool> {
    let folder = folder(rt)?;
    let rows = run_each::<RowTable, R>(rt, folder.as_str(), ".row")?;
    let texts = run_each::<Texts, R>(rt, folder.as_str(), ".texts")?;
    let participants = run_participants(rt)?;
    let reports = run_reports(rt)?;
    let kept_files = run_kept_files(rt)?;
    Ok(rows && texts && participants && reports && kept_files)
}

fn main(rt: HostRuntime) -> Result<ExitCode> {
    Ok(status_of(run_all(&rt)?))
}
