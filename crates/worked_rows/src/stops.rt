//! A row, stopped at each call of its disks in turn: of the log, and then of the database file. From that call on each one
//! fails, and what was not synced is lost. The files that are left have to open as those of a node, with the state before
//! the line in progress, or the one after it.
use crate::play::play_script;
use crate::report::report_part;
use crate::settings;
use adr_desk::restart::crash;
use adr_desk::{SqlDesk, Start};
use adr_machine::{Desk, PlainDesk};
use adr_state::{Image, Settings};
use adr_text::Refusal;
use anyhow::{Context, Result, bail};
use row_desks::{DiskDesk, Disks, Row, Stop, holds, new_desk, opened_again};
use sqlite::{Connection, FileStore};
use sqlite_disk::{Fuse, Memory};
use std::alloc::{AllocError, Global};

/// What a line of a role prints where the store refuses it.
const REFUSED_REPLY: &str =
    "500 {\"detail\":\"store refused\",\"status\":500,\"title\":\"Store\"}\n";

/// What a step of the node prints then.
const REFUSED_STEP: &str = "refused 2 Store\n";

/// More calls than a row makes of a file.
const MOST_CALLS: u64 = 100_000;

/// Which file stops.
#[derive(Clone, Copy)]
pub(crate) enum Part {
    Log,
    Database,
}

impl Part {
    pub(crate) fn name(self) -> &'static str {
        match self {
            Part::Log => "stops in the log",
            Part::Database => "stops in the database",
        }
    }

    pub(crate) fn stop(self, calls: u64) -> Stop {
        match self {
            Part::Log => Stop::in_log(calls),
            Part::Database => Stop::in_database(calls),
        }
    }
}

/// A line of a script, with what it has to print, and the states before and after it.
#[derive(Drop)]
struct Line {
    number: usize,
    text: Vec<u8>,
    wanted: Vec<u8>,
    before: Image,
    after: Image,
}

/// How a run went whose disks stop at some call.
#[derive(Clone, Copy)]
enum Ran {
    /// No call was that one.
    Whole,
    /// It stopped before the desk stood; and whether what is left is as it has to be.
    Making(bool),
    /// It stopped in the line of that number; and whether what is left is as it has to be.
    Line(usize, bool),
}

/// How all runs went.
#[derive(Drop)]
struct Tally {
    stops: u64,
    wrong: u64,
    /// In how many lines it stopped, and the last of them.
    lines: usize,
    last: Option<usize>,
}

impl Tally {
    fn new() -> Tally {
        Tally {
            stops: 0,
            wrong: 0,
            lines: 0,
            last: None,
        }
    }

    fn note_stop(&mut self, is_right: bool) {
        self.stops = self.stops.saturating_add(1);
        if !is_right {
            self.wrong = self.wrong.saturating_add(1);
        }
    }

    /// Notes a stop in the line of that number. Later stops are in later lines.
    fn note_line(&mut self, number: usize, is_right: bool) {
        self.note_stop(is_right);
        if self.last != Some(number) {
            self.last = Some(number);
            self.lines = self.lines.saturating_add(1);
        }
    }
}

/// A line with its LF.
fn ended(alloc: Global, line: &[u8]) -> Result<Vec<u8>, AllocError> {
    let mut whole = line.to_vec(alloc)?;
    whole.extend_from_slice(b"\n")?;
    Ok(whole)
}

/// The lines of a text, each with its LF.
fn split(alloc: Global, text: &[u8]) -> Result<Vec<Vec<u8>>, AllocError> {
    let mut lines = Vec::new(alloc);
    for line in text.split(|byte| *byte == b'\n') {
        if !line.is_empty() {
            lines.push(ended(alloc, line)?)?;
        }
    }
    Ok(lines)
}

fn printed<D: Desk>(alloc: Global, desk: &mut D, text: &[u8]) -> Vec<u8> {
    play_script(alloc, desk, text).into_printed()
}

/// Takes a line on the plain desk, which has to print what is wanted.
fn line_on(
    alloc: Global,
    desk: &mut PlainDesk,
    number: usize,
    text: &[u8],
    wanted: &[u8],
) -> Result<Line> {
    let before = desk.image()?;
    let said = printed(alloc, desk, text);
    let after = desk.image()?;
    if said.as_slice() != wanted {
        bail!("a line prints something else");
    }
    Ok(Line {
        number,
        text: text.to_vec(alloc)?,
        wanted: said,
        before,
        after,
    })
}

/// The lines of a row. Each prints one line.
fn lines_of(alloc: Global, row: &Row) -> Result<Vec<Line>> {
    let mut desk = PlainDesk::new(alloc, settings(alloc, row)?);
    let texts = split(alloc, &row.script)?;
    let wanted = split(alloc, &row.wanted)?;
    let mut lines = Vec::new(alloc);
    for at in 0..texts.len() {
        let wanted = wanted.get(at).context("a line prints nothing")?;
        lines.push(line_on(alloc, &mut desk, at, &texts[at], wanted)?)?;
    }
    Ok(lines)
}

/// Whether a line prints so where the store refuses it.
fn is_of_store(printed: &[u8]) -> bool {
    printed == REFUSED_REPLY.as_bytes() || printed == REFUSED_STEP.as_bytes()
}

/// The first line that does not print what it has to, if there is one, and whether the store refused it.
fn first_refused<'l, D: Desk>(
    alloc: Global,
    desk: &mut D,
    lines: &'l [Line],
) -> Option<(&'l Line, bool)> {
    for line in lines {
        let said = printed(alloc, desk, &line.text);
        if said.as_slice() != line.wanted.as_slice() {
            return Some((line, is_of_store(&said)));
        }
    }
    None
}

/// Whether what a stop in a line left opens as the file of a node, and holds the state before the line, or the one after it.
fn is_left(alloc: Global, desk: DiskDesk, line: &Line) -> Result<bool, Refusal> {
    let Some(mut again) = crash(alloc, desk) else {
        return Ok(false);
    };
    Ok(holds(&mut again, &line.before)? || holds(&mut again, &line.after)?)
}

fn run_lines(alloc: Global, mut desk: DiskDesk, lines: &[Line]) -> Result<Ran> {
    match first_refused(alloc, &mut desk, lines) {
        Some((line, is_refused)) => {
            let is_left = is_left(alloc, desk, line)?;
            Ok(Ran::Line(line.number, is_refused && is_left))
        }
        None => Ok(Ran::Whole),
    }
}

/// Whether tables are made in files that hold none, and hold nothing then.
fn is_made_anew(
    alloc: Global,
    settings: Settings,
    conn: Connection<FileStore<Fuse<Memory>>>,
    empty: &Image,
) -> Result<bool, Refusal> {
    if !conn.is_autocommit() {
        return Ok(false);
    }
    match SqlDesk::adopt(alloc, settings, conn, Start::New) {
        Ok(mut desk) => holds(&mut desk, empty),
        Err(_) => Ok(false),
    }
}

/// Whether what a stop left while the tables were made has all of them, which hold nothing, or none.
fn is_empty_or_none(
    alloc: Global,
    settings: Settings,
    again: Settings,
    files: Disks,
    empty: &Image,
) -> Result<bool, Refusal> {
    let Ok(conn) = opened_again(alloc, files) else {
        return Ok(false);
    };
    if !conn.is_autocommit() {
        return Ok(false);
    }
    match SqlDesk::adopt_or_back(alloc, settings, conn, Start::Kept) {
        Ok(mut desk) => holds(&mut desk, empty),
        Err((Refusal::BadFile, conn)) => is_made_anew(alloc, again, conn, empty),
        Err(_) => Ok(false),
    }
}

/// Whether the state of a new node is all that files hold after a stop in their making, if they hold anything.
fn is_unmade(alloc: Global, row: &Row, files: Disks) -> Result<bool> {
    let mut plain = PlainDesk::new(alloc, settings(alloc, row)?);
    let empty = plain.image()?;
    Ok(is_empty_or_none(
        alloc,
        settings(alloc, row)?,
        settings(alloc, row)?,
        files,
        &empty,
    )?)
}

/// A row on a desk over new disks that stop so.
fn run_stop(alloc: Global, row: &Row, lines: &[Line], stop: Stop) -> Result<Ran> {
    match new_desk(alloc, settings(alloc, row)?, stop) {
        Ok(desk) => run_lines(alloc, desk, lines),
        Err(files) => Ok(Ran::Making(is_unmade(alloc, row, files)?)),
    }
}

/// Stops a file at each of its calls in turn, until a run ends with no stop, and tells how that went; nothing where no run
/// does.
fn run_each_stop(alloc: Global, row: &Row, lines: &[Line], part: Part) -> Result<Option<Tally>> {
    let mut tally = Tally::new();
    for calls in 0..MOST_CALLS {
        match run_stop(alloc, row, lines, part.stop(calls))? {
            Ran::Whole => return Ok(Some(tally)),
            Ran::Making(is_right) => tally.note_stop(is_right),
            Ran::Line(number, is_right) => tally.note_line(number, is_right),
        }
    }
    Ok(None)
}

/// Whether all stops of a file left what they may. The log is written in each line of the row.
fn is_right(part: Part, tally: &Tally, lines: &[Line]) -> bool {
    let is_in_each = match part {
        Part::Log => tally.lines == lines.len(),
        Part::Database => tally.stops != 0,
    };
    is_in_each && tally.wrong == 0
}

fn run_part<R: Print + AllocGlobal>(rt: &R, row: &Row, lines: &[Line], part: Part) -> Result<bool> {
    let passed = match run_each_stop(rt.alloc(), row, lines, part)? {
        Some(tally) => is_right(part, &tally, lines),
        None => false,
    };
    report_part(rt, row, part.name(), passed)
}

/// Runs a row over disks that stop, prints how it went, and answers whether it passed.
pub fn run_stops<R: Print + AllocGlobal>(rt: &R, row: &Row) -> Result<bool> {
    let lines = lines_of(rt.alloc(), row)?;
    let log = run_part(rt, row, &lines, Part::Log)?;
    let database = run_part(rt, row, &lines, Part::Database)?;
    Ok(log && database)
}
