//! A row: a script, and the lines that it has to print.
use adr_machine::{MOST_NUMBER, number_within};
use adr_state::Limits;
use anyhow::{Context, Result, bail};
use std::alloc::Global;
use std::str::from_utf8;

/// How much of a script, and of what it has to print, stands before some line.
#[derive(Clone, Copy)]
pub struct Place {
    pub script: usize,
    pub wanted: usize,
}

/// A row, as its file says it.
#[derive(Drop)]
pub struct Row {
    pub name: String,
    pub limits: Limits,
    /// The lines of the script, each with its LF.
    pub script: Vec<u8>,
    /// The lines that it has to print, each with its LF.
    pub wanted: Vec<u8>,
    /// Whether it is stopped at each call of its disks too.
    pub stop_everywhere: bool,
    /// Where its file is one of version 1, if anywhere.
    pub of_version_1: Option<Place>,
}

/// Adds a line and its LF.
fn add_line(text: &mut Vec<u8>, line: &[u8]) -> Result<()> {
    text.extend_from_slice(line)?;
    text.extend_from_slice(b"\n")?;
    Ok(())
}

/// Sets a limit, `NAME=NUMBER`.
fn set_limit(limits: &mut Limits, setting: &str) -> Result<()> {
    let (name, digits) = setting.split_once('=').context("no = in a set")?;
    let number = number_within(MOST_NUMBER, digits.as_bytes()).context("no number in a set")?;
    if !limits.set(name, number) {
        bail!("no such limit: {setting}");
    }
    Ok(())
}

/// Reads one line of a row file.
fn read_line(alloc: Global, row: &mut Row, line: &[u8]) -> Result<()> {
    if let Some(rest) = line.strip_prefix(b"> ") {
        return add_line(&mut row.script, rest);
    }
    if let Some(rest) = line.strip_prefix(b"< ") {
        return add_line(&mut row.wanted, rest);
    }
    if let Some(rest) = line.strip_prefix(b"row ") {
        row.name = String::from_str(alloc, from_utf8(rest)?)?;
        return Ok(());
    }
    if let Some(rest) = line.strip_prefix(b"set ") {
        return set_limit(&mut row.limits, from_utf8(rest)?);
    }
    if line == b"stop everywhere".as_slice() {
        row.stop_everywhere = true;
        return Ok(());
    }
    if line == b"of version 1".as_slice() {
        row.of_version_1 = Some(Place {
            script: row.script.len(),
            wanted: row.wanted.len(),
        });
        return Ok(());
    }
    if line.is_empty() || line.starts_with(b"#") {
        return Ok(());
    }
    bail!("a line of another form")
}

/// Reads a row file, `NAME.row`, of these lines:
///
/// - `# TEXT` and an empty line say nothing;
/// - `row NAME` names the row;
/// - `set NAME=NUMBER` sets a limit;
/// - `stop everywhere` has it stopped at each call of its disks too;
/// - `of version 1` has it go on over a file of that version with what the lines before it led to;
/// - `> LINE` is a line of the script;
/// - `< LINE` is a line that the script prints.
pub fn read_row(alloc: Global, bytes: &[u8]) -> Result<Row> {
    let mut row = Row {
        name: String::new(alloc),
        limits: Limits::largest(),
        script: Vec::new(alloc),
        wanted: Vec::new(alloc),
        stop_everywhere: false,
        of_version_1: None,
    };
    for line in bytes.split(|b| *b == b'\n') {
        read_line(alloc, &mut row, line)?;
    }
    Ok(row)
}
