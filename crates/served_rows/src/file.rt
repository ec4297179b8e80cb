//! A table: its tokens, what comes before each case, and its cases.
use crate::case::Case;
use crate::grants::read_grant;
use adr_http::Grant;
use anyhow::{Context, Result, bail};
use std::alloc::Global;
use std::str::from_utf8;
use table_files::push_text;

/// A table, as its file says it.
pub struct File {
    pub name: String,
    /// Whether each case is served in every cut into two pieces too.
    pub cut_everywhere: bool,
    pub grants: Vec<Grant>,
    /// The lines of the script before each case, each with its LF.
    pub before: Vec<u8>,
    pub cases: Vec<Case>,
}

impl Drop for File {
    fn drop(self) {
        let File {
            name: _,
            cut_everywhere: _,
            grants: _,
            before: _,
            cases: _,
        } = self;
    }
}

/// Adds a line and its LF.
fn add_line(text: &mut Vec<u8>, line: &[u8]) -> Result<()> {
    text.extend_from_slice(line)?;
    text.extend_from_slice(b"\n")?;
    Ok(())
}

/// Reads a line that belongs to the case that was begun.
fn read_case_line(alloc: Global, case: &mut Case, line: &[u8]) -> Result<()> {
    if let Some(rest) = line.strip_prefix(b"send ") {
        return push_text(alloc, &mut case.request, rest);
    }
    if let Some(rest) = line.strip_prefix(b"reply ") {
        return push_text(alloc, &mut case.reply, rest);
    }
    if let Some(rest) = line.strip_prefix(b"then ") {
        return add_line(&mut case.script, rest);
    }
    if let Some(rest) = line.strip_prefix(b"prints ") {
        return add_line(&mut case.printed, rest);
    }
    bail!("a line of another form")
}

/// Reads a line that stands for the whole table, if it is one.
fn read_head_line(alloc: Global, file: &mut File, line: &[u8]) -> Result<bool> {
    if line.is_empty() || line.starts_with(b"#") {
        return Ok(true);
    }
    if let Some(rest) = line.strip_prefix(b"bytes ") {
        file.name = String::from_str(alloc, from_utf8(rest)?)?;
        return Ok(true);
    }
    if line == b"cut everywhere".as_slice() {
        file.cut_everywhere = true;
        return Ok(true);
    }
    if let Some(rest) = line.strip_prefix(b"token ") {
        file.grants.push(read_grant(alloc, from_utf8(rest)?)?)?;
        return Ok(true);
    }
    if let Some(rest) = line.strip_prefix(b"before ") {
        add_line(&mut file.before, rest)?;
        return Ok(true);
    }
    Ok(false)
}

/// Reads one line of a table.
fn read_line(alloc: Global, file: &mut File, line: &[u8]) -> Result<()> {
    if read_head_line(alloc, file, line)? {
        return Ok(());
    }
    if let Some(rest) = line.strip_prefix(b"case ") {
        let name = String::from_str(alloc, from_utf8(rest)?)?;
        file.cases.push(Case::new(alloc, name))?;
        return Ok(());
    }
    let case = file
        .cases
        .last_mut()
        .context("a line before the first case")?;
    read_case_line(alloc, case, line)
}

/// Reads a table.
pub fn read_file(alloc: Global, bytes: &[u8]) -> Result<File> {
    let mut file = File {
        name: String::new(alloc),
        cut_everywhere: false,
        grants: Vec::new(alloc),
        before: Vec::new(alloc),
        cases: Vec::new(alloc),
    };
    for line in bytes.split(|b| *b == b'\n') {
        read_line(alloc, &mut file, line)?;
    }
    Ok(file)
}
