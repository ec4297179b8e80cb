//! A table: its cases.
use crate::case::{Case, Meaning, Request, Verdict};
use anyhow::{Context, Result, bail};
use std::alloc::Global;
use std::str::from_utf8;
use table_files::push_text;

/// A table, as its file says it.
pub struct File {
    pub name: String,
    /// Whether each reply comes in every cut into two pieces too.
    pub cut_everywhere: bool,
    pub cases: Vec<Case>,
}

impl Drop for File {
    fn drop(self) {
        let File {
            name: _,
            cut_everywhere: _,
            cases: _,
        } = self;
    }
}

fn text_of(alloc: Global, bytes: &[u8]) -> Result<String> {
    Ok(String::from_str(alloc, from_utf8(bytes)?)?)
}

/// The bytes of a text.
fn bytes_of(alloc: Global, text: &[u8]) -> Result<Vec<u8>> {
    let mut bytes = Vec::new(alloc);
    push_text(alloc, &mut bytes, text)?;
    Ok(bytes)
}

fn status_of(text: &[u8]) -> Result<Verdict> {
    let status: u16 = from_utf8(text)?.parse().ok().context("no status")?;
    Ok(Verdict::Reads(status))
}

fn fault_of(text: &[u8]) -> Result<Verdict> {
    match text {
        b"bad reply" => Ok(Verdict::BadReply),
        b"too large" => Ok(Verdict::TooLarge),
        _ => bail!("no such fault"),
    }
}

fn read_means(alloc: Global, case: &mut Case, text: &[u8]) -> Result<()> {
    let meaning = case.meanings.last_mut().context("to whom?")?;
    meaning.means = text_of(alloc, text)?;
    Ok(())
}

fn read_to(alloc: Global, case: &mut Case, text: &[u8]) -> Result<()> {
    let question = text_of(alloc, text)?;
    let means = String::new(alloc);
    case.meanings.push(Meaning { question, means })?;
    Ok(())
}

/// Reads a line on a reply, if it is one.
fn read_reply_line(alloc: Global, case: &mut Case, word: &[u8], text: &[u8]) -> Result<bool> {
    match word {
        b"comes" => push_text(alloc, &mut case.comes, text)?,
        b"reads" => case.verdict = status_of(text)?,
        b"faults" => case.verdict = fault_of(text)?,
        b"body" => push_text(alloc, &mut case.body, text)?,
        b"to" => read_to(alloc, case, text)?,
        b"means" => read_means(alloc, case, text)?,
        _ => return Ok(false),
    }
    Ok(true)
}

/// Reads a line on a request.
fn read_request_line(alloc: Global, request: &mut Request, word: &[u8], text: &[u8]) -> Result<()> {
    match word {
        b"address" => request.address = bytes_of(alloc, text)?,
        b"token" => request.token = Some(bytes_of(alloc, text)?),
        b"ask" => request.question = text_of(alloc, text)?,
        b"target" => request.target = bytes_of(alloc, text)?,
        b"shows" => request.shows = Some(bytes_of(alloc, text)?),
        b"sends" => push_text(alloc, &mut request.sends, text)?,
        b"writes" => push_text(alloc, &mut request.writes, text)?,
        b"refused" => request.refused = text_of(alloc, text)?,
        _ => bail!("a line of another form"),
    }
    Ok(())
}

/// The first word of a line, and what stands behind the space that follows it.
fn first_word(line: &[u8]) -> (&[u8], &[u8]) {
    match line.iter().position(|b| *b == b' ') {
        Some(at) if at < line.len() => (&line[..at], &line[at + 1..]),
        _ => (line, &[]),
    }
}

/// Reads a line that belongs to the case that was begun.
fn read_case_line(alloc: Global, file: &mut File, word: &[u8], text: &[u8]) -> Result<()> {
    let case = file
        .cases
        .last_mut()
        .context("a line before the first case")?;
    if read_reply_line(alloc, case, word, text)? {
        return Ok(());
    }
    read_request_line(alloc, &mut case.request, word, text)
}

/// Reads one line of a table.
fn read_line(alloc: Global, file: &mut File, line: &[u8]) -> Result<()> {
    if line.is_empty() || line.starts_with(b"#") {
        return Ok(());
    }
    let (word, text) = first_word(line);
    match word {
        b"link" => file.name = text_of(alloc, text)?,
        b"cut" => file.cut_everywhere = true,
        b"case" => file.cases.push(Case::new(alloc, text_of(alloc, text)?))?,
        _ => read_case_line(alloc, file, word, text)?,
    }
    Ok(())
}

/// Reads a table.
pub fn read_file(alloc: Global, bytes: &[u8]) -> Result<File> {
    let mut file = File {
        name: String::new(alloc),
        cut_everywhere: false,
        cases: Vec::new(alloc),
    };
    for line in bytes.split(|b| *b == b'\n') {
        read_line(alloc, &mut file, line)?;
    }
    Ok(file)
}
