//! A table of texts, each with what a reader makes of it.
use crate::reader::{Reader, answer};
use anyhow::{Context, Result, bail};
use std::alloc::Global;
use std::str::from_utf8;

/// A text, and what the reader has to answer.
#[derive(Drop)]
pub struct Case {
    pub reader: Reader,
    pub text: Vec<u8>,
    pub wanted: Vec<u8>,
}

/// The cases of a file.
#[derive(Drop)]
pub struct Texts {
    pub name: String,
    pub cases: Vec<Case>,
}

/// What the lines so far say of the next case.
#[derive(Drop)]
struct Frame {
    reader: Option<Reader>,
    before: Vec<u8>,
    after: Vec<u8>,
    text: Option<Vec<u8>>,
}

impl Frame {
    /// Puts what stands around each text, with `$` in place of the text.
    fn put_around(&mut self, alloc: Global, around: &[u8]) -> Result<()> {
        let Some(at) = around.iter().position(|byte| *byte == b'$') else {
            bail!("no $ in what stands around");
        };
        self.before = around[..at].to_vec(alloc)?;
        self.after = around[at + 1..].to_vec(alloc)?;
        Ok(())
    }

    /// Puts a text, with what stands around it.
    fn put_text(&mut self, alloc: Global, text: &[u8]) -> Result<()> {
        let mut whole = self.before.as_slice().to_vec(alloc)?;
        whole.extend_from_slice(text)?;
        whole.extend_from_slice(&self.after)?;
        self.text = Some(whole);
        Ok(())
    }

    /// The case whose answer has come.
    fn case(&mut self, alloc: Global, wanted: &[u8]) -> Result<Case> {
        Ok(Case {
            reader: self.reader.context("no reader")?,
            text: self.text.take().context("an answer to no text")?,
            wanted: wanted.to_vec(alloc)?,
        })
    }
}

/// Reads one line of a table.
fn read_line(alloc: Global, texts: &mut Texts, frame: &mut Frame, line: &[u8]) -> Result<()> {
    if let Some(rest) = line.strip_prefix(b"> ") {
        return frame.put_text(alloc, rest);
    }
    if let Some(rest) = line.strip_prefix(b"< ") {
        texts.cases.push(frame.case(alloc, rest)?)?;
        return Ok(());
    }
    if let Some(rest) = line.strip_prefix(b"read ") {
        frame.reader = Some(Reader::of(from_utf8(rest)?).context("no such reader")?);
        return frame.put_around(alloc, b"$");
    }
    if let Some(rest) = line.strip_prefix(b"around ") {
        return frame.put_around(alloc, rest);
    }
    if let Some(rest) = line.strip_prefix(b"texts ") {
        texts.name = String::from_str(alloc, from_utf8(rest)?)?;
        return Ok(());
    }
    if line.is_empty() || line.starts_with(b"#") {
        return Ok(());
    }
    bail!("a line of another form")
}

/// Reads a table.
pub fn read_texts(alloc: Global, bytes: &[u8]) -> Result<Texts> {
    let mut texts = Texts {
        name: String::new(alloc),
        cases: Vec::new(alloc),
    };
    let mut frame = Frame {
        reader: None,
        before: Vec::new(alloc),
        after: Vec::new(alloc),
        text: None,
    };
    for line in bytes.split(|b| *b == b'\n') {
        read_line(alloc, &mut texts, &mut frame, line)?;
    }
    Ok(texts)
}

/// Whether the reader answers a case as it has to; if not, prints it.
fn run_case<R: Print + AllocGlobal>(rt: &R, case: &Case) -> Result<bool> {
    let answer = answer(rt.alloc(), case.reader, &case.text)?;
    if answer.as_bytes() == case.wanted.as_slice() {
        return Ok(true);
    }
    let text = case.text.as_slice().escape_ascii();
    println!(rt; "{text} gives {answer}")?;
    Ok(false)
}

/// Runs a table, prints how it went, and answers whether it passed.
pub fn run_texts<R: Print + AllocGlobal>(rt: &R, texts: &Texts) -> Result<bool> {
    let mut failed: u64 = 0;
    for case in &texts.cases {
        if !run_case(rt, case)? {
            failed = failed.saturating_add(1);
        }
    }
    let name = &texts.name;
    let count = texts.cases.len();
    println!(rt; "texts {name}: {count} read, {failed} failed")?;
    Ok(failed == 0)
}
