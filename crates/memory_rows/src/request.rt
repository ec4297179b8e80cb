//! A line of a script as a request in bytes.
use adr_text::Moment;
use anyhow::{Context, Result};
use std::alloc::Global;
use std::str::from_utf8;

/// A request, and the moment at which it comes.
pub struct Request {
    pub now: Moment,
    pub bytes: Vec<u8>,
}

impl Drop for Request {
    fn drop(self) {
        let Request { now: _, bytes: _ } = self;
    }
}

/// The bytes of a request, with the word for who asks as its token.
fn bytes_of(alloc: Global, who: &str, asked: &str) -> Result<Vec<u8>> {
    let (method, rest) = asked.split_once(' ').context("a request without a path")?;
    let (path, body) = rest.split_once(' ').unwrap_or((rest, ""));
    let length = body.len();
    let text = format!(in alloc;
        "{method} {path} HTTP/1.1\r\nHost: x\r\nAuthorization: Bearer {who}\r\nContent-Length: {length}\r\n\r\n{body}"
    )?;
    Ok(text.into_bytes())
}

/// The request of a line, `MOMENT WHO METHOD PATH [BODY]` and its LF; none where it is a step of the node itself.
pub fn request_of(alloc: Global, line: &[u8]) -> Result<Option<Request>> {
    let text = from_utf8(line.strip_suffix(b"\n").unwrap_or(line))?;
    let (moment, rest) = text.split_once(' ').context("a line without a moment")?;
    let (who, asked) = rest.split_once(' ').context("a line without a step")?;
    if who == "node" {
        return Ok(None);
    }
    let now = Moment::read(moment)?;
    let bytes = bytes_of(alloc, who, asked)?;
    Ok(Some(Request { now, bytes }))
}

/// What a script prints of a reply: its status and its body, and LF.
pub fn printed_of(alloc: Global, reply: &[u8]) -> Result<Vec<u8>> {
    let text = from_utf8(reply)?;
    let (head, body) = text.split_once("\r\n\r\n").context("no head")?;
    let status = head.split(' ').nth(1).context("no status")?;
    let line = format!(in alloc; "{status} {body}\n")?;
    Ok(line.into_bytes())
}
