//! Bytes, as a line of text writes them.
ghost use Rattle.std.specs.Prelude.{◌+◌, ◌<◌, length, IfOk, IfSome};

use anyhow::{Context, Result, bail};
use std::alloc::Global;
use std::str::from_utf8;

/// The value of a hexadecimal digit.
fn hex(digit: u8) -> Result<u8>
    ensures { IfOk result (λ value. value < 16) }
{
    match digit {
        b'0'..=b'9' => Ok(digit - b'0'),
        b'a'..=b'f' => Ok(digit - b'a' + 10),
        b'A'..=b'F' => Ok(digit - b'A' + 10),
        _ => bail!("no hexadecimal digit"),
    }
}

/// The byte that an escape of one letter stands for.
fn letter(letter: u8) -> Result<u8> {
    match letter {
        b'r' => Ok(b'\r'),
        b'n' => Ok(b'\n'),
        b't' => Ok(b'\t'),
        b'\\' => Ok(b'\\'),
        _ => bail!("no such escape"),
    }
}

/// Takes what stands behind a backslash, but for copies, and gives what is left.
fn push_escape<'t>(bytes: &mut Vec<u8>, text: &'t [u8]) -> Result<&'t [u8]>
    ensures { IfOk result (λ rest. length rest.now < length text.now) }
{
    match text {
        [b'x', high, low, rest @ ..] => {
            bytes.push(hex(*high)? * 16 + hex(*low)?)?;
            Ok(rest)
        }
        [first, rest @ ..] => {
            bytes.push(letter(*first)?)?;
            Ok(rest)
        }
        [] => bail!("nothing behind a backslash"),
    }
}

/// Adds the bytes of a text without copies in it.
fn push_plain(bytes: &mut Vec<u8>, text: &[u8]) -> Result<()> {
    let mut rest = text;
    while let Some((first, behind)) = rest.split_first() {
        rest = behind;
        if *first == b'\\' {
            rest = push_escape(bytes, rest)?;
        } else {
            bytes.push(*first)?;
        }
    }
    Ok(())
}

/// Adds so many copies of a text: `N:TEXT`.
fn push_copies(alloc: Global, bytes: &mut Vec<u8>, copies: &[u8]) -> Result<()> {
    let at = copies
        .iter()
        .position(|b| *b == b':')
        .context("no : in copies")?;
    let times: u32 = from_utf8(&copies[..at])?
        .parse()
        .ok()
        .context("no number of copies")?;
    let mut text = Vec::new(alloc);
    push_plain(&mut text, &copies[at + 1..])?;
    for _ in 0..times {
        bytes.extend_from_slice(&text)?;
    }
    Ok(())
}

/// Where copies begin: at `\\{`, of which the backslash is no second half of another.
fn copies_at(text: &[u8]) -> Option<usize>
    ensures { IfSome result (λ at. at + 1 < length text.now) }
{
    let mut is_escaped = false;
    for at in 1..text.len() {
        if is_escaped {
            is_escaped = false;
        } else if text[at - 1] == b'\\' {
            if text[at] == b'{' {
                return Some(at - 1);
            }
            is_escaped = true;
        }
    }
    None
}

/// Adds the bytes of a text.
pub fn push_text(alloc: Global, bytes: &mut Vec<u8>, text: &[u8]) -> Result<()> {
    let mut rest = text;
    while let Some(at) = copies_at(rest) {
        push_plain(bytes, &rest[..at])?;
        let copies = &rest[at..];
        let behind = &copies[2..];
        let end = behind
            .iter()
            .position(|b| *b == b'}')
            .context("no } behind copies")?;
        push_copies(alloc, bytes, &behind[..end])?;
        rest = &behind[end + 1..];
    }
    push_plain(bytes, rest)
}
