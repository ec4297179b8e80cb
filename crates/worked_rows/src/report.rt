//! How a row went, in one line.
use crate::play::{Played, count_lines};
use anyhow::Result;
use row_desks::Row;

/// How many lines two texts begin alike with.
fn like_lines(given: &[u8], wanted: &[u8]) -> u64 {
    let most = given.len().min(wanted.len());
    let mut at = 0;
    while at < most && given[at] == wanted[at] {
        at += 1;
    }
    count_lines(&given[..at])
}

/// Prints how a row went on a desk, and answers whether it passed.
pub fn report<R: Print>(rt: &R, desk: &str, row: &Row, played: &Played) -> Result<bool> {
    let name = &row.name;
    if played.passed(row) {
        println!(rt; "row {name} {desk} passed")?;
        return Ok(true);
    }
    let alike = like_lines(&played.printed, &row.wanted);
    let given = played.printed.as_slice().escape_ascii();
    println!(rt; "row {name} {desk} failed after {alike} lines, printed {given}")?;
    if let Err(fault) = played.ended {
        println!(rt; "row {name} {desk} ended with {fault}")?;
    }
    Ok(false)
}

/// Prints how a row went on both desks side by side, and answers whether it passed.
pub fn report_both<R: Print>(rt: &R, row: &Row, played: &Played, apart: u64) -> Result<bool> {
    let name = &row.name;
    if played.passed(row) && apart == 0 {
        println!(rt; "row {name} both passed")?;
        return Ok(true);
    }
    println!(rt;
        "row {name} both failed, {apart} calls were answered otherwise or left something else"
    )?;
    Ok(false)
}

/// Prints how a part of a row went, and answers whether it passed.
pub fn report_part<R: Print>(rt: &R, row: &Row, part: &str, passed: bool) -> Result<bool> {
    let name = &row.name;
    if passed {
        println!(rt; "row {name} {part} passed")?;
        return Ok(true);
    }
    println!(rt; "row {name} {part} failed")?;
    Ok(false)
}
