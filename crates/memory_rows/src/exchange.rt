//! The lines of a row, one by one.
use anyhow::Result;
use row_desks::Row;
use std::alloc::Global;

/// A line of a script, and what it has to print, each with its LF.
#[derive(Clone, Copy)]
pub struct Exchange<'r> {
    pub line: &'r [u8],
    pub wanted: &'r [u8],
}

/// The lines of a row, each with the one that it has to print.
pub fn exchanges<'r>(alloc: Global, row: &'r Row) -> Result<Vec<Exchange<'r>>> {
    let mut all = Vec::new(alloc);
    let lines = row.script.as_slice().split_inclusive(|byte| *byte == b'\n');
    let wanted = row.wanted.as_slice().split_inclusive(|byte| *byte == b'\n');
    for (line, wanted) in lines.zip(wanted) {
        all.push(Exchange { line, wanted })?;
    }
    Ok(all)
}
