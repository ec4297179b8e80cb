//! A row, run on a desk.
ghost use Rattle.std.specs.Prelude.{◌≡◌, ◌<◌};

use adr_machine::Desk;
use adr_script::{ScriptFault, run_script};
use adr_text::{Reader, Writer};
use row_desks::Row;
use std::alloc::Global;
use std::io::{Read, Write};
use std::marker::Brand;
use std::sync::ledger::{Blank, Ledger};

/// What a row printed.
pub struct Played {
    pub printed: Vec<u8>,
    pub ended: Result<u64, ScriptFault>,
}

impl Drop for Played {
    fn drop(self) {
        let Played {
            printed: _,
            ended: _,
        } = self;
    }
}

/// Runs a script over a reader and a writer.
fn run_over<D: Desk, R: Read + Drop, W: Write + Drop, K: Ledger, L: Ledger>(
    alloc: Global,
    desk: &mut D,
    reader: R,
    writer: W,
    reads: Blank,
    writes: Blank,
) -> Result<u64, ScriptFault>
    requires read_name { reads.name ≡ K.name }
    requires read_parts { reads.parts ≡ K.parts }
    requires read_two { 1 < reads.parts }
    requires write_name { writes.name ≡ L.name }
    requires write_parts { writes.parts ≡ L.parts }
    requires write_two { 1 < writes.parts }
{
    let mut source = Reader::<R, K>::new(reader, reads);
    let mut sink = Writer::<W, L>::new(writer, writes);
    run_script(alloc, desk, &mut source, &mut sink)
}

fn run_branded<D: Desk, R: Read + Drop, W: Write + Drop>(
    alloc: Global,
    desk: &mut D,
    reader: R,
    writer: W,
) -> Result<u64, ScriptFault> {
    run_over::<D, R, W, Brand, Brand>(alloc, desk, reader, writer, Blank::new(2), Blank::new(2))
}

/// Runs a script on a desk.
pub fn play_script<D: Desk>(alloc: Global, desk: &mut D, script: &[u8]) -> Played {
    let mut printed = Vec::new(alloc);
    let ended = run_branded(alloc, desk, script, &mut printed);
    Played { printed, ended }
}

/// Runs the script of a row on a desk.
pub fn play<D: Desk>(alloc: Global, desk: &mut D, row: &Row) -> Played {
    play_script(alloc, desk, row.script.as_slice())
}

/// How many lines a text has, each ended by its LF.
pub fn count_lines(text: &[u8]) -> u64 {
    text.iter().filter(|byte| **byte == b'\n').count() as u64
}

impl Played {
    /// What it printed.
    pub fn into_printed(self) -> Vec<u8> {
        let Played { printed, ended: _ } = self;
        printed
    }

    /// Whether the row printed what it has to, and ended well.
    pub fn passed(&self, row: &Row) -> bool {
        self.printed.as_slice() == row.wanted.as_slice()
            && self.ended == Ok(count_lines(&row.wanted))
    }
}
