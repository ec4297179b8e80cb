//! Runs a table, and tells how it went.
use crate::case::Case;
use crate::file::{File, read_file};
use crate::grants::copies_of;
use adr_desk::MemoryDesk;
use adr_http::{Roles, Routes};
use adr_machine::{Desk, PlainDesk};
use adr_state::{Limits, Settings};
use adr_text::{Moment, Name};
use anyhow::Result;
use row_desks::{DiskDesk, Front, Stop, is_kept, new_desk, serve, take_lines};
use std::alloc::Global;
use table_files::{Pieces, Table};

/// The name under which the desks report.
const CLIENT: &str = "aggregator";

/// The moment of all requests.
const NOW: &str = "2024-07-01T10:00:00Z";

fn settings(alloc: Global) -> Result<Settings> {
    Ok(Settings {
        client: Name::new(alloc, CLIENT)?,
        limits: Limits::largest(),
    })
}

/// What a request is replied, in such pieces.
fn reply_to<D: Desk>(
    alloc: Global,
    desk: &mut D,
    front: &Front,
    request: &[u8],
    pieces: Pieces,
) -> Vec<u8> {
    let mut reply = Vec::new(alloc);
    if !serve(alloc, desk, front, request, pieces, &mut reply) {
        reply.clear();
    }
    reply
}

/// What the lines of a script print.
fn printed_by<D: Desk>(alloc: Global, desk: &mut D, script: &[u8]) -> Vec<u8> {
    let mut printed = Vec::new(alloc);
    if !take_lines(alloc, desk, script, &mut printed) {
        printed.clear();
    }
    printed
}

/// Whether the request of a case is replied as it has to be.
fn replies<D: Desk>(
    alloc: Global,
    desk: &mut D,
    front: &Front,
    case: &Case,
    pieces: Pieces,
) -> bool {
    let reply = reply_to(alloc, desk, front, case.request.as_slice(), pieces);
    reply.as_slice() == case.reply.as_slice()
}

/// Whether the lines behind it print what they have to.
fn prints<D: Desk>(alloc: Global, desk: &mut D, case: &Case) -> bool {
    let printed = printed_by(alloc, desk, case.script.as_slice());
    printed.as_slice() == case.printed.as_slice()
}

/// Takes the lines before each case.
fn take_before<D: Desk>(alloc: Global, desk: &mut D, file: &File) {
    let _ = printed_by(alloc, desk, file.before.as_slice());
}

/// Whether a case, on a new desk, gives what it has to.
fn passes<D: Desk>(
    alloc: Global,
    desk: &mut D,
    front: &Front,
    file: &File,
    case: &Case,
    pieces: Pieces,
) -> bool {
    take_before(alloc, desk, file);
    let replied = replies(alloc, desk, front, case, pieces);
    let printed = prints(alloc, desk, case);
    replied && printed
}

fn passes_plain(
    alloc: Global,
    front: &Front,
    file: &File,
    case: &Case,
    pieces: Pieces,
) -> Result<bool> {
    let mut desk = PlainDesk::new(alloc, settings(alloc)?);
    Ok(passes(alloc, &mut desk, front, file, case, pieces))
}

fn passes_tables(
    alloc: Global,
    front: &Front,
    file: &File,
    case: &Case,
    pieces: Pieces,
) -> Result<bool> {
    let mut desk = MemoryDesk::open_memory(alloc, settings(alloc)?)?;
    Ok(passes(alloc, &mut desk, front, file, case, pieces))
}

/// Whether it passes on each desk.
fn passes_on_both(
    alloc: Global,
    front: &Front,
    file: &File,
    case: &Case,
    pieces: Pieces,
) -> Result<bool> {
    let plain = passes_plain(alloc, front, file, case, pieces)?;
    let tables = passes_tables(alloc, front, file, case, pieces)?;
    Ok(plain && tables)
}

/// Whether a case gives what it has to on a desk over disks in memory, which hold then what the desk held.
fn is_kept_on(
    alloc: Global,
    mut desk: DiskDesk,
    front: &Front,
    file: &File,
    case: &Case,
) -> Result<bool> {
    let all = case.request.len().max(1);
    let passed = passes(alloc, &mut desk, front, file, case, Pieces::Of(all));
    Ok(passed && is_kept(alloc, desk)?)
}

/// Whether it passes on a new desk over disks in memory.
fn passes_file(alloc: Global, front: &Front, file: &File, case: &Case) -> Result<bool> {
    match new_desk(alloc, settings(alloc)?, Stop::never()) {
        Ok(desk) => is_kept_on(alloc, desk, front, file, case),
        Err(_) => Ok(false),
    }
}

/// Whether it passes all at once, byte by byte, and in pieces of 7.
fn passes_in_pieces(alloc: Global, front: &Front, file: &File, case: &Case) -> Result<bool> {
    let all = case.request.len().max(1);
    let mut passed = true;
    for most in [all, 1, 7] {
        passed &= passes_on_both(alloc, front, file, case, Pieces::Of(most))?;
    }
    Ok(passed)
}

/// Whether it passes in every cut into two pieces, where the table asks for that.
fn passes_cut(alloc: Global, front: &Front, file: &File, case: &Case) -> Result<bool> {
    let mut passed = true;
    if file.cut_everywhere {
        for at in 0..case.request.len() {
            passed &= passes_on_both(alloc, front, file, case, Pieces::Cut(at))?;
        }
    }
    Ok(passed)
}

/// What a case is replied, from bytes that come all at once.
fn given_to(alloc: Global, front: &Front, file: &File, case: &Case) -> Result<Vec<u8>> {
    let mut desk = PlainDesk::new(alloc, settings(alloc)?);
    take_before(alloc, &mut desk, file);
    let all = case.request.len().max(1);
    Ok(reply_to(
        alloc,
        &mut desk,
        front,
        case.request.as_slice(),
        Pieces::Of(all),
    ))
}

/// Tells what a case that failed was replied.
fn report_case<R: Print + AllocGlobal>(
    rt: &R,
    front: &Front,
    file: &File,
    case: &Case,
) -> Result<()> {
    let given = given_to(rt.alloc(), front, file, case)?;
    let name = &case.name;
    let given = given.as_slice().escape_ascii();
    println!(rt; "case {name} failed, replied {given}")?;
    Ok(())
}

/// Runs a case, and answers whether it passed.
fn run_case<R: Print + AllocGlobal>(
    rt: &R,
    front: &Front,
    file: &File,
    case: &Case,
) -> Result<bool> {
    let pieces = passes_in_pieces(rt.alloc(), front, file, case)?;
    let cut = passes_cut(rt.alloc(), front, file, case)?;
    let kept = passes_file(rt.alloc(), front, file, case)?;
    if pieces && cut && kept {
        return Ok(true);
    }
    report_case(rt, front, file, case)?;
    Ok(false)
}

/// How many cases fail.
fn run_cases<R: Print + AllocGlobal>(rt: &R, front: &Front, file: &File) -> Result<u64> {
    let mut failed: u64 = 0;
    for case in &file.cases {
        if !run_case(rt, front, file, case)? {
            failed = failed.saturating_add(1);
        }
    }
    Ok(failed)
}

impl Table for File {
    fn read(alloc: Global, bytes: &[u8]) -> Result<File> {
        read_file(alloc, bytes)
    }

    fn run<R: Print + AllocGlobal>(&self, rt: &R) -> Result<bool> {
        let roles = Roles::new(copies_of(rt.alloc(), &self.grants)?)?;
        let routes = Routes::new(rt.alloc())?;
        let front = Front {
            roles: &roles,
            routes: &routes,
            now: Moment::read(NOW)?,
        };
        let failed = run_cases(rt, &front, self)?;
        let name = &self.name;
        let count = self.cases.len();
        println!(rt; "bytes {name}: {count} served, {failed} failed")?;
        Ok(failed == 0)
    }
}
