//! A row whose file is one of version 1 at some line. The lines before it are played, and the tables that version 1 had not
//! are taken away. What is left has to open as the file of a node that holds the same state, also where a call of its disks
//! stops while it is made ready, and that is then one of this version; and the lines behind are played on it.
use crate::play::play_script;
use crate::report::report_part;
use crate::settings;
use crate::stops::Part;
use adr_db::statement::{rows_of, run};
use adr_desk::{SqlDesk, Start};
use adr_machine::Desk;
use adr_state::Image;
use adr_text::Refusal;
use anyhow::{Context, Result, bail};
use row_desks::{
    DiskDesk, Disks, Place, Row, Stop, bytes_of, closed, disks_with, holds, new_desk, open,
    opened_again,
};
use sqlite::{Alter, Connection, FileStore, Transaction};
use sqlite_disk::{Fuse, Memory};
use std::alloc::Global;

/// A connection to disks in memory.
type DiskConnection = Connection<FileStore<Fuse<Memory>>>;

/// The bytes of a log and of a database file.
type Bytes = (Vec<u8>, Vec<u8>);

/// More calls than are made of a file while it is made ready.
const MOST_CALLS: u64 = 10_000;

/// What makes a file of version 1 of one in which nothing is frozen.
const BACK: [&str; 3] = [
    "DROP TABLE frozen_share",
    "DROP TABLE frozen",
    "UPDATE meta SET version = 1",
];

/// A file of version 1, and the state that it holds.
#[derive(Drop)]
struct Old {
    bytes: Bytes,
    image: Image,
}

/// How a file of version 1 was made ready on disks that stop at some call.
#[derive(Clone, Copy)]
enum Ran {
    /// No call was that one.
    Whole,
    /// It stopped; and whether what is left is as it has to be.
    Stopped(bool),
}

fn put_back<S: Alter>(tx: &mut Transaction<'_, S>) -> Result<(), Refusal> {
    for statement in &BACK {
        run(tx, statement, &[])?;
    }
    Ok(())
}

fn put_back_and_commit<S: Alter>(conn: &mut Connection<S>) -> Result<()> {
    if !conn.is_autocommit() {
        bail!("a transaction stands");
    }
    let mut tx = conn.transaction();
    put_back(&mut tx)?;
    tx.commit()?;
    Ok(())
}

/// The version that a file says.
fn version_of<S: Alter>(conn: &mut Connection<S>) -> Result<i64> {
    if !conn.is_autocommit() {
        bail!("a transaction stands");
    }
    let mut tx = conn.transaction();
    let rows = rows_of(&mut tx, "SELECT version FROM meta", &[])?;
    let row = rows.first().context("no row in meta")?;
    Ok(row.get(0)?)
}

/// Opens files of which no sync has failed.
fn opened(alloc: Global, files: Disks) -> Result<DiskConnection> {
    if !files.may_be_used() {
        bail!("a sync failed");
    }
    match open(alloc, files) {
        Ok(conn) => Ok(conn),
        Err(_) => bail!("the files don't open"),
    }
}

/// A desk over a database that was kept, if it takes it.
fn taken(alloc: Global, row: &Row, conn: DiskConnection) -> Result<Option<DiskDesk>> {
    if !conn.is_autocommit() {
        return Ok(None);
    }
    let settings = settings(alloc, row)?;
    Ok(SqlDesk::adopt(alloc, settings, conn, Start::Kept).ok())
}

/// The lines before the place where the file is one of version 1, played on a new node, and its file put back to that version.
fn old_file(alloc: Global, row: &Row, place: Place) -> Result<Old> {
    let Ok(mut desk) = new_desk(alloc, settings(alloc, row)?, Stop::never()) else {
        bail!("no desk stands");
    };
    let script = row.script.get(..place.script).context("no such place")?;
    let printed = play_script(alloc, &mut desk, script).into_printed();
    if Some(printed.as_slice()) != row.wanted.get(..place.wanted) {
        bail!("a line prints something else");
    }
    let image = desk.image()?;
    let files = closed(desk).context("the files can't be closed")?;
    let mut conn = opened(alloc, files)?;
    put_back_and_commit(&mut conn)?;
    let files = conn.into_store().close();
    let bytes = bytes_of(alloc, &files)?;
    Ok(Old { bytes, image })
}

/// Whether a desk takes what disks hold, and then holds the state.
fn is_held(alloc: Global, row: &Row, conn: DiskConnection, image: &Image) -> Result<bool> {
    match taken(alloc, row, conn)? {
        Some(mut desk) => Ok(holds(&mut desk, image)?),
        None => Ok(false),
    }
}

/// Whether what a stop left opens as the file of a node with that state.
fn is_left(alloc: Global, row: &Row, files: Disks, image: &Image) -> Result<bool> {
    match opened_again(alloc, files) {
        Ok(conn) => is_held(alloc, row, conn, image),
        Err(_) => Ok(false),
    }
}

/// Has a desk take the file from disks that stop so.
fn run_stop(alloc: Global, row: &Row, old: &Old, stop: Stop) -> Result<Ran> {
    let files = disks_with(alloc, &old.bytes, stop)?;
    if !files.may_be_used() {
        bail!("a sync failed");
    }
    let conn = match open(alloc, files) {
        Ok(conn) => conn,
        Err(files) => return Ok(Ran::Stopped(is_left(alloc, row, files, &old.image)?)),
    };
    if !conn.is_autocommit() {
        bail!("a transaction stands");
    }
    match SqlDesk::adopt_or_back(alloc, settings(alloc, row)?, conn, Start::Kept) {
        Ok(_) => Ok(Ran::Whole),
        Err((_, conn)) => {
            let files = conn.into_store().close();
            Ok(Ran::Stopped(is_left(alloc, row, files, &old.image)?))
        }
    }
}

/// Stops a file at each of its calls in turn, until it is made ready with no stop. Whether it stopped at all, and all that was
/// left is as it has to be.
fn run_stops(alloc: Global, row: &Row, old: &Old, part: Part) -> Result<bool> {
    let mut is_right = true;
    for calls in 0..MOST_CALLS {
        match run_stop(alloc, row, old, part.stop(calls))? {
            Ran::Whole => return Ok(is_right && calls != 0),
            Ran::Stopped(is_left) => is_right &= is_left,
        }
    }
    Ok(false)
}

/// The lines behind the place, played on a desk that took the file; and whether the file that is closed then is one of this
/// version, with what the desk held.
fn run_behind(alloc: Global, row: &Row, place: Place, mut desk: DiskDesk) -> Result<bool> {
    let script = row.script.get(place.script..).context("no such place")?;
    let printed = play_script(alloc, &mut desk, script).into_printed();
    let is_printed = Some(printed.as_slice()) == row.wanted.get(place.wanted..);
    let image = desk.image()?;
    let files = closed(desk).context("the files can't be closed")?;
    let mut conn = opened(alloc, files)?;
    let is_of_today = version_of(&mut conn)? == 2;
    Ok(is_printed && is_of_today && is_held(alloc, row, conn, &image)?)
}

fn run_whole(alloc: Global, row: &Row, place: Place, old: &Old) -> Result<bool> {
    let mut conn = opened(alloc, disks_with(alloc, &old.bytes, Stop::never())?)?;
    let is_old = version_of(&mut conn)? == 1;
    let Some(mut desk) = taken(alloc, row, conn)? else {
        return Ok(false);
    };
    let is_same = holds(&mut desk, &old.image)?;
    Ok(is_old && is_same && run_behind(alloc, row, place, desk)?)
}

fn run_place<R: Print + AllocGlobal>(rt: &R, row: &Row, place: Place) -> Result<bool> {
    let alloc = rt.alloc();
    let old = old_file(alloc, row, place)?;
    let whole = run_whole(alloc, row, place, &old)?;
    let log = run_stops(alloc, row, &old, Part::Log)?;
    let database = run_stops(alloc, row, &old, Part::Database)?;
    let whole = report_part(rt, row, "of version 1", whole)?;
    let log = report_part(rt, row, "of version 1, stops in the log", log)?;
    let database = report_part(rt, row, "of version 1, stops in the database", database)?;
    Ok(whole && log && database)
}

/// Runs a row over a file of version 1 where it says so, prints how it went, and answers whether it passed.
pub fn run_old_files<R: Print + AllocGlobal>(rt: &R, row: &Row) -> Result<bool> {
    match row.of_version_1 {
        Some(place) => run_place(rt, row, place),
        None => Ok(true),
    }
}
