//! Desks over disks in memory: a database file and its log, of which one may stop after some calls.
ghost use Rattle.std.specs.Prelude.{◌≡◌, false, IsTrue, IfOk};

use crate::same::holds;
use adr_desk::restart::{crash, reopen};
use adr_desk::{SqlDesk, Start};
use adr_machine::Desk;
use adr_state::Settings;
use adr_text::Refusal;
use sqlite::{Connection, FileStore, Files, Options};
use sqlite_disk::{Crash, Disk, Fuse, Memory};
use std::alloc::{AllocError, Global};
use std::io;

/// A database file and its log in memory.
pub type Disks = Files<Fuse<Memory>>;

/// A desk over them.
pub type DiskDesk = SqlDesk<FileStore<Fuse<Memory>>>;

/// From this number the salts of a log are drawn.
const SEED: u64 = 7;

/// After how many calls each of the two files stops: from then on each call of it fails.
#[derive(Clone, Copy)]
pub struct Stop {
    log: u64,
    db: u64,
}

impl Stop {
    /// Neither stops.
    pub fn never() -> Stop {
        Stop {
            log: u64::MAX,
            db: u64::MAX,
        }
    }

    /// The log stops.
    pub fn in_log(calls: u64) -> Stop {
        Stop {
            log: calls,
            db: u64::MAX,
        }
    }

    /// The database file stops.
    pub fn in_database(calls: u64) -> Stop {
        Stop {
            log: u64::MAX,
            db: calls,
        }
    }
}

/// New files, without a byte in them.
pub fn new_disks(alloc: Global, stop: Stop) -> Disks
    ensures log { IsTrue (⟦<Fuse<Memory> as Disk>⟧.is_usable result.log) }
    ensures db { IsTrue (⟦<Fuse<Memory> as Disk>⟧.is_usable result.db) }
{
    Files {
        log: Fuse::new(Memory::new(alloc), stop.log),
        db: Fuse::new(Memory::new(alloc), stop.db),
    }
}

/// A connection to files of which no sync has failed, or else the files.
pub fn open(alloc: Global, files: Disks) -> Result<Connection<FileStore<Fuse<Memory>>>, Disks>
    requires log { IsTrue (⟦<Fuse<Memory> as Disk>⟧.is_usable files.log) }
    requires db { IsTrue (⟦<Fuse<Memory> as Disk>⟧.is_usable files.db) }
    ensures idle { IfOk result (λ conn. conn.in_transaction ≡ false) }
{
    match Connection::open_files(alloc, files, Options::new(SEED)) {
        Ok(conn) => Ok(conn),
        Err((_, left)) => Err(left.into_files()),
    }
}

/// A connection to what a stop left of the files: what was not synced is lost, and none of them stops any more.
pub fn opened_again(
    alloc: Global,
    mut files: Disks,
) -> Result<Connection<FileStore<Fuse<Memory>>>, Disks> {
    files.log.crash();
    files.db.crash();
    open(alloc, files)
}

/// A desk over new files, or what is left of them where they stopped before it stood.
pub fn new_desk(alloc: Global, settings: Settings, stop: Stop) -> Result<DiskDesk, Disks> {
    let conn = match open(alloc, new_disks(alloc, stop)) {
        Ok(conn) => conn,
        Err(files) => return Err(files),
    };
    match SqlDesk::adopt_or_back(alloc, settings, conn, Start::New) {
        Ok(desk) => Ok(desk),
        Err((_, conn)) => Err(conn.into_store().close()),
    }
}

/// The files of a desk that is given up, or nothing where they can't be closed.
pub fn closed(desk: DiskDesk) -> Option<Disks> {
    let (_, conn) = desk.into_parts();
    conn.close_files().ok()
}

// A file with these bytes, all of them synced, which stops after so many calls.
fn filled(alloc: Global, bytes: &[u8], calls: u64) -> io::Result<Fuse<Memory>> {
    let mut file = Memory::new(alloc);
    file.write_at(0, bytes)?;
    file.sync()?;
    Ok(Fuse::new(file, calls))
}

/// Files with the bytes of a log and of a database file, of which one may stop.
pub fn disks_with(alloc: Global, bytes: &(Vec<u8>, Vec<u8>), stop: Stop) -> io::Result<Disks> {
    Ok(Files {
        log: filled(alloc, &bytes.0, stop.log)?,
        db: filled(alloc, &bytes.1, stop.db)?,
    })
}

/// The bytes of the log, and those of the database file.
pub fn bytes_of(alloc: Global, files: &Disks) -> Result<(Vec<u8>, Vec<u8>), AllocError> {
    let log = files.log.inner().bytes().to_vec(alloc)?;
    let db = files.db.inner().bytes().to_vec(alloc)?;
    Ok((log, db))
}

/// Whether a desk holds what it held when its files are closed and opened again as those of a node, and again after a crash.
pub fn is_kept(alloc: Global, mut desk: DiskDesk) -> Result<bool, Refusal> {
    let image = desk.image()?;
    let Some(mut again) = reopen(alloc, desk, Options::new(SEED)) else {
        return Ok(false);
    };
    let is_same = holds(&mut again, &image)?;
    match crash(alloc, again) {
        Some(mut last) => Ok(is_same && holds(&mut last, &image)?),
        None => Ok(false),
    }
}
