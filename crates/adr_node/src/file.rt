//! The file in which a node keeps its state.
ghost use Rattle.std.specs.Prelude.{◌≡◌, false, IfOk, IfErr};
ghost use Rattle.adr_node.specs.Endings.{IsOfOpening};

use crate::ending::NodeFault;
use crate::why::{Cause, Why};
use adr_desk::ready::prepare;
use adr_desk::{SqlDesk, Start};
use adr_file::FileDesk;
use adr_script::ScriptFault;
use adr_state::Settings;
use adr_text::Refusal;
use log::{Log, error};
use sqlite::{Connection, Error, ErrorCode, File, FileStore};
use std::alloc::Global;
use std::fmt::Display;
use std::fs::OpenOptions;
use std::io::{ErrorKind, Write};
use std::os::unix::fs::OpenOptionsExt;
use std::rt::Files;
use std::{fmt, fs, io};

/// A database in a file.
type Database = Connection<FileStore<File>>;

/// Nobody but the file's owner reads it or writes to it: it holds tokens.
const MODE: u32 = 0o600;

/// Makes the file, without bytes. One that is there stays as it is.
fn make<R: Files>(rt: &R, path: &str, why: &mut Why) -> Result<(), NodeFault>
    ensures { IfErr result IsOfOpening }
{
    let made = OpenOptions::new()
        .write(true)
        .create_new(true)
        .mode(MODE)
        .open(rt, path);
    match made {
        Ok(_) => Ok(()),
        Err(error) if error.kind() == ErrorKind::OutOfMemory => {
            Err(NodeFault::Script(ScriptFault::OutOfMemory))
        }
        Err(error) => {
            why.say(path, &Cause::of(&error));
            Err(NodeFault::Store)
        }
    }
}

/// Why no file of that name can be opened as a database, in words.
fn reason(error: Error) -> &'static str {
    match error {
        Error::SqliteFailure(ErrorCode::DatabaseBusy) => "another process has it open",
        Error::SqliteFailure(ErrorCode::NotADatabase) => "not a database",
        Error::SqliteFailure(ErrorCode::DatabaseCorrupt) => "damaged",
        Error::SqliteFailure(ErrorCode::DiskFull) => "the disk is full",
        Error::SqliteFailure(ErrorCode::SystemIoFailure) => "the disk failed",
        _ => "can't be opened",
    }
}

/// So many bytes, so often, are more than the tables need and their log.
const TRIAL: usize = 65_536;

const TRIALS: u32 = 16;

/// Writes so many bytes behind those of a file that nobody needs.
fn write_more<R: Files>(rt: &R, path: &str) -> io::Result<()> {
    let mut file = OpenOptions::new().append(true).open(rt, path)?;
    for _ in 0..TRIALS {
        file.write_all(&[0; TRIAL])?;
    }
    Ok(())
}

/// Says why no tables could be made in a new file. The store tells only that it refused, so the system is asked.
fn say_unmade<R: Files>(rt: &R, path: &str, why: &mut Why) {
    match write_more(rt, path) {
        Ok(()) => why.say(path, &"the disk, or its file system, refused to write"),
        Err(error) => why.say(path, &Cause::of(&error)),
    }
}

/// What the program ends with where a database can't be opened.
fn fault_of(error: Error) -> NodeFault
    ensures { IsOfOpening result }
{
    match error {
        Error::SqliteFailure(ErrorCode::OutOfMemory) => {
            NodeFault::Script(ScriptFault::OutOfMemory)
        }
        _ => NodeFault::Store,
    }
}

/// Makes the tables of the empty state in a file without bytes.
fn fill(rt: &HostRuntime, path: &str, why: &mut Why) -> Result<(), NodeFault>
    ensures { IfErr result IsOfOpening }
{
    let mut conn = match Connection::open(rt, path) {
        Ok(conn) => conn,
        Err(error) => {
            why.say(path, &reason(error));
            return Err(fault_of(error));
        }
    };
    if let Err(refusal) = prepare(&mut conn, Start::New) {
        drop(conn);
        say_unmade(rt, path, why);
        return Err(NodeFault::from(refusal));
    }
    match conn.close() {
        Ok(()) => Ok(()),
        Err(error) => {
            say_unmade(rt, path, why);
            Err(fault_of(error))
        }
    }
}

/// Makes a new file, in which the tables hold the empty state. A file that is there is refused, also one without bytes,
/// and stays as it is. Where it can't be made it says why.
pub fn init(rt: &HostRuntime, path: &str, why: &mut Why) -> Result<(), NodeFault>
    ensures { IfErr result IsOfOpening }
{
    make(rt, path, why)?;
    fill(rt, path, why)
}

/// Why there is no file of that name that can be a node's.
#[derive(Clone, Copy)]
enum Unfit {
    Missing,
    /// It has no bytes. Opening would put the first page of a database there.
    Empty,
    /// The system lets nobody read and write it, or not this user.
    Closed(Cause),
}

impl Display for Unfit {
    fn fmt<W: fmt::Write>(&self, f: &mut fmt::Formatter<W>) -> fmt::Result {
        match self {
            Unfit::Missing => f.write_str("no such file"),
            Unfit::Empty => f.write_str("not a file of this node"),
            Unfit::Closed(cause) => write!(f, "{cause}"),
        }
    }
}

/// Whether the system lets nobody read and write a file, or not this user.
fn closed<R: Files>(rt: &R, path: &str) -> Option<Unfit> {
    match OpenOptions::new().read(true).write(true).open(rt, path) {
        Ok(_) => None,
        Err(error) => Some(Unfit::Closed(Cause::of(&error))),
    }
}

/// Why there is no file of that name that can be a node's, if there is none. Opening a database would make one.
fn fault_of_file<R: Files>(rt: &R, path: &str) -> Option<Unfit> {
    match fs::metadata(rt, path) {
        Ok(file) if file.len() == 0 => Some(Unfit::Empty),
        Ok(_) => closed(rt, path),
        Err(error) if error.kind() == ErrorKind::NotFound => Some(Unfit::Missing),
        Err(error) => Some(Unfit::Closed(Cause::of(&error))),
    }
}

/// Tells why a file is refused: the log, and whoever reads the last lines.
fn tell<L: Log, D: Display>(log: &L, why: &mut Why, path: &str, reason: &D) {
    error!(log; target: "node", path; "store: {reason}");
    why.say(path, reason);
}

/// Opens a file that is there. It tells why it can't.
fn open<L: Log>(rt: &HostRuntime, log: &L, path: &str, why: &mut Why) -> Result<Database, NodeFault>
    ensures opened { IfOk result (λ conn. conn.in_transaction ≡ false) }
    ensures fault { IfErr result IsOfOpening }
{
    if let Some(reason) = fault_of_file(rt, path) {
        tell(log, why, path, &reason);
        return Err(NodeFault::Store);
    }
    match Connection::open(rt, path) {
        Ok(conn) => Ok(conn),
        Err(error) => {
            tell(log, why, path, &reason(error));
            Err(fault_of(error))
        }
    }
}

/// The desk over a file that a node kept its state in, or in which `init` made the tables. Any other file is refused. The
/// log is told why it is, and so is whoever reads the last lines.
pub fn desk<L: Log>(
    rt: &HostRuntime,
    log: &L,
    alloc: Global,
    settings: Settings,
    path: &str,
    why: &mut Why,
) -> Result<FileDesk, NodeFault>
    ensures { IfErr result IsOfOpening }
{
    let conn = open(rt, log, path, why)?;
    match SqlDesk::adopt(alloc, settings, conn, Start::Kept) {
        Ok(desk) => inspected(log, FileDesk(desk), path, why),
        Err(refusal) => Err(refused(log, refusal, path, why)),
    }
}

/// Why the file is no node's, or can't be read; that is told.
fn refused<L: Log>(log: &L, refusal: Refusal, path: &str, why: &mut Why) -> NodeFault
    ensures { IsOfOpening result }
{
    tell(log, why, path, &refusal);
    NodeFault::from(refusal)
}

/// The desk, once every row of the tables that keep its state was read: a damaged one is found now and not when it is first
/// asked for.
fn inspected<L: Log>(
    log: &L,
    mut desk: FileDesk,
    path: &str,
    why: &mut Why,
) -> Result<FileDesk, NodeFault>
    ensures { IfErr result IsOfOpening }
{
    match desk.inspect() {
        Ok(()) => Ok(desk),
        Err(refusal) => Err(refused(log, refusal, path, why)),
    }
}
