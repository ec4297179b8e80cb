//! Files that a desk is asked to take: those of something else, which it refuses and leaves as they are, and one that holds
//! more than its limits allow, which it takes.
ghost use Rattle.std.specs.Prelude.{IsTrue};

use crate::participants::ven;
use crate::play::play;
use crate::settings_of;
use adr_db::statement::run;
use adr_db::{Meta, create, put_meta};
use adr_desk::{SqlDesk, Start};
use adr_state::{Limits, Serial};
use adr_text::Refusal;
use anyhow::{Context, Result, bail};
use row_desks::{Disks, Row, Stop, bytes_of, new_disks, open, read_row};
use sqlite::{Alter, Connection, FileStore, Transaction};
use sqlite_disk::{Disk, Fuse, Memory};
use std::alloc::Global;

/// Files, and how they come to be.
#[derive(Clone, Copy)]
struct Case {
    name: &'static str,
    /// Whether the tables of a new node are made first.
    is_made: bool,
    /// What is done then, if anything.
    statement: &'static str,
}

/// Files that are not those of a node.
const FOREIGN: [Case; 7] = [
    Case {
        name: "without a table",
        is_made: false,
        statement: "",
    },
    Case {
        name: "of another schema",
        is_made: false,
        statement: "CREATE TABLE note (id INT NOT NULL, text TEXT NOT NULL, PRIMARY KEY (id)) STRICT",
    },
    Case {
        name: "with another table meta",
        is_made: false,
        statement: "CREATE TABLE meta (k INT NOT NULL, text TEXT NOT NULL, PRIMARY KEY (k)) STRICT",
    },
    Case {
        name: "without the table meta",
        is_made: true,
        statement: "DROP TABLE meta",
    },
    Case {
        name: "without the row in meta",
        is_made: true,
        statement: "DELETE FROM meta",
    },
    Case {
        name: "of a later version",
        is_made: true,
        statement: "UPDATE meta SET version = 3",
    },
    Case {
        name: "of the version before the first",
        is_made: true,
        statement: "UPDATE meta SET version = 0",
    },
];

/// The files of a node, which are not new ones.
const MADE: Case = Case {
    name: "of a node, taken as new",
    is_made: true,
    statement: "",
};

/// How a desk takes files, and how it is to refuse them.
#[derive(Clone, Copy)]
struct Wanted {
    start: Start,
    refusal: Refusal,
}

fn fill<S: Alter>(tx: &mut Transaction<'_, S>, case: &Case) -> Result<(), Refusal> {
    if case.is_made {
        create(tx)?;
    }
    if case.statement.is_empty() {
        return Ok(());
    }
    run(tx, case.statement, &[])
}

fn fill_and_commit<S: Alter>(conn: &mut Connection<S>, case: &Case) -> Result<()> {
    if !conn.is_autocommit() {
        bail!("a transaction stands");
    }
    let mut tx = conn.transaction();
    fill(&mut tx, case)?;
    tx.commit()?;
    Ok(())
}

/// Whether a desk refuses to take a database as it has to, and gives back files that hold these bytes.
fn is_refused(
    alloc: Global,
    wanted: Wanted,
    conn: Connection<FileStore<Fuse<Memory>>>,
    bytes: &(Vec<u8>, Vec<u8>),
) -> Result<bool> {
    let settings = settings_of(alloc, Limits::largest())?;
    if !conn.is_autocommit() {
        return Ok(false);
    }
    match SqlDesk::adopt_or_back(alloc, settings, conn, wanted.start) {
        Ok(_) => Ok(false),
        Err((refusal, conn)) => {
            let left = bytes_of(alloc, &conn.into_store().close())?;
            Ok(refusal == wanted.refusal && left == *bytes)
        }
    }
}

/// Opens files and has a desk refuse them.
fn is_left_alone(alloc: Global, wanted: Wanted, files: Disks) -> Result<bool>
    requires log { IsTrue (⟦<Fuse<Memory> as Disk>⟧.is_usable files.log) }
    requires db { IsTrue (⟦<Fuse<Memory> as Disk>⟧.is_usable files.db) }
{
    let bytes = bytes_of(alloc, &files)?;
    match open(alloc, files) {
        Ok(conn) => is_refused(alloc, wanted, conn, &bytes),
        Err(_) => Ok(false),
    }
}

fn run_case(alloc: Global, case: &Case, wanted: Wanted) -> Result<bool> {
    let Ok(mut conn) = open(alloc, new_disks(alloc, Stop::never())) else {
        return Ok(false);
    };
    fill_and_commit(&mut conn, case)?;
    match conn.close_files() {
        Ok(files) => is_left_alone(alloc, wanted, files),
        Err((_, store)) => {
            drop(store.close());
            Ok(false)
        }
    }
}

/// What is asked of a node whose file holds two vens, where its limits allow one.
const FULL: &str = r#"row limits below what a file holds
set vens=1
> 2024-07-01T10:00:00Z operator GET /vens
< 200 [{"createdDateTime":"1970-01-01T00:00:01Z","id":"v1","modificationDateTime":"1970-01-01T00:00:01Z","objectType":"VEN","venName":"alpha"},{"createdDateTime":"1970-01-01T00:00:01Z","id":"v2","modificationDateTime":"1970-01-01T00:00:01Z","objectType":"VEN","venName":"beta"}]
> 2024-07-01T10:00:00Z operator POST /vens {"venName":"gamma"}
< 409 {"detail":"too many objects","status":409,"title":"LimitReached"}
> 2024-07-01T10:00:00Z operator PUT /vens/v2 {"venName":"gamma"}
< 200 {"createdDateTime":"1970-01-01T00:00:01Z","id":"v2","modificationDateTime":"2024-07-01T10:00:00Z","objectType":"VEN","venName":"gamma"}
> 2024-07-01T10:00:00Z operator POST /vens/v1/resources {"resourceName":"a1"}
< 201 {"createdDateTime":"2024-07-01T10:00:00Z","id":"r3","modificationDateTime":"2024-07-01T10:00:00Z","objectType":"RESOURCE","resourceName":"a1","venID":"v1"}
> 2024-07-01T10:00:00Z operator DELETE /vens/v2
< 200 {"createdDateTime":"1970-01-01T00:00:01Z","id":"v2","modificationDateTime":"2024-07-01T10:00:00Z","objectType":"VEN","venName":"gamma"}
> 2024-07-01T10:00:00Z operator POST /vens {"venName":"delta"}
< 409 {"detail":"too many objects","status":409,"title":"LimitReached"}
> 2024-07-01T10:00:00Z operator DELETE /vens/v1
< 200 {"createdDateTime":"1970-01-01T00:00:01Z","id":"v1","modificationDateTime":"1970-01-01T00:00:01Z","objectType":"VEN","venName":"alpha"}
> 2024-07-01T10:00:00Z operator POST /vens {"venName":"delta"}
< 201 {"createdDateTime":"2024-07-01T10:00:00Z","id":"v4","modificationDateTime":"2024-07-01T10:00:00Z","objectType":"VEN","venName":"delta"}
"#;

/// The numbers of a node that has drawn two, for the two vens that it has.
fn two_drawn() -> Option<Meta> {
    let serial = Serial::at(2)?;
    Some(Meta {
        serial,
        vens: 2,
        ..Meta::first()
    })
}

fn fill_vens<S: Alter>(
    alloc: Global,
    tx: &mut Transaction<'_, S>,
    meta: &Meta,
) -> Result<(), Refusal> {
    create(tx)?;
    ven(alloc, tx, 1, "alpha")?;
    ven(alloc, tx, 2, "beta")?;
    put_meta(tx, meta)
}

fn commit_vens<S: Alter>(alloc: Global, conn: &mut Connection<S>) -> Result<()> {
    let meta = two_drawn().context("no such number")?;
    if !conn.is_autocommit() {
        bail!("a transaction stands");
    }
    let mut tx = conn.transaction();
    fill_vens(alloc, &mut tx, &meta)?;
    tx.commit()?;
    Ok(())
}

/// Takes a database as one that was kept, and runs a row on it.
fn is_taken(alloc: Global, row: &Row, conn: Connection<FileStore<Fuse<Memory>>>) -> Result<bool> {
    let settings = settings_of(alloc, row.limits)?;
    if !conn.is_autocommit() {
        return Ok(false);
    }
    match SqlDesk::adopt(alloc, settings, conn, Start::Kept) {
        Ok(mut desk) => {
            let played = play(alloc, &mut desk, row);
            Ok(played.passed(row))
        }
        Err(_) => Ok(false),
    }
}

/// Whether a file that holds more than the limits allow is taken, and additions alone are refused.
fn run_full(alloc: Global) -> Result<bool> {
    let row = read_row(alloc, FULL.as_bytes())?;
    let Ok(mut conn) = open(alloc, new_disks(alloc, Stop::never())) else {
        return Ok(false);
    };
    commit_vens(alloc, &mut conn)?;
    is_taken(alloc, &row, conn)
}

fn tell<R: Print>(rt: &R, name: &str, passed: bool) -> Result<bool> {
    let word = if passed { "passed" } else { "failed" };
    println!(rt; "file {name} {word}")?;
    Ok(passed)
}

/// Has a desk take files of all kinds, prints how it went, and answers whether it passed.
pub fn run_kept_files<R: Print + AllocGlobal>(rt: &R) -> Result<bool> {
    let mut passed = true;
    let foreign = Wanted {
        start: Start::Kept,
        refusal: Refusal::BadFile,
    };
    for case in &FOREIGN {
        passed &= tell(rt, case.name, run_case(rt.alloc(), case, foreign)?)?;
    }
    let new = Wanted {
        start: Start::New,
        refusal: Refusal::Store,
    };
    passed &= tell(rt, MADE.name, run_case(rt.alloc(), &MADE, new)?)?;
    let full = run_full(rt.alloc())?;
    passed &= tell(rt, "beyond its limits", full)?;
    Ok(passed)
}
