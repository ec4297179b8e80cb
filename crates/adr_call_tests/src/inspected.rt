//! Every row of every table is read as a kept file is opened: a row that reads as none of the node's is the store's refusal.
use adr_desk::ready::prepare;
use adr_desk::{SqlDesk, Start};
use adr_machine::Desk;
use adr_state::{Limits, Settings};
use adr_text::{Name, Refusal};
use sqlite::{Connection, MemStore};
use std::alloc::Global;
use std::test::Fail;

/// What stands in the tables before a row is put that is none of the node's.
const GOOD: &str =
    "INSERT INTO ven VALUES (1, 'alpha', 0, 0); INSERT INTO resource VALUES (2, 1, 'a1', 0, 0); INSERT INTO report VALUES (3, 'e1', 2, 'p1', 'c', NULL, 'a1', 3)";

/// A row of each table that is none of the node's, and which table it is.
const BAD: [(&str, &str); 14] = [
    ("meta", "UPDATE meta SET made = -1"),
    (
        "mirror",
        "INSERT INTO mirror VALUES (2, 'e1', 1, 0, 'no body', 'p1')",
    ),
    ("polled", "INSERT INTO polled VALUES (7, 'e1')"),
    ("ven", "INSERT INTO ven VALUES (9, '', 0, 0)"),
    ("resource", "INSERT INTO resource VALUES (9, 1, '', 0, 0)"),
    ("share", "INSERT INTO share VALUES ('', 2, 1)"),
    (
        "report",
        "INSERT INTO report VALUES (9, '', 2, 'p1', 'c', NULL, 'a1', 9)",
    ),
    (
        "report_value",
        "INSERT INTO report_value VALUES (3, 0, 3000000000, 1)",
    ),
    ("sub", "INSERT INTO sub VALUES (9, NULL, 'no body', 0, 0)"),
    ("remote", "INSERT INTO remote VALUES ('e1', '')"),
    (
        "outbox",
        "INSERT INTO outbox VALUES (9, 8, NULL, 9, 'x', NULL, '', 0, 0, 0, 0, 0)",
    ),
    ("stamp", "INSERT INTO stamp VALUES (9, 'e1', 0, 0, 0)"),
    ("frozen", "INSERT INTO frozen VALUES ('')"),
    ("frozen_share", "INSERT INTO frozen_share VALUES ('', 2, 1)"),
];

// A desk over tables in which these statements put rows.
fn desk(alloc: Global, statements: &str) -> Result<SqlDesk<MemStore>, Refusal> {
    let mut conn = Connection::open_in_memory(alloc)?;
    prepare(&mut conn, Start::New)?;
    if conn.execute_batch(statements).is_err() {
        return Err(Refusal::NotFound);
    }
    let settings = Settings {
        client: Name::new(alloc, "aggregator")?,
        limits: Limits::largest(),
    };
    if !conn.is_autocommit() {
        return Err(Refusal::NotFound);
    }
    SqlDesk::adopt(alloc, settings, conn, Start::Kept)
}

// Whether all rows read.
fn reads(alloc: Global, statements: &str) -> Result<bool, Refusal> {
    match desk(alloc, statements)?.inspect() {
        Ok(()) => Ok(true),
        Err(Refusal::Store) => Ok(false),
        Err(refusal) => Err(refusal),
    }
}

#[test]
fn each_row_is_read(rt: HostRuntime) -> Result<(), Fail> {
    let alloc = rt.alloc();
    assert!(rt; reads(alloc, GOOD)?);
    for (table, bad) in BAD {
        let both = format!(in alloc; "{GOOD}; {bad}")?;
        assert!(rt; !reads(alloc, both.as_str())?, "{table}");
    }
    Ok(())
}
