//! Reports in tables in memory, posted, replaced and removed by the calls alone, without a desk: among them those of
//! rows 11 and 12, and the one of row 19 that names another resource. After each that is taken the roll-up is compared
//! byte for byte, and of one that is refused the refusal.
use crate::participants::{resource, share, ven};
use adr_db::{Meta, create, put_meta, read_meta};
use adr_db_mirror::put_mark;
use adr_objects::{Kind, Number, Rollup, RollupObject};
use adr_reports::{delete, post, put};
use adr_schema::{read_page, read_report};
use adr_state::{Limits, Report, key_of, mark_of};
use adr_text::{Name, ObjectId, Refusal};
use adr_upkeep::rollup;
use adr_view::Sight;
use adr_written::write_rollup;
use sqlite::{Alter, Connection, Transaction};
use std::alloc::Global;

const EVENT: &str =
    r#"[{"id":"e1","modificationDateTime":"2024-07-01T09:00:00Z","programID":"p1","intervals":[{"id":0,"payloads":[{"type":"DISPATCH_SETPOINT","values":[100]}]}]}]"#;

const A1_40: &str =
    r#"{"programID":"p1","eventID":"r3-e1","clientName":"c","resources":[{"resourceName":"a1","intervals":[{"id":0,"payloads":[{"type":"USAGE","values":[40]}]}]}]}"#;

const A1_45: &str =
    r#"{"programID":"p1","eventID":"r3-e1","clientName":"c","resources":[{"resourceName":"a1","intervals":[{"id":0,"payloads":[{"type":"USAGE","values":[45]}]}]}]}"#;

const A2_5: &str =
    r#"{"programID":"p1","eventID":"r4-e1","clientName":"c","resources":[{"resourceName":"a2","intervals":[{"id":0,"payloads":[{"type":"USAGE","values":[5]}]}]}]}"#;

const B1_0: &str =
    r#"{"programID":"p1","eventID":"r5-e1","clientName":"c","resources":[{"resourceName":"b1","intervals":[{"id":0,"payloads":[{"type":"USAGE","values":[0]}]}]}]}"#;

const A2_IN_PLACE_OF_A1: &str =
    r#"{"programID":"p1","eventID":"r3-e1","clientName":"c","resources":[{"resourceName":"a2","intervals":[{"id":0,"payloads":[{"type":"USAGE","values":[40]}]}]}]}"#;

const NO_EVENT: &str =
    r#"{"programID":"p1","eventID":"r3-e7","clientName":"c","resources":[{"resourceName":"a1","intervals":[{"id":0,"payloads":[{"type":"USAGE","values":[40]}]}]}]}"#;

const NO_RESOURCE: &str =
    r#"{"programID":"p1","eventID":"r9-e1","clientName":"c","resources":[{"resourceName":"a1","intervals":[{"id":0,"payloads":[{"type":"USAGE","values":[40]}]}]}]}"#;

const NO_DASH: &str =
    r#"{"programID":"p1","eventID":"e1","clientName":"c","resources":[{"resourceName":"a1","intervals":[{"id":0,"payloads":[{"type":"USAGE","values":[40]}]}]}]}"#;

const SUM_40: &str =
    r#"{"clientName":"aggregator","eventID":"e1","programID":"p1","resources":[{"intervals":[{"id":0,"payloads":[{"type":"USAGE","values":[40]},{"type":"MISSING_RESOURCES","values":["a2","b1"]}]}],"resourceName":"AGGREGATED_REPORT"}]}"#;

const SUM_45: &str =
    r#"{"clientName":"aggregator","eventID":"e1","programID":"p1","resources":[{"intervals":[{"id":0,"payloads":[{"type":"USAGE","values":[45]},{"type":"MISSING_RESOURCES","values":["a2","b1"]}]}],"resourceName":"AGGREGATED_REPORT"}]}"#;

const SUM_50: &str =
    r#"{"clientName":"aggregator","eventID":"e1","programID":"p1","resources":[{"intervals":[{"id":0,"payloads":[{"type":"USAGE","values":[50]},{"type":"MISSING_RESOURCES","values":["b1"]}]}],"resourceName":"AGGREGATED_REPORT"}]}"#;

const SUM_50_OF_ALL: &str =
    r#"{"clientName":"aggregator","eventID":"e1","programID":"p1","resources":[{"intervals":[{"id":0,"payloads":[{"type":"USAGE","values":[50]}]}],"resourceName":"AGGREGATED_REPORT"}]}"#;

const SUM_5: &str =
    r#"{"clientName":"aggregator","eventID":"e1","programID":"p1","resources":[{"intervals":[{"id":0,"payloads":[{"type":"USAGE","values":[5]},{"type":"MISSING_RESOURCES","values":["a1","b1"]}]}],"resourceName":"AGGREGATED_REPORT"}]}"#;

const SUM_0: &str =
    r#"{"clientName":"aggregator","eventID":"e1","programID":"p1","resources":[{"intervals":[{"id":0,"payloads":[{"type":"USAGE","values":[0]},{"type":"MISSING_RESOURCES","values":["a1","a2"]}]}],"resourceName":"AGGREGATED_REPORT"}]}"#;

const SUM_5_OF_A2_AND_B1: &str =
    r#"{"clientName":"aggregator","eventID":"e1","programID":"p1","resources":[{"intervals":[{"id":0,"payloads":[{"type":"USAGE","values":[5]},{"type":"MISSING_RESOURCES","values":["a1"]}]}],"resourceName":"AGGREGATED_REPORT"}]}"#;

/// What is told where there is no roll-up.
const NONE: &str = "none";

// Two vens, three resources, and a share of 1 in the program for each.
fn fill_portfolio<S: Alter>(alloc: Global, tx: &mut Transaction<'_, S>) -> Result<(), Refusal> {
    ven(alloc, tx, 1, "alpha")?;
    ven(alloc, tx, 2, "beta")?;
    resource(alloc, tx, 3, 1, "a1")?;
    resource(alloc, tx, 4, 1, "a2")?;
    resource(alloc, tx, 5, 2, "b1")
}

fn fill_shares<S: Alter>(alloc: Global, tx: &mut Transaction<'_, S>) -> Result<(), Refusal> {
    share(alloc, tx, "p1", 3, 1)?;
    share(alloc, tx, "p1", 4, 1)?;
    share(alloc, tx, "p1", 5, 1)
}

fn fill_event<S: Alter>(alloc: Global, tx: &mut Transaction<'_, S>) -> Result<(), Refusal> {
    let (found, _) = read_page(alloc, Kind::Event, EVENT.as_bytes())?;
    for version in found.as_slice() {
        put_mark(alloc, tx, &key_of(version)?, &mark_of(version)?)?;
    }
    Ok(())
}

// The roll-up as it is told to the utility.
fn written(alloc: Global, event: ObjectId, found: Option<Rollup>) -> Result<String, Refusal> {
    match found {
        Some(rollup) => {
            let client = Name::new(alloc, "aggregator")?;
            Ok(write_rollup(
                alloc,
                &RollupObject {
                    client,
                    event,
                    rollup,
                },
            )?)
        }
        None => Ok(String::from_str(alloc, NONE)?),
    }
}

fn rolled_up<S: Alter>(alloc: Global, tx: &mut Transaction<'_, S>) -> Result<String, Refusal> {
    let event = ObjectId::new(alloc, "e1")?;
    let found = rollup(alloc, tx, &event)?;
    written(alloc, event, found)
}

// Whether the roll-up is this after a call that went well and left these numbers, or the refusal has this title.
fn is_told<S: Alter>(
    alloc: Global,
    tx: &mut Transaction<'_, S>,
    meta: &Meta,
    outcome: Result<(Number, Report), Refusal>,
    told: &str,
) -> Result<bool, Refusal> {
    match outcome {
        Ok(_) => {
            put_meta(tx, meta)?;
            Ok(rolled_up(alloc, tx)?.as_str() == told)
        }
        Err(refusal) => Ok(refusal.title() == told),
    }
}

fn posts<S: Alter>(
    alloc: Global,
    tx: &mut Transaction<'_, S>,
    limits: &Limits,
    number: u64,
    text: &str,
    told: &str,
) -> Result<bool, Refusal> {
    let report = read_report(alloc, text.as_bytes())?;
    let mut meta = read_meta(tx)?;
    let outcome = post(
        alloc,
        tx,
        limits,
        &mut meta,
        Sight::All,
        Number::new(number),
        &report,
    );
    is_told(alloc, tx, &meta, outcome, told)
}

fn puts<S: Alter>(
    alloc: Global,
    tx: &mut Transaction<'_, S>,
    revision: u64,
    id: &str,
    text: &str,
    told: &str,
) -> Result<bool, Refusal> {
    let report = read_report(alloc, text.as_bytes())?;
    let id = ObjectId::new(alloc, id)?;
    let mut meta = read_meta(tx)?;
    let outcome = put(
        alloc,
        tx,
        &mut meta,
        Sight::All,
        Number::new(revision),
        &id,
        &report,
    );
    is_told(alloc, tx, &meta, outcome, told)
}

fn deletes<S: Alter>(
    alloc: Global,
    tx: &mut Transaction<'_, S>,
    id: &str,
    told: &str,
) -> Result<bool, Refusal> {
    let id = ObjectId::new(alloc, id)?;
    let mut meta = read_meta(tx)?;
    let outcome = delete(alloc, tx, &mut meta, Sight::All, &id);
    is_told(alloc, tx, &meta, outcome, told)
}

// The reports of row 11: one is replaced, and those of the others come.
fn row_11<S: Alter>(
    alloc: Global,
    tx: &mut Transaction<'_, S>,
    limits: &Limits,
) -> Result<bool, Refusal> {
    Ok(
        posts(alloc, tx, limits, 6, A1_40, SUM_40)?
            && puts(alloc, tx, 7, "p6", A1_45, SUM_45)?
            && posts(alloc, tx, limits, 8, A2_5, SUM_50)?
            && posts(alloc, tx, limits, 9, B1_0, SUM_50_OF_ALL)?,
    )
}

// They go, and the last takes the roll-up along.
fn all_go<S: Alter>(alloc: Global, tx: &mut Transaction<'_, S>) -> Result<bool, Refusal> {
    Ok(
        deletes(alloc, tx, "p6", SUM_5_OF_A2_AND_B1)?
            && deletes(alloc, tx, "p8", SUM_0)?
            && deletes(alloc, tx, "p9", NONE)?,
    )
}

// The reports of row 12: two on one event, of which the later counts, and goes first.
fn row_12<S: Alter>(
    alloc: Global,
    tx: &mut Transaction<'_, S>,
    limits: &Limits,
) -> Result<bool, Refusal> {
    Ok(
        posts(alloc, tx, limits, 6, A1_40, SUM_40)?
            && posts(alloc, tx, limits, 7, A1_45, SUM_45)?
            && deletes(alloc, tx, "p7", SUM_40)?
            && deletes(alloc, tx, "p6", NONE)?,
    )
}

// A report that does not fit its event, of row 19, and one on an event or a resource that isn't there.
fn refused_posts<S: Alter>(
    alloc: Global,
    tx: &mut Transaction<'_, S>,
    limits: &Limits,
) -> Result<bool, Refusal> {
    Ok(
        posts(
            alloc,
            tx,
            limits,
            6,
            A2_IN_PLACE_OF_A1,
            "ResourceNotOfEvent",
        )? && posts(alloc, tx, limits, 6, NO_EVENT, "NotFound")?
            && posts(alloc, tx, limits, 6, NO_RESOURCE, "NotFound")?
            && posts(alloc, tx, limits, 6, NO_DASH, "NotFound")?,
    )
}

// With room for one report, the second is refused, the first may be replaced, also by one on another event; what
// isn't there is neither replaced nor removed.
fn one_at_most<S: Alter>(
    alloc: Global,
    tx: &mut Transaction<'_, S>,
    limits: &Limits,
) -> Result<bool, Refusal> {
    Ok(
        posts(alloc, tx, limits, 6, A1_40, SUM_40)?
            && posts(alloc, tx, limits, 7, A1_45, "LimitReached")?
            && puts(alloc, tx, 7, "p6", A2_5, SUM_5)?
            && puts(alloc, tx, 8, "p7", A1_45, "NotFound")?
            && deletes(alloc, tx, "p7", "NotFound")?
            && deletes(alloc, tx, "r6", "NotFound")?,
    )
}

fn run_all<S: Alter>(
    alloc: Global,
    tx: &mut Transaction<'_, S>,
    limits: &Limits,
    one: &Limits,
) -> Result<bool, Refusal> {
    Ok(
        row_11(alloc, tx, limits)?
            && all_go(alloc, tx)?
            && row_12(alloc, tx, limits)?
            && refused_posts(alloc, tx, limits)?
            && one_at_most(alloc, tx, one)?,
    )
}

fn run_in<S: Alter>(alloc: Global, tx: &mut Transaction<'_, S>) -> Result<bool, Refusal> {
    create(tx)?;
    fill_portfolio(alloc, tx)?;
    fill_shares(alloc, tx)?;
    fill_event(alloc, tx)?;
    let mut one = Limits::largest();
    one.set("reports", 1);
    run_all(alloc, tx, &Limits::largest(), &one)
}

fn run<S: Alter>(alloc: Global, conn: &mut Connection<S>) -> Result<bool, Refusal> {
    if !conn.is_autocommit() {
        return Err(Refusal::Store);
    }
    run_in(alloc, &mut conn.transaction())
}

/// Posts, replaces and removes reports in tables in memory, prints how it went, and answers whether it passed.
pub fn run_reports<R: Print + AllocGlobal>(rt: &R) -> anyhow::Result<bool> {
    let alloc = rt.alloc();
    let mut conn = Connection::open_in_memory(alloc)?;
    if run(alloc, &mut conn)? {
        println!(rt; "reports passed")?;
        return Ok(true);
    }
    println!(rt; "reports failed")?;
    Ok(false)
}
