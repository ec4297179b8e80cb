//! What a refresh takes.
use crate::play::make_tables;
use adr_db::Meta;
use adr_db_portfolio::{Sharers, put_report, put_resource, put_share, put_ven};
use adr_mirror::{gone, put_evidence};
use adr_objects::{
    Body, EventBody, Found, Interval, Intervals, Kind, Number, ReportBody, ReportHead,
    ResourceName, Setpoint, Stamps, UpstreamId, UsageInterval,
};
use adr_state::{Limits, Report, Resource, ShareKey, Ven, Weight, fresh};
use adr_text::{Moment, Name, ObjectId, Refusal, Rows};
use adr_upkeep::{refresh_rollup_sharing, refresh_sharing};
use anyhow::{Context, Result, bail};
use sqlite::{Alter, Connection, Transaction};
use std::alloc::Global;
use std::time::{Clock, Duration, Instant};

/// How many vens there are. Their numbers come first, and those of the resources behind them.
const VENS: u64 = 10;

/// How much is measured.
#[derive(Clone, Copy)]
struct Size {
    participants: u64,
    events: u64,
}

fn stamps(moment: u64) -> Result<Stamps, Refusal> {
    Ok(fresh(Moment::at(moment)?))
}

fn program(alloc: Global) -> Result<ObjectId, Refusal> {
    ObjectId::new(alloc, "p")
}

fn event_id(alloc: Global, event: u64) -> Result<ObjectId, Refusal> {
    ObjectId::new(alloc, format!(in alloc; "e{event}")?.as_str())
}

fn fill_ven<S: Alter>(
    alloc: Global,
    tx: &mut Transaction<'_, S>,
    number: u64,
) -> Result<(), Refusal> {
    let name = format!(in alloc; "ven {number}")?;
    let ven = Ven {
        name: Name::new(alloc, name.as_str())?,
        stamps: stamps(1)?,
    };
    put_ven(tx, Number::new(number), &ven)
}

// The resource at a place has the number behind those of the vens.
fn number_at(place: u64) -> Number {
    Number::new(place.wrapping_add(VENS).wrapping_add(1))
}

fn name_resource<S: Alter>(
    alloc: Global,
    tx: &mut Transaction<'_, S>,
    place: u64,
    name: &str,
) -> Result<(), Refusal> {
    let resource = Resource {
        ven: Number::new((place % VENS).wrapping_add(1)),
        name: ResourceName::new(alloc, name)?,
        stamps: stamps(1)?,
    };
    put_resource(tx, number_at(place), &resource)
}

fn fill_share<S: Alter>(
    alloc: Global,
    tx: &mut Transaction<'_, S>,
    place: u64,
) -> Result<(), Refusal> {
    let key = ShareKey {
        program: program(alloc)?,
        resource: number_at(place),
    };
    match Weight::new(1) {
        Some(weight) => put_share(tx, &key, weight),
        None => Err(Refusal::BadShare),
    }
}

fn fill_portfolio<S: Alter>(
    alloc: Global,
    tx: &mut Transaction<'_, S>,
    size: Size,
) -> Result<(), Refusal> {
    for number in 1..=VENS {
        fill_ven(alloc, tx, number)?;
    }
    for place in 0..size.participants {
        let name = format!(in alloc; "resource {place}")?;
        name_resource(alloc, tx, place, name.as_str())?;
        fill_share(alloc, tx, place)?;
    }
    Ok(())
}

// An interval with so much for each participant.
fn intervals(alloc: Global, size: Size, each: u64) -> Result<Intervals, Refusal> {
    let amount = i64::try_from(size.participants.wrapping_mul(each)).unwrap_or(0);
    let mut intervals = Vec::new(alloc);
    intervals.push(Interval {
        id: 0,
        period: None,
        setpoint: Some(Setpoint::new(amount)?),
    })?;
    Ok(Intervals::apart(intervals)?)
}

fn version(alloc: Global, size: Size, event: u64, each: u64) -> Result<Found, Refusal> {
    let body = EventBody {
        program: program(alloc)?,
        name: None,
        priority: None,
        period: None,
        resource_names: None,
        intervals: intervals(alloc, size, each)?,
    };
    Ok(Found {
        kind: Kind::Event,
        id: UpstreamId::new(alloc, event_id(alloc, event)?.as_str())?,
        moment: Moment::at(each)?,
        body: Body::Event(body),
    })
}

// The versions of all events in which each participant has so much, which is their moment too.
fn versions(alloc: Global, size: Size, each: u64) -> Result<Vec<Found>, Refusal> {
    let mut versions = Vec::new(alloc);
    for event in 0..size.events {
        versions.push(version(alloc, size, event, each)?)?;
    }
    Ok(versions)
}

fn put_events<S: Alter>(
    alloc: Global,
    tx: &mut Transaction<'_, S>,
    size: Size,
    each: u64,
) -> Result<(), Refusal> {
    let mut meta = Meta::first();
    let versions = versions(alloc, size, each)?;
    put_evidence(alloc, tx, &Limits::largest(), &mut meta, &versions, false)?;
    Ok(())
}

fn drop_event<S: Alter>(
    alloc: Global,
    tx: &mut Transaction<'_, S>,
    event: u64,
) -> Result<(), Refusal> {
    let mut meta = Meta::first();
    let id = event_id(alloc, event)?;
    gone(alloc, tx, &Limits::largest(), &mut meta, Kind::Event, &id)?;
    Ok(())
}

fn drop_events<S: Alter>(
    alloc: Global,
    tx: &mut Transaction<'_, S>,
    size: Size,
) -> Result<(), Refusal> {
    for event in 0..size.events {
        drop_event(alloc, tx, event)?;
    }
    Ok(())
}

// A report that says so much for the one interval of an event. No two have one revision.
fn report(
    alloc: Global,
    number: Number,
    event: u64,
    place: u64,
    amount: u64,
) -> Result<Report, Refusal> {
    let name = format!(in alloc; "resource {place}")?;
    let usage = UsageInterval {
        id: 0,
        usage: Some(Setpoint::new(i64::try_from(amount).unwrap_or(0))?),
    };
    let body = ReportBody {
        head: ReportHead {
            program: program(alloc)?,
            event: event_id(alloc, event)?,
            resource: number_at(place),
            client: Name::new(alloc, "meter")?,
            name: None,
            resource_name: Name::new(alloc, name.as_str())?,
        },
        intervals: Rows::from_vec(vec![in alloc; usage]?),
    };
    Ok(Report {
        revision: Number::new(amount.wrapping_mul(10_000_000).wrapping_add(number.get())),
        body,
    })
}

// The reports on an event stand behind those on the ones before it, in the order of the resources.
fn report_number(size: Size, event: u64, place: u64) -> Number {
    Number::new(
        event
            .wrapping_mul(size.participants)
            .wrapping_add(place)
            .wrapping_add(100_000),
    )
}

fn put_report_of<S: Alter>(
    alloc: Global,
    tx: &mut Transaction<'_, S>,
    size: Size,
    event: u64,
    place: u64,
    amount: u64,
) -> Result<(), Refusal> {
    let number = report_number(size, event, place);
    let report = report(alloc, number, event, place, amount)?;
    put_report(tx, number, &report)
}

// A report of so many participants on each event, who say so much.
fn put_reports<S: Alter>(
    alloc: Global,
    tx: &mut Transaction<'_, S>,
    size: Size,
    participants: u64,
    amount: u64,
) -> Result<(), Refusal> {
    for event in 0..size.events {
        for place in 0..participants {
            put_report_of(alloc, tx, size, event, place, amount)?;
        }
    }
    Ok(())
}

/// What is refreshed.
#[derive(Clone, Copy)]
enum Refreshed {
    Shown,
    Rollups,
}

// Refreshes an event or its roll-up, and answers how many changes were told.
fn refresh_one<S: Alter>(
    alloc: Global,
    tx: &mut Transaction<'_, S>,
    sharers: &mut Sharers,
    refreshed: Refreshed,
    event: &ObjectId,
    now: Moment,
) -> Result<u64, Refusal> {
    match refreshed {
        Refreshed::Shown => {
            let changes = refresh_sharing(alloc, tx, sharers, event, now)?;
            Ok(changes.len() as u64)
        }
        Refreshed::Rollups => {
            let change = refresh_rollup_sharing(alloc, tx, sharers, event, now)?;
            Ok(u64::from(change.is_some()))
        }
    }
}

// Refreshes each event, or its roll-up, and answers how many changes were told.
fn refresh_all<S: Alter>(
    alloc: Global,
    tx: &mut Transaction<'_, S>,
    size: Size,
    refreshed: Refreshed,
    now: Moment,
) -> Result<u64, Refusal> {
    let mut told = 0u64;
    let mut sharers = Sharers::none(alloc);
    for event in 0..size.events {
        let event = event_id(alloc, event)?;
        let more = refresh_one(alloc, tx, &mut sharers, refreshed, &event, now)?;
        told = told.wrapping_add(more);
    }
    Ok(told)
}

/// What is done before a refresh is measured.
#[derive(Clone, Copy)]
enum Before {
    /// All is new.
    Fill,
    Nothing,
    /// One resource is renamed.
    Rename,
    /// Newer versions of the events come.
    Versions,
    /// Each participant reports on each event.
    Reports,
    /// One of them reports something else on each.
    Report,
    /// All of them do.
    NewReports,
    /// The events are gone.
    Gone,
}

fn prepare<S: Alter>(
    alloc: Global,
    tx: &mut Transaction<'_, S>,
    size: Size,
    before: Before,
) -> Result<(), Refusal> {
    match before {
        Before::Fill => {
            fill_portfolio(alloc, tx, size)?;
            put_events(alloc, tx, size, 1)
        }
        Before::Nothing => Ok(()),
        Before::Rename => name_resource(alloc, tx, 0, "renamed"),
        Before::Versions => put_events(alloc, tx, size, 2),
        Before::Reports => put_reports(alloc, tx, size, size.participants, 1),
        Before::Report => put_reports(alloc, tx, size, 1, 2),
        Before::NewReports => put_reports(alloc, tx, size, size.participants, 3),
        Before::Gone => drop_events(alloc, tx, size),
    }
}

fn prepare_in<S: Alter>(
    alloc: Global,
    conn: &mut Connection<S>,
    size: Size,
    before: Before,
) -> Result<()> {
    if !conn.is_autocommit() {
        bail!("a transaction stands");
    }
    let mut tx = conn.transaction();
    prepare(alloc, &mut tx, size, before)?;
    tx.commit()?;
    Ok(())
}

fn refresh_in<S: Alter>(
    alloc: Global,
    conn: &mut Connection<S>,
    size: Size,
    refreshed: Refreshed,
    now: Moment,
) -> Result<u64> {
    if !conn.is_autocommit() {
        bail!("a transaction stands");
    }
    let mut tx = conn.transaction();
    let told = refresh_all(alloc, &mut tx, size, refreshed, now)?;
    tx.commit()?;
    Ok(told)
}

/// Tenths of a microsecond, as microseconds.
fn in_micros(alloc: Global, tenths: u64) -> Result<String> {
    Ok(format!(in alloc; "{}.{}", tenths / 10, tenths % 10)?)
}

fn print_took<R: Print + AllocGlobal>(
    rt: &R,
    name: &str,
    size: Size,
    told: u64,
    took: Duration,
) -> Result<()> {
    let tenths = u64::try_from(took.as_nanos() / 100).unwrap_or(u64::MAX);
    let event = tenths.checked_div(size.events).unwrap_or(0);
    let participant = event.checked_div(size.participants).unwrap_or(0);
    let event = in_micros(rt.alloc(), event)?;
    let participant = in_micros(rt.alloc(), participant)?;
    println!(rt; "{name}: {event} us an event, {participant} us a participant, {told} changes")?;
    Ok(())
}

fn measure<S: Alter, R: Print + Clock + AllocGlobal>(
    rt: &R,
    conn: &mut Connection<S>,
    size: Size,
    before: Before,
    refreshed: Refreshed,
    name: &str,
) -> Result<()> {
    prepare_in(rt.alloc(), conn, size, before)?;
    let now = Moment::at(1)?;
    let start = Instant::now(rt)?;
    let told = refresh_in(rt.alloc(), conn, size, refreshed, now)?;
    let took = start.elapsed(rt)?;
    print_took(rt, name, size, told, took)
}

fn measure_all<S: Alter, R: Print + Clock + AllocGlobal>(
    rt: &R,
    conn: &mut Connection<S>,
    size: Size,
) -> Result<()> {
    make_tables(conn)?;
    let shown = Refreshed::Shown;
    measure(rt, conn, size, Before::Fill, shown, "all new")?;
    measure(rt, conn, size, Before::Nothing, shown, "no change")?;
    measure(rt, conn, size, Before::Rename, shown, "one change")?;
    measure(rt, conn, size, Before::Versions, shown, "all changed")?;
    let rollups = Refreshed::Rollups;
    measure(rt, conn, size, Before::Reports, rollups, "new roll-ups")?;
    measure(rt, conn, size, Before::Nothing, rollups, "roll-ups stay")?;
    measure(
        rt,
        conn,
        size,
        Before::Report,
        rollups,
        "one report changed",
    )?;
    measure(
        rt,
        conn,
        size,
        Before::NewReports,
        rollups,
        "all reports changed",
    )?;
    measure(rt, conn, size, Before::Gone, shown, "all gone")?;
    measure(rt, conn, size, Before::Nothing, rollups, "roll-ups gone")
}

fn number_in(text: &str) -> Result<u64> {
    text.parse().ok().context("no number")
}

/// Measures over so many participants and events, in memory or in the file of that path, which is to be a new one.
pub fn run(rt: &HostRuntime, participants: &str, events: &str, file: Option<&str>) -> Result<()> {
    let size = Size {
        participants: number_in(participants)?,
        events: number_in(events)?,
    };
    match file {
        Some(path) => measure_all(rt, &mut Connection::open(rt, path)?, size),
        None => measure_all(rt, &mut Connection::open_in_memory(rt.alloc())?, size),
    }
}
