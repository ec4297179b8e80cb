//! The versions of upstream objects that come.
use crate::dice::Dice;
use crate::scene::Scene;
use adr_objects::{
    Body, EventBody, EventName, Found, Interval, Intervals, Kind, NameSet, Priority, Reason,
    Setpoint, UpstreamId,
};
use adr_text::{Moment, Name, ObjectId, Refusal};
use std::alloc::Global;

/// The names of resources, which events are for too.
pub const RESOURCES: [&str; 8] = [
    "battery", "boiler", "charger", "chiller", "fan", "heater", "pump", "solar",
];

const PROGRAM_NAMES: [&str; 3] = ["day", "evening", "night"];

/// The programs that events are of. Their ids are those of the first programs that come.
const PROGRAMS: u64 = 2;

/// How many programs come.
const ALL_PROGRAMS: u64 = 6;

/// How many events live at a time.
pub const EVENTS: u64 = 4;

/// The id of a program that events are of.
pub fn program_shared(alloc: Global, dice: &mut Dice) -> Result<ObjectId, Refusal> {
    let number = dice.below(PROGRAMS);
    ObjectId::new(alloc, format!(in alloc; "p{number}")?.as_str())
}

/// The text of the id of any program.
fn any_program(alloc: Global, dice: &mut Dice) -> Result<String, Refusal> {
    let number = dice.below(ALL_PROGRAMS);
    Ok(format!(in alloc; "p{number}")?)
}

/// The text of the id of the event of that number.
pub fn event_text(alloc: Global, number: u64) -> Result<String, Refusal> {
    // Such an id has a hyphen, as those of shown events have behind the resource.
    Ok(format!(in alloc; "e-{number}")?)
}

// Mostly now, and else some time before.
fn moment(dice: &mut Dice, now: Moment) -> Result<Moment, Refusal> {
    if dice.is_once_in(6) {
        return Moment::at(dice.below(now.nanos()));
    }
    Ok(now)
}

fn program_body(alloc: Global, dice: &mut Dice) -> Result<Body, Refusal> {
    if dice.is_once_in(8) {
        return Ok(Body::Opaque(Reason::BadShape));
    }
    Ok(Body::Program(Name::new(alloc, dice.word(&PROGRAM_NAMES))?))
}

fn program(alloc: Global, dice: &mut Dice, now: Moment) -> Result<Found, Refusal> {
    let id = any_program(alloc, dice)?;
    Ok(Found {
        kind: Kind::Program,
        id: UpstreamId::new(alloc, id.as_str())?,
        moment: moment(dice, now)?,
        body: program_body(alloc, dice)?,
    })
}

// None of them, or some.
fn names(alloc: Global, dice: &mut Dice) -> Result<NameSet, Refusal> {
    let mut names = Vec::new(alloc);
    for _ in 0..dice.below(5) {
        names.push(Name::new(alloc, dice.word(&RESOURCES))?)?;
    }
    Ok(NameSet::of(alloc, names)?)
}

fn targets(alloc: Global, dice: &mut Dice) -> Result<Option<NameSet>, Refusal> {
    if dice.is_once_in(4) {
        return Ok(Some(names(alloc, dice)?));
    }
    Ok(None)
}

fn setpoint(dice: &mut Dice) -> Result<Option<Setpoint>, Refusal> {
    if dice.is_once_in(5) {
        return Ok(None);
    }
    Ok(Some(Setpoint::new(dice.amount())?))
}

// These intervals, unless they are too many, or two of them have one id.
fn apart(intervals: Vec<Interval>) -> Result<Intervals, Refusal> {
    if intervals.len() > 1_000 {
        return Err(Refusal::BadShape);
    }
    Ok(Intervals::apart(intervals)?)
}

fn intervals(alloc: Global, dice: &mut Dice) -> Result<Intervals, Refusal> {
    let mut intervals = Vec::new(alloc);
    let count = dice.place(5);
    for id in (0..3i32).take(count) {
        intervals.push(Interval {
            id,
            period: None,
            setpoint: setpoint(dice)?,
        })?;
    }
    apart(intervals)
}

fn event_name(alloc: Global, dice: &mut Dice) -> Result<Option<EventName>, Refusal> {
    if dice.is_once_in(2) {
        return Ok(None);
    }
    Ok(Some(EventName::new(alloc, dice.word(&PROGRAM_NAMES))?))
}

fn priority(dice: &mut Dice) -> Result<Option<Priority>, Refusal> {
    if dice.is_once_in(2) {
        return Ok(None);
    }
    Ok(Some(Priority::new(dice.amount().wrapping_abs())?))
}

fn event_body(alloc: Global, dice: &mut Dice) -> Result<EventBody, Refusal> {
    Ok(EventBody {
        program: program_shared(alloc, dice)?,
        name: event_name(alloc, dice)?,
        priority: priority(dice)?,
        period: None,
        resource_names: targets(alloc, dice)?,
        intervals: intervals(alloc, dice)?,
    })
}

fn any_body(alloc: Global, dice: &mut Dice) -> Result<Body, Refusal> {
    if dice.is_once_in(12) {
        return Ok(Body::Opaque(Reason::Fraction));
    }
    Ok(Body::Event(event_body(alloc, dice)?))
}

fn event(alloc: Global, dice: &mut Dice, scene: &Scene<'_>) -> Result<Found, Refusal> {
    let number = scene.first_event.wrapping_add(dice.below(EVENTS));
    let id = event_text(alloc, number)?;
    Ok(Found {
        kind: Kind::Event,
        id: UpstreamId::new(alloc, id.as_str())?,
        moment: moment(dice, scene.now)?,
        body: any_body(alloc, dice)?,
    })
}

fn version(alloc: Global, dice: &mut Dice, scene: &Scene<'_>) -> Result<Found, Refusal> {
    if dice.is_once_in(4) {
        return program(alloc, dice, scene.now);
    }
    event(alloc, dice, scene)
}

/// One version, or some.
pub fn page(alloc: Global, dice: &mut Dice, scene: &Scene<'_>) -> Result<Vec<Found>, Refusal> {
    let mut page = Vec::new(alloc);
    page.push(version(alloc, dice, scene)?)?;
    for _ in 0..dice.below(3) {
        page.push(version(alloc, dice, scene)?)?;
    }
    Ok(page)
}

/// The kind and the id of an object that goes.
pub fn going(
    alloc: Global,
    dice: &mut Dice,
    scene: &Scene<'_>,
) -> Result<(Kind, ObjectId), Refusal> {
    if dice.is_once_in(3) {
        let id = any_program(alloc, dice)?;
        return Ok((Kind::Program, ObjectId::new(alloc, id.as_str())?));
    }
    // The first event goes, so that another one takes its place among those that live.
    let id = event_text(alloc, scene.first_event)?;
    Ok((Kind::Event, ObjectId::new(alloc, id.as_str())?))
}
