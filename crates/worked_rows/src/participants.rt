//! The participants of events by number and weight, read from tables in memory: what no line of a script asks for alone.
use adr_db::create;
use adr_db_portfolio::{put_resource, put_share, put_ven, read_sharers};
use adr_objects::{EventBody, Intervals, NameSet, Number, ResourceName, Stamps};
use adr_portfolio::participants;
use adr_state::{Participant, Resource, ShareKey, Ven, Weight};
use adr_text::{Moment, Name, ObjectId, Refusal};
use sqlite::{Alter, Connection, Transaction};
use std::alloc::{AllocError, Global};

fn stamps() -> Result<Stamps, Refusal> {
    let moment = Moment::read("1970-01-01T00:00:01Z")?;
    Ok(Stamps {
        created: moment,
        modified: moment,
    })
}

pub(crate) fn ven<S: Alter>(
    alloc: Global,
    tx: &mut Transaction<'_, S>,
    number: u64,
    name: &str,
) -> Result<(), Refusal> {
    let ven = Ven {
        name: Name::new(alloc, name)?,
        stamps: stamps()?,
    };
    put_ven(tx, Number::new(number), &ven)
}

fn name_of(alloc: Global, name: &str) -> Result<ResourceName, Refusal> {
    ResourceName::new(alloc, name).map_err(|_| Refusal::BadShape)
}

pub(crate) fn resource<S: Alter>(
    alloc: Global,
    tx: &mut Transaction<'_, S>,
    number: u64,
    ven: u64,
    name: &str,
) -> Result<(), Refusal> {
    let resource = Resource {
        ven: Number::new(ven),
        name: name_of(alloc, name)?,
        stamps: stamps()?,
    };
    put_resource(tx, Number::new(number), &resource)
}

pub(crate) fn share<S: Alter>(
    alloc: Global,
    tx: &mut Transaction<'_, S>,
    program: &str,
    resource: u64,
    weight: u32,
) -> Result<(), Refusal> {
    let Some(weight) = Weight::new(weight) else {
        return Err(Refusal::BadShape);
    };
    let key = ShareKey {
        program: ObjectId::new(alloc, program)?,
        resource: Number::new(resource),
    };
    put_share(tx, &key, weight)
}

// Two vens, and three resources.
fn fill_resources<S: Alter>(alloc: Global, tx: &mut Transaction<'_, S>) -> Result<(), Refusal> {
    ven(alloc, tx, 1, "north")?;
    ven(alloc, tx, 2, "south")?;
    resource(alloc, tx, 3, 2, "pump")?;
    resource(alloc, tx, 4, 1, "battery")?;
    resource(alloc, tx, 5, 1, "heater")
}

// Two of the resources share in the program, and each in another one.
fn fill<S: Alter>(alloc: Global, tx: &mut Transaction<'_, S>) -> Result<(), Refusal> {
    fill_resources(alloc, tx)?;
    share(alloc, tx, "p2", 4, 20)?;
    share(alloc, tx, "p2", 3, 10)?;
    share(alloc, tx, "p1", 3, 1)?;
    share(alloc, tx, "p3", 5, 7)
}

// Adds a resource with its weight and the names.
fn push_sharer(alloc: Global, line: &mut String, sharer: &Participant) -> Result<(), AllocError> {
    let number = sharer.resource.get();
    let weight = sharer.weight.get();
    let words = format!(in alloc;
        "{number} {weight} {} {};",
        sharer.name.as_str(),
        sharer.ven_name.as_str()
    )?;
    line.push_str(words.as_str())
}

fn shown<S: Alter>(alloc: Global, tx: &mut Transaction<'_, S>) -> Result<String, Refusal> {
    let mut line = String::new(alloc);
    let sharers = read_sharers(alloc, tx, &ObjectId::new(alloc, "p2")?)?;
    for sharer in sharers.as_slice() {
        push_sharer(alloc, &mut line, sharer)?;
    }
    Ok(line)
}

// An event of the program, for the resources of these names, if any.
fn event(alloc: Global, resource_names: Option<NameSet>) -> Result<EventBody, Refusal> {
    Ok(EventBody {
        program: ObjectId::new(alloc, "p2")?,
        name: None,
        priority: None,
        period: None,
        resource_names,
        intervals: Intervals::new(alloc),
    })
}

// Adds a number with its weight.
fn push_part(
    alloc: Global,
    line: &mut String,
    number: Number,
    weight: Weight,
) -> Result<(), AllocError> {
    let words = format!(in alloc; "{} {};", number.get(), weight.get())?;
    line.push_str(words.as_str())
}

fn line_of(alloc: Global, parts: &[(Number, Weight)]) -> Result<String, AllocError> {
    let mut line = String::new(alloc);
    for (number, weight) in parts {
        push_part(alloc, &mut line, *number, *weight)?;
    }
    Ok(line)
}

// The numbers and the weights of those that take part.
fn parts_of<S: Alter>(
    alloc: Global,
    tx: &mut Transaction<'_, S>,
    event: &EventBody,
) -> Result<String, Refusal> {
    let parts = participants(alloc, tx, &ObjectId::new(alloc, "e1")?, event)?;
    Ok(line_of(alloc, parts.as_slice())?)
}

fn parts<S: Alter>(
    alloc: Global,
    tx: &mut Transaction<'_, S>,
    names: Option<NameSet>,
) -> Result<String, Refusal> {
    parts_of(alloc, tx, &event(alloc, names)?)
}

fn one_name(alloc: Global, name: &str) -> Result<NameSet, Refusal> {
    let mut names = NameSet::new(alloc);
    names.insert(Name::new(alloc, name)?)?;
    Ok(names)
}

// With no names, with one of them, and with an empty set.
fn all_parts<S: Alter>(alloc: Global, tx: &mut Transaction<'_, S>) -> Result<[String; 3], Refusal> {
    let all = parts(alloc, tx, None)?;
    let one = parts(alloc, tx, Some(one_name(alloc, "battery")?))?;
    let none = parts(alloc, tx, Some(NameSet::new(alloc)))?;
    Ok([all, one, none])
}

fn read_all<S: Alter>(
    alloc: Global,
    tx: &mut Transaction<'_, S>,
) -> Result<(String, [String; 3]), Refusal> {
    let shown = shown(alloc, tx)?;
    let parts = all_parts(alloc, tx)?;
    Ok((shown, parts))
}

fn run_in<S: Alter>(
    alloc: Global,
    tx: &mut Transaction<'_, S>,
) -> Result<(String, [String; 3]), Refusal> {
    create(tx)?;
    fill(alloc, tx)?;
    read_all(alloc, tx)
}

fn run<S: Alter>(
    alloc: Global,
    conn: &mut Connection<S>,
) -> Result<(String, [String; 3]), Refusal> {
    if !conn.is_autocommit() {
        return Err(Refusal::Store);
    }
    run_in(alloc, &mut conn.transaction())
}

/// What is shown of who shares in a program, and of who takes part in events of it, with these tables.
fn is_right(shown: &str, parts: &[String; 3]) -> bool {
    let [all, one, none] = parts;
    shown == "3 10 pump south;4 20 battery north;"
        && all.as_str() == "3 10;4 20;"
        && one.as_str() == "4 20;"
        && none.is_empty()
}

/// Reads the participants of events from tables in memory, prints how it went, and answers whether it passed.
pub fn run_participants<R: Print + AllocGlobal>(rt: &R) -> anyhow::Result<bool> {
    let alloc = rt.alloc();
    let mut conn = Connection::open_in_memory(alloc)?;
    let (shown, parts) = run(alloc, &mut conn)?;
    if is_right(shown.as_str(), &parts) {
        println!(rt; "participants passed")?;
        return Ok(true);
    }
    let [all, one, none] = parts;
    println!(rt; "participants failed: {shown} {all} {one} {none}")?;
    Ok(false)
}
