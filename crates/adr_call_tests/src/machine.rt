//! The machine and its plain desk.
use adr_machine::{Answer, Command, Desk, Object, PlainDesk, Role, number_in, run};
use adr_schema::read_ven;
use adr_state::{Image, Limits, Settings};
use adr_text::{Moment, Name, ObjectId, Refusal};
use std::alloc::Global;
use std::test::Fail;

pub fn ten() -> Result<Moment, Refusal> {
    Moment::read("2024-07-01T10:00:00Z")
}

pub fn ven(alloc: Global, text: &str) -> Result<Command, Refusal> {
    Ok(Command::VenAdd {
        role: Role::Operator,
        ven: read_ven(alloc, text.as_bytes())?,
    })
}

pub fn settings_of(alloc: Global) -> Result<Settings, Refusal> {
    let client = Name::new(alloc, "aggregator")?;
    let limits = Limits::largest();
    Ok(Settings { client, limits })
}

pub fn desk(alloc: Global) -> Result<PlainDesk, Refusal> {
    Ok(PlainDesk::new(alloc, settings_of(alloc)?))
}

fn push_ven(alloc: Global, steps: &mut Vec<(Moment, Command)>, text: &str) -> Result<(), Refusal> {
    let step = (ten()?, ven(alloc, text)?);
    steps.push(step)?;
    Ok(())
}

// A ven, the same again, and another.
fn steps(alloc: Global) -> Result<Vec<(Moment, Command)>, Refusal> {
    let mut steps = Vec::new(alloc);
    push_ven(alloc, &mut steps, "{\"venName\":\"alpha\"}")?;
    push_ven(alloc, &mut steps, "{\"venName\":\"alpha\"}")?;
    push_ven(alloc, &mut steps, "{\"venName\":\"beta\"}")?;
    Ok(steps)
}

// The number of the ven that an answer is, or that of its refusal.
pub fn answered_number(answer: &Result<Answer, Refusal>) -> u64 {
    match answer {
        Ok(Answer::Object(Object::Ven(ven))) => ven.number.get(),
        Ok(_) => 99,
        Err(refusal) => u64::from(refusal.number()),
    }
}

fn numbers_in(answers: &[Result<Answer, Refusal>]) -> [u64; 3] {
    match answers {
        [first, second, third] => [
            answered_number(first),
            answered_number(second),
            answered_number(third),
        ],
        _ => [99; 3],
    }
}

fn ran(
    alloc: Global,
    desk: &mut PlainDesk,
    steps: &[(Moment, Command)],
) -> Result<[u64; 3], Refusal> {
    let answers = run(alloc, desk, steps)?;
    Ok(numbers_in(&answers))
}

fn ran_on(alloc: Global, desk: &mut PlainDesk) -> Result<[u64; 3], Refusal> {
    ran(alloc, desk, &steps(alloc)?)
}

fn ran_anew(alloc: Global) -> Result<[u64; 3], Refusal> {
    ran_on(alloc, &mut desk(alloc)?)
}

#[test]
fn runs(rt: HostRuntime) -> Result<(), Fail> {
    assert!(rt; ran_anew(rt.alloc())? == [1, 7, 2]);
    Ok(())
}

fn apply(desk: &mut PlainDesk, now: Moment, command: &Command) -> Result<(), Refusal> {
    desk.apply(now, command)?;
    Ok(())
}

fn enroll_at(alloc: Global, desk: &mut PlainDesk, now: Moment) -> Result<(), Refusal> {
    apply(desk, now, &ven(alloc, "{\"venName\":\"alpha\"}")?)
}

fn enroll(alloc: Global, desk: &mut PlainDesk) -> Result<(), Refusal> {
    enroll_at(alloc, desk, ten()?)
}

fn desk_of_one(alloc: Global) -> Result<PlainDesk, Refusal> {
    let mut desk = desk(alloc)?;
    enroll(alloc, &mut desk)?;
    Ok(desk)
}

fn image_of(mut desk: PlainDesk) -> Result<Image, Refusal> {
    desk.image()
}

fn image(alloc: Global) -> Result<Image, Refusal> {
    image_of(desk_of_one(alloc)?)
}

// A desk of a copy of the image has that image.
fn copy(alloc: Global) -> Result<Image, Refusal> {
    let image = image(alloc)?.copy()?;
    image_of(PlainDesk::of(alloc, settings_of(alloc)?.copy()?, image))
}

// How many vens there are, and the serial.
pub fn sizes(image: &Image) -> (usize, u64) {
    let base = &image.state().base;
    (base.portfolio.vens.len(), base.serial.get())
}

fn sizes_of_image(alloc: Global) -> Result<(usize, u64), Refusal> {
    Ok(sizes(&image(alloc)?))
}

fn sizes_of_copy(alloc: Global) -> Result<(usize, u64), Refusal> {
    Ok(sizes(&copy(alloc)?))
}

#[test]
fn images(rt: HostRuntime) -> Result<(), Fail> {
    assert!(rt; sizes_of_image(rt.alloc())? == (1, 1));
    assert!(rt; sizes_of_copy(rt.alloc())? == (1, 1));
    Ok(())
}

fn most_vens(desk: &PlainDesk) -> u64 {
    desk.settings().limits.vens.get()
}

#[test]
fn settings(rt: HostRuntime) -> Result<(), Fail> {
    let desk = desk(rt.alloc())?;
    assert!(rt; most_vens(&desk) == 1_000);
    Ok(())
}

const LIMITS: [(&str, u64, bool); 16] = [
    ("keys", 100_000, true),
    ("keys", 100_001, false),
    ("vens", 1_000, true),
    ("vens", 0, false),
    ("subs", 1_001, false),
    ("resources", 10_001, false),
    ("shares", 100_000, true),
    ("reports", 100_001, false),
    ("frozen", 100_000, true),
    ("frozen", 100_001, false),
    ("pending", 100_000, true),
    ("serial", 9_000_000_000_000_000, true),
    ("serial", 9_000_000_000_000_001, false),
    ("trail", 1_000_001, false),
    ("Vens", 1, false),
    ("", 1, false),
];

// Whether the limit is taken, and whether all are the largest then.
fn set(name: &str, value: u64) -> (bool, bool) {
    let mut limits = Limits::largest();
    let taken = limits.set(name, value);
    (taken, limits == Limits::largest())
}

fn trail_of(value: u64) -> u64 {
    let mut limits = Limits::largest();
    limits.set("trail", value);
    limits.trail.get()
}

#[test]
fn limits(rt: HostRuntime) {
    for (name, value, taken) in LIMITS {
        assert!(rt; set(name, value) == (taken, true), "{name} {value}");
    }
    assert!(rt; trail_of(1) == 1);
    assert!(rt; Limits::largest().reports.get() == 100_000);
}

const IDS: [(&str, Option<u64>); 10] = [
    ("v1", Some(1)),
    ("v9000000000000000", Some(9_000_000_000_000_000)),
    ("v9000000000000001", None),
    ("v99999999999999999999999999", None),
    ("v01", None),
    ("v0", None),
    ("v", None),
    ("v1a", None),
    ("r1", None),
    ("1", None),
];

fn number_of(id: &ObjectId) -> Option<u64> {
    Some(number_in(b'v', id)?.get())
}

fn is_of_number(alloc: Global, id: &str, number: Option<u64>) -> Result<bool, Refusal> {
    Ok(number_of(&ObjectId::new(alloc, id)?) == number)
}

#[test]
fn numbers_of_ids(rt: HostRuntime) -> Result<(), Fail> {
    for (id, number) in &IDS {
        assert!(rt; is_of_number(rt.alloc(), *id, *number)?, "{id}");
    }
    Ok(())
}
