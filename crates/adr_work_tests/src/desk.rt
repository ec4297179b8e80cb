//! Desks and commands of the tests.
use adr_machine::{Command, Desk, Limits, PlainDesk, Role, Settings};
use adr_objects::{Kind, ResourceIn, ResourceName, ShareIn, VenIn};
use adr_schema::read_page;
use adr_subscription::read_sub;
use adr_text::{Moment, Name, ObjectId, Refusal};
use std::alloc::{AllocError, Global};

/// A subscription of the operator to new programs, with an address of its own.
fn to_programs(alloc: Global, number: u64) -> Result<String, AllocError> {
    format!(in alloc;
        "{{\"clientName\":\"ops\",\"objectOperations\":[{{\"objects\":[\"PROGRAM\"],\"operations\":[\"POST\"],\"callbackUrl\":\"http://127.0.0.1:9001/n{number}\"}}]}}"
    )
}

/// A program.
pub const PROGRAM: &str =
    "[{\"id\":\"p1\",\"modificationDateTime\":\"2024-07-01T09:00:00Z\",\"programName\":\"dr\"}]";

/// An event of that program.
pub const ONE_EVENT: &str =
    "[{\"id\":\"e1\",\"modificationDateTime\":\"2024-07-01T09:00:00Z\",\"programID\":\"p1\",\"intervals\":[{\"id\":0,\"payloads\":[{\"type\":\"DISPATCH_SETPOINT\",\"values\":[100]}]}]}]";

pub fn ten() -> Result<Moment, Refusal> {
    Moment::read("2024-07-01T10:00:00Z")
}

fn desk_within(alloc: Global, limits: Limits) -> Result<PlainDesk, Refusal> {
    let client = Name::new(alloc, "aggregator")?;
    Ok(PlainDesk::new(alloc, Settings { client, limits }))
}

pub fn empty_desk(alloc: Global) -> Result<PlainDesk, Refusal> {
    desk_within(alloc, Limits::largest())
}

/// An empty desk whose trail holds so many commands.
pub fn desk_with_trail(alloc: Global, trail: u64) -> Result<PlainDesk, Refusal> {
    let mut limits = Limits::largest();
    limits.set("trail", trail);
    desk_within(alloc, limits)
}

/// An empty desk whose mirror holds so many keys.
pub fn desk_with_keys(alloc: Global, keys: u64) -> Result<PlainDesk, Refusal> {
    let mut limits = Limits::largest();
    limits.set("keys", keys);
    desk_within(alloc, limits)
}

pub fn ven(alloc: Global, name: &str) -> Result<Command, Refusal> {
    Ok(Command::VenAdd {
        role: Role::Operator,
        ven: VenIn {
            name: Name::new(alloc, name)?,
        },
    })
}

pub fn subscription(alloc: Global, text: &str) -> Result<Command, Refusal> {
    Ok(Command::SubPost {
        role: Role::Operator,
        sub: read_sub(alloc, text.as_bytes())?,
    })
}

pub fn page(alloc: Global, kind: Kind, text: &str) -> Result<Command, Refusal> {
    let (found, _) = read_page(alloc, kind, text.as_bytes())?;
    Ok(Command::Evidence {
        found,
        polled: false,
    })
}

fn resource(alloc: Global, ven: &str, name: &str) -> Result<Command, Refusal> {
    Ok(Command::ResourceAdd {
        role: Role::Operator,
        ven: ObjectId::new(alloc, ven)?,
        resource: ResourceIn {
            name: ResourceName::new(alloc, name).map_err(|fault| fault.refusal())?,
        },
    })
}

fn share(alloc: Global, resource: &str) -> Result<Command, Refusal> {
    Ok(Command::ShareSet {
        role: Role::Operator,
        program: ObjectId::new(alloc, "p1")?,
        resource: ObjectId::new(alloc, resource)?,
        share: ShareIn { share: 1 },
    })
}

fn apply(desk: &mut PlainDesk, command: Result<Command, Refusal>) -> Result<(), Refusal> {
    desk.apply(ten()?, &command?)?;
    Ok(())
}

/// A desk with two vens and three resources, each of which has a share in the program.
pub fn enrolled(alloc: Global) -> Result<PlainDesk, Refusal> {
    let mut desk = empty_desk(alloc)?;
    apply(&mut desk, ven(alloc, "alpha"))?;
    apply(&mut desk, ven(alloc, "beta"))?;
    apply(&mut desk, resource(alloc, "v1", "a1"))?;
    apply(&mut desk, resource(alloc, "v1", "a2"))?;
    apply(&mut desk, resource(alloc, "v2", "b1"))?;
    apply(&mut desk, share(alloc, "r3"))?;
    apply(&mut desk, share(alloc, "r4"))?;
    apply(&mut desk, share(alloc, "r5"))?;
    Ok(desk)
}

/// A desk with so many subscriptions to new programs, and a program: so with as many jobs. The job for subscription 3 goes
/// to `/n3`, and so with the others.
pub fn desk_of_jobs(alloc: Global, subscriptions: u64) -> Result<PlainDesk, Refusal> {
    let mut desk = empty_desk(alloc)?;
    for number in 0..subscriptions {
        let text = to_programs(alloc, number.saturating_add(1))?;
        let command = subscription(alloc, text.as_str())?;
        desk.apply(ten()?, &command)?;
    }
    desk.apply(ten()?, &page(alloc, Kind::Program, PROGRAM)?)?;
    Ok(desk)
}
