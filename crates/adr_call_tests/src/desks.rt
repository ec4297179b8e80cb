//! A desk through its trait: a ven is enrolled on it, asked for, and found in its image.
use crate::machine::{answered_number, desk, settings_of, sizes, ten, ven};
use adr_desk::MemoryDesk;
use adr_machine::{Command, Desk, Query, Role};
use adr_text::{ObjectId, Refusal};
use std::alloc::Global;
use std::test::Fail;

// The number of the ven that a command makes, or that of its refusal.
fn made<D: Desk>(desk: &mut D, command: &Command) -> Result<u64, Refusal> {
    Ok(answered_number(&desk.apply(ten()?, command)))
}

// The number of the ven that a query tells, or that of its refusal.
fn told<D: Desk>(desk: &mut D, query: &Query) -> u64 {
    answered_number(&desk.ask(query))
}

// How many vens the image has, and its serial.
fn kept<D: Desk>(desk: &mut D) -> Result<(usize, u64), Refusal> {
    Ok(sizes(&desk.image()?))
}

fn alpha(alloc: Global) -> Result<Command, Refusal> {
    ven(alloc, "{\"venName\":\"alpha\"}")
}

fn ven_of(alloc: Global, id: &str) -> Result<Query, Refusal> {
    Ok(Query::Ven {
        role: Role::Operator,
        id: ObjectId::new(alloc, id)?,
    })
}

// A ven is asked for before it is there, and after; it is made once, and its name is taken then.
fn answers_to<D: Desk>(
    desk: &mut D,
    query: &Query,
    command: &Command,
) -> Result<[u64; 4], Refusal> {
    Ok([
        told(desk, query),
        made(desk, command)?,
        made(desk, command)?,
        told(desk, query),
    ])
}

fn answers<D: Desk>(alloc: Global, desk: &mut D) -> Result<[u64; 4], Refusal> {
    let query = ven_of(alloc, "v1")?;
    let command = alpha(alloc)?;
    answers_to(desk, &query, &command)
}

fn is_right<D: Desk>(alloc: Global, desk: &mut D) -> Result<bool, Refusal> {
    Ok(answers(alloc, desk)? == [6, 1, 7, 1] && kept(desk)? == (1, 1))
}

fn plain_is_right(alloc: Global) -> Result<bool, Refusal> {
    is_right(alloc, &mut desk(alloc)?)
}

fn memory_is_right(alloc: Global) -> Result<bool, Refusal> {
    is_right(
        alloc,
        &mut MemoryDesk::open_memory(alloc, settings_of(alloc)?)?,
    )
}

#[test]
fn desks(rt: HostRuntime) -> Result<(), Fail> {
    assert!(rt; plain_is_right(rt.alloc())?);
    assert!(rt; memory_is_right(rt.alloc())?);
    Ok(())
}
