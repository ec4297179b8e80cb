//! The commands of a row, told as one list to the plain desk and to the tables.
use crate::answers::are_same_answers;
use adr_desk::MemoryDesk;
use adr_machine::{Answer, Command, Desk, PlainDesk, run};
use adr_state::{Image, Settings};
use adr_text::{Moment, Refusal};
use row_desks::holds;
use std::alloc::Global;

// The values of a call stand in functions of their own, since each owned one makes those behind it dearer to check.

/// Whether a desk answers the list so, and holds the state then.
fn takes_so<D: Desk>(
    alloc: Global,
    desk: &mut D,
    steps: &[(Moment, Command)],
    answers: &[Result<Answer, Refusal>],
    image: &Image,
) -> Result<bool, Refusal> {
    let others = run(alloc, desk, steps)?;
    Ok(are_same_answers(answers, &others) && holds(desk, image)?)
}

fn tables_take_so(
    alloc: Global,
    settings: Settings,
    steps: &[(Moment, Command)],
    answers: &[Result<Answer, Refusal>],
    image: &Image,
) -> Result<bool, Refusal> {
    let mut tables = MemoryDesk::open_memory(alloc, settings)?;
    takes_so(alloc, &mut tables, steps, answers, image)
}

/// Whether both desks, from the state at first, answer the list alike and hold the state then.
pub fn take_alike(
    alloc: Global,
    settings: Settings,
    again: Settings,
    steps: &[(Moment, Command)],
    image: &Image,
) -> Result<bool, Refusal> {
    let mut plain = PlainDesk::new(alloc, settings);
    let answers = run(alloc, &mut plain, steps)?;
    Ok(holds(&mut plain, image)? && tables_take_so(alloc, again, steps, &answers, image)?)
}
