//! A plain desk, and a desk over tables that is told and asked the same.
ghost use Rattle.std.specs.Prelude.{◌≡◌};

use crate::answers::is_same_answer;
use adr_desk::MemoryDesk;
use adr_machine::{Answer, Command, Desk, PlainDesk, Query};
use adr_state::{Image, Settings};
use adr_text::{Moment, Refusal};
use row_desks::holds;
use std::alloc::{AllocError, Global};

/// A plain desk that answers, and the tables beside it.
pub struct Twin {
    plain: PlainDesk,
    tables: MemoryDesk,
    /// How many calls the tables answered otherwise, or held another state after.
    pub apart: u64,
    /// The commands that it was told, each at its moment.
    pub told: Vec<(Moment, Command)>,
    /// Whether memory ran out over one of them.
    pub lost: bool,
}

impl Drop for Twin {
    fn drop(self) {
        let Twin {
            plain: _,
            tables: _,
            apart: _,
            told: _,
            lost: _,
        } = self;
    }
}

impl Twin {
    /// Both with the state at first.
    pub fn new(alloc: Global, settings: Settings, again: Settings) -> Result<Twin, Refusal> {
        Ok(Twin {
            plain: PlainDesk::new(alloc, settings),
            tables: MemoryDesk::open_memory(alloc, again)?,
            apart: 0,
            told: Vec::new(alloc),
            lost: false,
        })
    }
}

// What is owned stands in functions of its own, since each owned value makes those behind it dearer to check.

/// Whether a desk answers a command so.
fn applies_so<D: Desk>(
    desk: &mut D,
    now: Moment,
    command: &Command,
    said: &Result<Answer, Refusal>,
) -> bool {
    is_same_answer(said, &desk.apply(now, command))
}

/// Whether a desk answers a query so.
fn asks_so<D: Desk>(desk: &mut D, query: &Query, said: &Result<Answer, Refusal>) -> bool {
    is_same_answer(said, &desk.ask(query))
}

/// Whether a desk holds the state that another one told.
fn holds_so<D: Desk>(desk: &mut D, said: &Result<Image, Refusal>) -> bool {
    match said {
        Ok(image) => holds(desk, image) == Ok(true),
        Err(_) => false,
    }
}

/// Whether the tables hold what the plain desk holds, which stays as it is.
fn hold_the_same(plain: &mut PlainDesk, tables: &mut MemoryDesk) -> bool
    ensures state { ⟦<PlainDesk as Desk>⟧.state plain.new ≡ ⟦<PlainDesk as Desk>⟧.state plain.old }
    ensures settings { ⟦<PlainDesk as Desk>⟧.settings plain.new ≡ ⟦<PlainDesk as Desk>⟧.settings plain.old }
{
    holds_so(tables, &plain.image())
}

/// How many calls went apart, after one more call.
fn counted(apart: u64, alike: bool) -> u64 {
    if alike {
        apart
    } else {
        apart.saturating_add(1)
    }
}

/// Puts a command behind those that were told.
fn note(
    told: &mut Vec<(Moment, Command)>,
    now: Moment,
    command: &Command,
) -> Result<(), AllocError> {
    told.push((now, command.copy()?))?;
    Ok(())
}

impl Desk for Twin {
    ghost state = { λ twin. ⟦<PlainDesk as Desk>⟧.state twin.plain };

    ghost settings = { λ twin. ⟦<PlainDesk as Desk>⟧.settings twin.plain };

    ghost is_sound = { λ twin. ⟦<PlainDesk as Desk>⟧.is_sound twin.plain };

    ghost stands = { λ twin. ⟦<PlainDesk as Desk>⟧.stands twin.plain };

    // The plain desk answers: what the tables answer is compared, and not answered.
    ghost may_refuse = { ⟦<PlainDesk as Desk>⟧.may_refuse };

    fn apply(&mut self, now: Moment, command: &Command) -> Result<Answer, Refusal> {
        let said = self.plain.apply(now, command);
        let alike = applies_so(&mut self.tables, now, command, &said);
        let same = hold_the_same(&mut self.plain, &mut self.tables);
        self.apart = counted(self.apart, alike && same);
        self.lost = note(&mut self.told, now, command).is_err() || self.lost;
        said
    }

    fn ask(&mut self, query: &Query) -> Result<Answer, Refusal> {
        let said = self.plain.ask(query);
        let alike = asks_so(&mut self.tables, query, &said);
        let same = hold_the_same(&mut self.plain, &mut self.tables);
        self.apart = counted(self.apart, alike && same);
        said
    }

    fn image(&mut self) -> Result<Image, Refusal> {
        let said = self.plain.image();
        let same = holds_so(&mut self.tables, &said);
        self.apart = counted(self.apart, same);
        said
    }

    fn settings(&self) -> &Settings {
        self.plain.settings()
    }
}
