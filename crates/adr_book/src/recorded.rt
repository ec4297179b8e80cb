//! A trail that keeps base and commands, for whoever audits.
ghost use Rattle.std.specs.Prelude.{◌≡◌, ◌<◌, true, Some, vec_len, vec_capacity};

use crate::trail::Trail;
use adr_machine::{Command, Desk, Image};
use adr_text::{Moment, Refusal};
use std::alloc::{AllocError, Global};

/// The base, its turn, and each command accepted since, with its moment.
#[derive(Drop)]
pub struct RecordedTrail {
    pub(crate) base: Image,
    pub(crate) since: u64,
    pub(crate) commands: Vec<(Moment, Command)>,
}

impl<D: Desk> Trail<D> for RecordedTrail {
    ghost base = { λ t. t.base };

    ghost since = { λ t. t.since };

    ghost commands = { λ t. t.commands.items };

    ghost keeps = { true };

    ghost is_ready = { λ t copy command. (copy ≡ Some command) × (vec_len t.commands < vec_capacity t.commands) };

    fn open(alloc: Global, desk: &mut D) -> Result<Self, Refusal> {
        let base = desk.image()?;
        Ok(RecordedTrail {
            base,
            since: 0,
            commands: Vec::new(alloc),
        })
    }

    fn is_full(&self, limit: u64) -> bool {
        limit <= self.commands.len() as u64
    }

    fn ready(&mut self, command: &Command) -> Result<Option<Command>, AllocError> {
        let copy = command.copy()?;
        self.commands.reserve(1)?;
        Ok(Some(copy))
    }

    fn note(&mut self, now: Moment, _command: &Command, copy: Option<Command>) {
        let Some(copy) = copy else { unreachable!() };
        self.commands.push_reserved((now, copy));
    }
}
