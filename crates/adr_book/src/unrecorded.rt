//! A trail that keeps nothing: base and commands are known to contracts alone.
ghost use Rattle.std.specs.Prelude.{false};
ghost use Rattle.adr_book.specs.Opened.{base_in};

use crate::trail::Trail;
use adr_machine::{Command, Desk};
use adr_text::{Moment, Refusal};
use http_server::Log;
use std::alloc::{AllocError, Global};

/// The desk as it was when the trail began, and the commands accepted since. A running program has no byte of either.
#[derive(Drop)]
pub struct UnrecordedTrail<D> {
    opened: Log<D, ()>,
    commands: Log<Moment, Command>,
}

impl<D: Desk> Trail<D> for UnrecordedTrail<D> {
    ghost base = { λ t. base_in D.state t.opened.items };

    ghost since = { λ t. 0 };

    ghost commands = { λ t. t.commands.items };

    ghost keeps = { false };

    ghost is_ready = { λ t copy command. Unit {0} };

    fn open(_alloc: Global, desk: &mut D) -> Result<Self, Refusal> {
        let none: Log<D, ()> = Log::new();
        Ok(UnrecordedTrail {
            opened: none.and(desk, &()),
            commands: Log::new(),
        })
    }

    fn is_full(&self, _limit: u64) -> bool {
        false
    }

    fn ready(&mut self, _command: &Command) -> Result<Option<Command>, AllocError> {
        Ok(None)
    }

    fn note(&mut self, now: Moment, command: &Command, _copy: Option<Command>) {
        self.commands = self.commands.and(&now, command);
    }
}
