//! A desk over a store that refuses, for tests: over plain maps, and the first call of a kind is refused.
#![tactic(auto)]

ghost use Rattle.std.specs.Prelude.{◌≡◌, ⊤};

use adr_machine::{Answer, Command, Desk, Image, PlainDesk, Query, Settings};
use adr_text::{Moment, Refusal};

/// What a store refuses.
#[derive(Clone, Copy, PartialEq, Eq)]
pub enum Refused {
    /// Looks at the outbox.
    Looks,
    /// Leases of jobs.
    Leases,
    /// Settlements of jobs that were sent.
    Sent,
    /// Beginnings of scans.
    Scans,
    /// New vens, which nothing but requests makes.
    Vens,
}

impl Refused {
    fn is_step(self, command: &Command) -> bool {
        match command {
            Command::Lease => self == Refused::Leases,
            Command::Sent { .. } => self == Refused::Sent,
            Command::ScanBegin => self == Refused::Scans,
            Command::VenAdd { .. } => self == Refused::Vens,
            _ => false,
        }
    }

    fn is_look(self, query: &Query) -> bool {
        match query {
            Query::Outbox { .. } => self == Refused::Looks,
            _ => false,
        }
    }
}

/// A desk over a store that refuses the first one of a kind, and whatever goes wrong.
#[derive(Drop)]
pub struct Ailing {
    desk: PlainDesk,
    refused: Refused,
    has_refused: bool,
}

impl Ailing {
    pub fn new(desk: PlainDesk, refused: Refused) -> Ailing {
        Ailing {
            desk,
            refused,
            has_refused: false,
        }
    }
}

impl Desk for Ailing {
    ghost state = { λ ailing. ⟦<PlainDesk as Desk>⟧.state ailing.desk };

    ghost settings = { λ ailing. ⟦<PlainDesk as Desk>⟧.settings ailing.desk };

    ghost is_sound = { λ ailing. ⟦<PlainDesk as Desk>⟧.is_sound ailing.desk };

    ghost stands = { λ ailing. ⟦<PlainDesk as Desk>⟧.stands ailing.desk };

    ghost may_refuse = { ⊤ };

    fn apply(&mut self, now: Moment, command: &Command) -> Result<Answer, Refusal> {
        if !self.has_refused && self.refused.is_step(command) {
            self.has_refused = true;
            return Err(Refusal::Store);
        }
        match self.desk.apply(now, command) {
            Ok(answer) => Ok(answer),
            Err(_) => Err(Refusal::Store),
        }
    }

    fn ask(&mut self, query: &Query) -> Result<Answer, Refusal> {
        if !self.has_refused && self.refused.is_look(query) {
            self.has_refused = true;
            return Err(Refusal::Store);
        }
        match self.desk.ask(query) {
            Ok(answer) => Ok(answer),
            Err(_) => Err(Refusal::Store),
        }
    }

    fn image(&mut self) -> Result<Image, Refusal> {
        match self.desk.image() {
            Ok(image) => Ok(image),
            Err(_) => Err(Refusal::Store),
        }
    }

    fn settings(&self) -> &Settings {
        self.desk.settings()
    }
}
