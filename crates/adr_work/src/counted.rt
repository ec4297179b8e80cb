//! What the commands of a round came to, for the log.
use adr_machine::{Answer, Command};

/// How many keys of the view changed by a round, how many versions stood on its pages, and how many objects it found
/// deleted.
#[derive(Clone, Copy)]
pub(crate) struct Counted {
    pub(crate) changes: u64,
    pub(crate) versions: u64,
    pub(crate) deletions: u64,
}

impl Counted {
    /// Nothing was told yet.
    pub(crate) fn none() -> Counted {
        Counted {
            changes: 0,
            versions: 0,
            deletions: 0,
        }
    }

    /// A command was accepted with that answer.
    pub(crate) fn add(&mut self, command: &Command, answer: &Answer) {
        if let Answer::Changes(changes) = answer {
            self.changes = self.changes.saturating_add(*changes);
        }
        if let Command::Evidence {
            found,
            polled: true,
        } = command
        {
            self.versions = self.versions.saturating_add(found.len() as u64);
        }
        if let Command::Gone { kind: _, id: _ } = command {
            self.deletions = self.deletions.saturating_add(1);
        }
    }
}
