//! Commands on what the utility shows.
ghost use Rattle.std.specs.Prelude.{◌≡◌, ◌↔◌, IsTrue};
ghost use Rattle.adr_machine.specs.declared.command.Command.TheVariants.{Evidence, Gone};

use crate::sameness::Same;
use adr_machine::Command;
use adr_objects::{Found, Kind};
use adr_text::{ObjectId, Rows};

/// Whether the command says that these versions were found, in that way.
pub(crate) fn is_evidence(command: &Command, found: &Rows<Found>, polled: bool) -> bool
    ensures { IsTrue result ↔ (command.now ≡ Evidence found.now polled) }
{
    match command {
        Command::Evidence {
            found: its_found,
            polled: its_polled,
        } => its_found.is_same(found) && its_polled.is_same(&polled),
        _ => false,
    }
}

/// Whether the command says that this object was deleted.
pub(crate) fn is_gone(command: &Command, kind: Kind, id: &ObjectId) -> bool
    ensures { IsTrue result ↔ (command.now ≡ Gone kind id.now) }
{
    match command {
        Command::Gone {
            kind: its_kind,
            id: its_id,
        } => its_kind.is_same(&kind) && its_id.is_same(id),
        _ => false,
    }
}
