//! Commands on entries of the outbox.
ghost use Rattle.std.specs.Prelude.{◌≡◌, ◌↔◌, IsTrue};
ghost use Rattle.adr_machine.specs.declared.command.Command.TheVariants.{Sent, Failed};

use crate::sameness::Same;
use adr_machine::Command;
use adr_objects::Number;
use adr_text::ObjectId;

/// Whether the command says that the entry was sent under that lease, with that id.
pub(crate) fn is_sent(
    command: &Command,
    entry: Number,
    lease: u64,
    remote: &Option<ObjectId>,
) -> bool
    ensures { IsTrue result ↔ (command.now ≡ Sent entry lease remote.now) }
{
    match command {
        Command::Sent {
            entry: its_entry,
            lease: its_lease,
            remote: its_remote,
        } => its_entry.is_same(&entry) && its_lease.is_same(&lease) && its_remote.is_same(remote),
        _ => false,
    }
}

/// Whether the command says that the entry failed under that lease, in that way.
pub(crate) fn is_failed(command: &Command, entry: Number, lease: u64, forget: bool) -> bool
    ensures { IsTrue result ↔ (command.now ≡ Failed entry lease forget) }
{
    match command {
        Command::Failed {
            entry: its_entry,
            lease: its_lease,
            forget: its_forget,
        } => its_entry.is_same(&entry) && its_lease.is_same(&lease) && its_forget.is_same(&forget),
        _ => false,
    }
}
