//! What is asked of the machine, by a line or by a request.
ghost use Rattle.std.specs.Prelude.{◌≡◌, ◌≤◌, ◌<◌};
ghost use Rattle.adr_asked.specs.Replies.{posts, status_for};

use adr_machine::{Command, Query};

/// A command, a query, or nothing, which is done at once.
pub enum Asked {
    Nothing,
    Command(Command),
    /// A page as a command, and how many of its elements were no versions.
    Page(Command, u64),
    Query(Query),
}

impl Drop for Asked {
    fn drop(self) {
        match self {
            Asked::Nothing => (),
            Asked::Command(_) => (),
            Asked::Page(_, _) => (),
            Asked::Query(_) => (),
        }
    }
}

/// Whether the command posts an object.
fn posts(command: &Command) -> bool
    ensures { result ≡ posts command.now }
{
    matches!(
        command,
        Command::VenAdd { .. }
            | Command::ResourceAdd { .. }
            | Command::ReportPost { .. }
            | Command::SubPost { .. }
    )
}

/// The status of a reply that is no refusal: 201 where an object was posted, else 200.
pub(crate) fn status_for(asked: &Asked) -> u16
    ensures status { result ≡ status_for asked.now }
    ensures is_code { (100 ≤ result) × (result < 1000) }
{
    match asked {
        Asked::Command(command) if posts(command) => 201,
        _ => 200,
    }
}
