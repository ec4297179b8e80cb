//! How the program ends: what it says on standard error, and its exit status.
ghost use Rattle.std.specs.Prelude.{◌≡◌, option_map};
ghost use Rattle.std.specs.Process.{exit_status};
ghost use Rattle.adr_node.specs.declared.ending.NodeFault.TheVariants.{Script};
ghost use Rattle.adr_node.specs.Endings.{fault_of, fault_served, fault_line, line_of, status_of};

use adr_script::ScriptFault;
use adr_server as server;
use adr_text::Refusal;
use std::process::ExitCode;

/// Why the program ended early.
#[derive(Clone, Copy)]
pub enum NodeFault {
    /// The script ended early, or memory ran out before its first line or in a server.
    Script(ScriptFault),
    /// The store refused to be opened, so no line or connection was taken; or it refused what was asked of it over a file,
    /// which ends the node.
    Store,
    /// The configuration can't be read, or is none.
    BadConfig,
    /// The address is taken, or can't be listened at.
    Bind,
}

impl From<ScriptFault> for NodeFault {
    ghost from_gives = { λ fault e. e ≡ Script fault };

    fn from(fault: ScriptFault) -> NodeFault {
        NodeFault::Script(fault)
    }
}

// Of a desk that could not be opened, which only want of memory and the store refuse.
impl From<Refusal> for NodeFault {
    ghost from_gives = { λ refusal e. e ≡ fault_of refusal };

    fn from(refusal: Refusal) -> NodeFault {
        match refusal {
            Refusal::OutOfMemory => NodeFault::Script(ScriptFault::OutOfMemory),
            _ => NodeFault::Store,
        }
    }
}

impl From<server::NodeFault> for NodeFault {
    ghost from_gives = { λ fault e. e ≡ fault_served fault };

    fn from(fault: server::NodeFault) -> NodeFault {
        match fault {
            server::NodeFault::Bind => NodeFault::Bind,
            server::NodeFault::OutOfMemory => NodeFault::Script(ScriptFault::OutOfMemory),
            server::NodeFault::Store => NodeFault::Store,
        }
    }
}

/// The lines printed of a script that ran to its end, none of a file that was made or a server that stopped, nothing where the arguments are of
/// another form, or why the program ended early.
pub type Ran = Result<Option<u64>, NodeFault>;

fn fault_line(fault: NodeFault) -> &'static str
    ensures { result.now ≡ fault_line fault }
{
    match fault {
        NodeFault::Script(ScriptFault::Read) => "adr_node: read fault",
        NodeFault::Script(ScriptFault::Write) => "adr_node: write fault",
        NodeFault::Script(ScriptFault::LineTooLong) => "adr_node: line too long",
        NodeFault::Script(ScriptFault::ScriptTooLong) => "adr_node: script too long",
        NodeFault::Script(ScriptFault::OutOfMemory) => "adr_node: out of memory",
        NodeFault::Store => "adr_node: store refused",
        NodeFault::BadConfig => "adr_node: bad configuration",
        NodeFault::Bind => "adr_node: bind fault",
    }
}

/// The line that the program writes on standard error, if any.
pub fn line_of(ran: &Ran) -> Option<&'static str>
    ensures { option_map (λ line. line.now) result ≡ line_of ran.now }
{
    match *ran {
        Ok(Some(_)) => None,
        Ok(None) => Some("usage: adr_node script [NAME=NUMBER ..] | init FILE | serve CONFIG"),
        Err(fault) => Some(fault_line(fault)),
    }
}

/// The exit status of the program.
pub fn status_of(ran: &Ran) -> ExitCode
    ensures { exit_status result ≡ status_of ran.now }
{
    match *ran {
        Ok(Some(_)) => ExitCode::from(0),
        Ok(None) => ExitCode::from(2),
        Err(_) => ExitCode::from(1),
    }
}
