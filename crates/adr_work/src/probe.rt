//! What the reply to the request for one object tells.
ghost use Rattle.std.specs.Prelude.{◌≡◌, IfOk};
ghost use Rattle.adr_work.specs.Probes.{version_command, probe_command, probe_told, keys_in};

use adr_link::{Asked, Finding, HttpReply, LinkFault, found_of};
use adr_machine::{Answer, Command};
use adr_objects::Found;
use adr_state::MirrorKey;
use adr_text::Rows;
use std::alloc::{AllocError, Global};

/// The evidence of one version.
fn version_command(alloc: Global, found: Found) -> Result<Command, AllocError>
    ensures { IfOk result (λ command. command ≡ version_command found) }
{
    let mut founds = Vec::new(alloc);
    founds.push(found)?;
    Ok(Command::Evidence {
        found: Rows::from_vec(founds),
        polled: false,
    })
}

/// The command that what was found of a key stands for, where it stands for one.
fn probe_command(
    alloc: Global,
    key: &MirrorKey,
    finding: Finding,
) -> Result<Option<Command>, AllocError>
    ensures { IfOk result (λ command. command ≡ probe_command key.now finding) }
{
    match finding {
        Finding::Version(found) => Ok(Some(version_command(alloc, found)?)),
        Finding::Gone => Ok(Some(Command::Gone {
            kind: key.kind,
            id: key.id.clone()?,
        })),
        _ => Ok(None),
    }
}

/// The command that a probe stands for, by the reply that came, or by the fault where none came: the version, or that
/// the object is gone. A probe that failed stands for none.
pub fn probe_told(
    alloc: Global,
    key: &MirrorKey,
    came: &Result<HttpReply, LinkFault>,
) -> Result<Option<Command>, AllocError>
    ensures { IfOk result (λ command. command ≡ probe_told key.now came.now) }
{
    let asked = Asked::Probe(key.kind, key.id.clone()?);
    probe_command(alloc, key, found_of(alloc, &asked, came)?)
}

/// The keys that an answer lists.
pub(crate) fn keys_in(answer: &Answer) -> &[MirrorKey]
    ensures { result.now ≡ keys_in answer.now }
{
    match answer {
        Answer::Probes(keys) => keys.as_slice(),
        _ => &[],
    }
}
