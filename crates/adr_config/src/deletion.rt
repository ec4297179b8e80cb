//! Whether many deletions at once are made at once.
ghost use Rattle.std.specs.Prelude.{◌≡◌, codes};
ghost use Rattle.serde_json.specs.View.{view};
ghost use Rattle.adr_text.specs.Fields.{member_of, optional};
ghost use Rattle.adr_config.specs.Deletions.{deletion_named, deletion_in, deletion_read};
ghost use Rattle.adr_config.specs.Tellings.{Tells};

use crate::fault::ConfigFault;
use crate::place::Place;
use crate::wrong::Why;
use adr_text::member;
use serde_json::Value;

/// What a round does that finds more than half of what is live on no page.
#[derive(Clone, Copy, Debug, PartialEq, Eq)]
pub enum MassDeletion {
    /// The first such round asks for none of these, and a second one, behind it, does.
    Confirm,
    /// It asks for each of these at once.
    AtOnce,
}

/// What a name says of it.
fn deletion_named(name: &str) -> Option<MassDeletion>
    ensures { result ≡ deletion_named name.now }
{
    match name {
        "confirm" => Some(MassDeletion::Confirm),
        "at once" => Some(MassDeletion::AtOnce),
        _ => None,
    }
}

/// What a value says of it.
fn deletion_in(value: &Value) -> Option<MassDeletion>
    ensures { result ≡ deletion_in (view value.now) }
{
    deletion_named(value.as_str()?)
}

/// What a configuration says of it, where it says anything.
#[tactic(auto, unfolding(crate::specs::Deletions::deletion_read))]
pub(crate) fn deletion_said(value: &Value) -> Result<Option<MassDeletion>, ConfigFault>
    ensures { Tells (λ deletion. deletion) result (optional (member_of (codes "massDeletion") (view value.now)) deletion_read) }
{
    let Some(said) = member(value, "massDeletion") else {
        return Ok(None);
    };
    match deletion_in(said) {
        Some(deletion) => Ok(Some(deletion)),
        None => Err(ConfigFault::Wrong(Place::MassDeletion.wrong(Why::NoDeletion))),
    }
}
