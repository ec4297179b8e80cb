//! What was looked for and found, or that it isn't there.
ghost use Rattle.std.specs.Prelude.{◌≡◌, [], ◌∷◌, IfErr};
ghost use Rattle.adr_text.specs.Refusals.{or_else};
ghost use Rattle.adr_text.specs.declared.refusal.Refusal.TheVariants.{NotFound};
ghost use Rattle.adr_db.specs.Calls.{IsOneOf};

use adr_text::Refusal;

/// What was found, or `NotFound`.
pub(crate) fn there<T: Drop>(found: Option<T>) -> Result<T, Refusal>
    ensures gives { result ≡ or_else NotFound found }
    ensures refused { IfErr result (IsOneOf (NotFound ∷ [])) }
{
    found.ok_or(Refusal::NotFound)
}
