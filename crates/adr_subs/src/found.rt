//! Subscriptions looked for by their ids, and which are in sight.
ghost use Rattle.std.specs.Prelude.{◌≡◌, [], ◌∷◌, IfErr};
ghost use Rattle.adr_text.specs.declared.refusal.Refusal.TheVariants.{Forbidden, NotFound};
ghost use Rattle.adr_db.specs.Calls.{IsOneOf};
ghost use Rattle.adr_subs.specs.Found.{in_sight};

use adr_objects::Number;
use adr_subscription::Sub;
use adr_text::Refusal;
use adr_view::{Sight, sees_owner};
use sqlite::Alter;

/// The one that was found, where who sees this much sees it.
pub fn in_sight(sight: Sight, found: Option<(Number, Sub)>) -> Result<(Number, Sub), Refusal>
    ensures gives { result ≡ in_sight sight found }
    ensures refused { IfErr result (IsOneOf (NotFound ∷ Forbidden ∷ [])) }
{
    let Some((number, sub)) = found else {
        return Err(Refusal::NotFound);
    };
    if !sees_owner(sight, sub.owner) {
        return Err(Refusal::Forbidden);
    }
    Ok((number, sub))
}
