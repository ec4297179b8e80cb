//! What a role sees.
ghost use Rattle.std.specs.Prelude.{◌≡◌};
ghost use Rattle.adr_queries.specs.Roles.{sight_of};
ghost use Rattle.adr_state.specs.declared.keys.ViewKey.TheVariants as key;
ghost use Rattle.adr_queries.specs.Shown.{owner_of, sees_owned, sees};

use crate::role::Role;
use adr_objects::Number;
use adr_state::{Base, ViewKey};
use adr_text::Refusal;
use adr_view::{Sight, ven_at};

/// What the role sees, or `Forbidden`: the operator all, an enrolled ven what is its own, and another nothing. Of
/// the base only the vens are looked at.
pub fn sight_of(base: &Base, role: &Role) -> Result<Sight, Refusal>
    ensures { result ≡ sight_of base.now role.now }
{
    match role {
        Role::Operator => Ok(Sight::All),
        Role::Ven(id) => match ven_at(id, &base.portfolio) {
            Some(number) => Ok(Sight::Of(number)),
            None => Err(Refusal::Forbidden),
        },
        Role::Utility => Err(Refusal::Forbidden),
    }
}

/// The ven that owns the resource of a number, where it is there.
pub fn owner_of(base: &Base, resource: Number) -> Option<Number>
    ensures { result ≡ owner_of base.now resource }
{
    match base.portfolio.resources.get(resource) {
        Some(resource) => Some(resource.ven),
        None => None,
    }
}

/// Whether what the resource of a number is shown, and what is reported of it, is in sight.
pub(crate) fn sees_owned(base: &Base, sight: Sight, resource: Number) -> bool
    ensures { result ≡ sees_owned base.now sight resource }
{
    let Sight::Of(ven) = sight else {
        return true;
    };
    match owner_of(base, resource) {
        Some(owner) => owner == ven,
        None => false,
    }
}

/// Whether the report of a number is in sight.
fn sees_reported(base: &Base, sight: Sight, number: Number) -> bool
    ensures { result ≡ sees base.now sight (key.Report number) }
{
    if sight == Sight::All {
        return true;
    }
    match base.portfolio.reports.get(&number) {
        Some(report) => sees_owned(base, sight, report.body.head.resource),
        None => false,
    }
}

/// Whether what stands at the key is in sight.
pub(crate) fn sees(base: &Base, sight: Sight, key: &ViewKey) -> bool
    ensures { result ≡ sees base.now sight key.now }
{
    match key {
        ViewKey::Program(_) => true,
        ViewKey::Event(_, resource) => sees_owned(base, sight, *resource),
        ViewKey::Report(number) => sees_reported(base, sight, *number),
        ViewKey::Rollup(_) => sight == Sight::All,
    }
}
