//! What is in sight.
ghost use Rattle.std.specs.Prelude.{◌≡◌};
ghost use Rattle.adr_view.specs.Sights.{sees_ven, sees_owner, owner_in};

use adr_objects::Number;

/// What is in sight.
#[derive(Clone, Copy, PartialEq, Eq)]
pub enum Sight {
    All,
    /// What belongs to the ven of that number.
    Of(Number),
}

/// Whether the ven of a number, and what is its own, is in sight.
pub fn sees_ven(sight: Sight, number: Number) -> bool
    ensures { result ≡ sees_ven sight number }
{
    match sight {
        Sight::All => true,
        Sight::Of(ven) => number == ven,
    }
}

/// Whether what is of that owner is in sight. What has none is the operator's.
pub fn sees_owner(sight: Sight, owner: Option<Number>) -> bool
    ensures { result ≡ sees_owner sight owner }
{
    let Sight::Of(ven) = sight else {
        return true;
    };
    match owner {
        Some(owner) => owner == ven,
        None => false,
    }
}

/// The owner of what is made by who sees this much: the ven, and none where it is the operator.
pub fn owner_in(sight: Sight) -> Option<Number>
    ensures { result ≡ owner_in sight }
{
    match sight {
        Sight::All => None,
        Sight::Of(ven) => Some(ven),
    }
}
