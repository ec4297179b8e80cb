//! Numbers that have a name.
ghost use Rattle.std.specs.Prelude.{◌≡◌, ◌==◌, not};
ghost use Rattle.std.specs.List.{list_any};

use adr_objects::Number;

/// Whether another number than this is among them.
pub(crate) fn is_another_there(number: Number, numbers: &[Number]) -> bool
    ensures { result ≡ list_any (λ n. not (n == number)) numbers.now }
{
    numbers.iter().any(|other| *other != number)
}
