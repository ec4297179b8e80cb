//! Names of vens and resources, and room for one more.
ghost use Rattle.std.specs.Prelude.{◌≡◌, ℕ, List};
ghost use Rattle.adr_state.specs.Names.{ven_name, resource_name, is_taken, is_taken_by_another, if_new, if_free};

use crate::portfolio::{Resource, Ven};
use adr_objects::Number;
use adr_text::{Name, Refusal, Table};

/// What stands under a number and has a name.
pub trait Named {
    ghost name_of: { Self → List ℕ };

    fn name(&self) -> &Name
        ensures { result.now ≡ name_of self.now };
}

impl Named for Ven {
    ghost name_of = { ven_name };

    fn name(&self) -> &Name {
        &self.name
    }
}

impl Named for Resource {
    ghost name_of = { resource_name };

    fn name(&self) -> &Name {
        self.name.as_name()
    }
}

/// Whether one of them has the name.
pub fn is_taken<V: Named + Drop>(rows: &Table<Number, V>, name: &Name) -> bool
    ensures { result ≡ is_taken V.name_of name.now rows.now }
{
    rows.iter().any(|(_, row)| *row.name() == *name)
}

/// Whether another than that of the number has the name.
pub fn is_taken_by_another<V: Named + Drop>(
    rows: &Table<Number, V>,
    number: Number,
    name: &Name,
) -> bool
    ensures { result ≡ is_taken_by_another V.name_of number name.now rows.now }
{
    rows.iter()
        .any(|(other, row)| *other != number && *row.name() == *name)
}

/// Refuses a name that is taken (`Conflict`), and then one more than there may be (`LimitReached`).
pub fn check_new(taken: bool, full: bool) -> Result<(), Refusal>
    ensures { result ≡ if_new taken full tt }
{
    if taken {
        return Err(Refusal::Conflict);
    }
    if full {
        return Err(Refusal::LimitReached);
    }
    Ok(())
}

/// Refuses a name that is taken (`Conflict`).
pub fn check_free(taken: bool) -> Result<(), Refusal>
    ensures { result ≡ if_free taken tt }
{
    if taken {
        return Err(Refusal::Conflict);
    }
    Ok(())
}
