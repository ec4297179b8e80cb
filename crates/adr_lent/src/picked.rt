//! Which shown events a query of its own selects.
ghost use Rattle.std.specs.Prelude.{◌≡◌, [], ◌∷◌, List, filter, None, IfOk, IfSome};
ghost use Rattle.adr_lent.specs.Pages.{ShownEntry, kept_for, wanted_among};
ghost use Rattle.adr_lent.specs.Picks.{picks, for_ven};

use adr_objects::Number;
use adr_queries::{EventFilter, TargetFilter};
use adr_text::{Name, ObjectId};
use std::alloc::{AllocError, Global};

/// All shown events, or those with this in one column.
pub enum Picked {
    All,
    OfVen(Number),
    OfProgram(ObjectId),
    OfVenName(Name),
    OfResourceName(Name),
}

impl Drop for Picked {
    fn drop(self) {
        match self {
            Picked::All => (),
            Picked::OfVen(_) => (),
            Picked::OfProgram(_) => (),
            Picked::OfVenName(_) => (),
            Picked::OfResourceName(_) => (),
        }
    }
}

// What is asked for of all, where it is one alone.
fn alone<'v, T>(ven: &Option<Number>, values: &'v [T]) -> Option<&'v T>
    ensures all { IfSome result (λ value. ven.now ≡ None) }
    ensures one { IfSome result (λ value. values.now ≡ value.now ∷ []) }
{
    match (ven, values.first()) {
        (None, Some(value)) if values.len() == 1 => Some(value),
        _ => None,
    }
}

/// Those of one ven, where one is named, and else all.
pub(crate) fn shown_to(ven: Option<Number>) -> Picked
    ensures { result ≡ for_ven ven }
{
    match ven {
        Some(ven) => Picked::OfVen(ven),
        None => Picked::All,
    }
}

/// Those that a filter wants of what is shown to one ven, or of all, where what it asks for stands in one column.
pub(crate) fn wanted(
    alloc: Global,
    ven: &Option<Number>,
    asked: &EventFilter,
) -> Result<Option<Picked>, AllocError>
    ensures { IfOk result (λ found. IfSome found (λ picked. (entries : List ShownEntry) → wanted_among asked.now (kept_for ven.now entries) ≡ filter (picks picked) entries)) }
{
    match (&asked.programs, &asked.target) {
        (None, TargetFilter::Any) => Ok(Some(shown_to(*ven))),
        (Some(programs), TargetFilter::Any) => match alone(ven, programs.as_slice()) {
            Some(program) => Ok(Some(Picked::OfProgram(program.copy(alloc)?))),
            None => Ok(None),
        },
        (None, TargetFilter::VenName(names)) => match alone(ven, names.as_slice()) {
            Some(name) => Ok(Some(Picked::OfVenName(name.copy(alloc)?))),
            None => Ok(None),
        },
        (None, TargetFilter::ResourceName(names)) => match alone(ven, names.as_slice()) {
            Some(name) => Ok(Some(Picked::OfResourceName(name.copy(alloc)?))),
            None => Ok(None),
        },
        _ => Ok(None),
    }
}
