//! The kinds of path, by how many ids are in one.
ghost use Rattle.std.specs.Prelude.{◌≡◌};
ghost use Rattle.adr_routes.specs.Places.{served, text_of, methods_of};

use crate::methods::{GET, GET_POST, GET_PUT, GET_PUT_DELETE, Methods, POST, PUT_DELETE};

/// A place with no id.
#[derive(Clone, Copy, Debug, PartialEq, Eq)]
pub enum Root {
    Programs,
    Events,
    Reports,
    Subs,
    Notifications,
    Outbox,
    Vens,
}

/// A place with one id.
#[derive(Clone, Copy, Debug, PartialEq, Eq)]
pub enum One {
    Program,
    Event,
    Report,
    Rollup,
    Sub,
    Ven,
    /// The resources of a ven.
    Resources,
    /// The shares of a program.
    Shares,
    /// The shares that are kept for an event.
    Frozen,
}

/// A place with two ids.
#[derive(Clone, Copy, Debug, PartialEq, Eq)]
pub enum Two {
    /// A resource of a ven.
    Resource,
    /// The share of a program and a resource.
    Share,
}

/// A kind of path.
#[derive(Clone, Copy, Debug, PartialEq, Eq)]
pub enum Place {
    Root(Root),
    One(One),
    Two(Two),
}

/// The text of its paths, where a part in braces stands for an id, and the methods that they take.
fn served(place: Place) -> (&'static str, Methods)
    ensures { (result.0.now, result.1) ≡ served place }
{
    match place {
        Place::Root(Root::Programs) => ("/programs", GET),
        Place::One(One::Program) => ("/programs/{id}", GET),
        Place::Root(Root::Events) => ("/events", GET),
        Place::One(One::Event) => ("/events/{id}", GET),
        Place::Root(Root::Reports) => ("/reports", GET_POST),
        Place::One(One::Report) => ("/reports/{id}", GET_PUT_DELETE),
        Place::One(One::Rollup) => ("/rollups/{eventID}", GET),
        Place::Root(Root::Subs) => ("/subscriptions", GET_POST),
        Place::One(One::Sub) => ("/subscriptions/{id}", GET_PUT_DELETE),
        Place::Root(Root::Notifications) => ("/notifications", POST),
        Place::Root(Root::Outbox) => ("/outbox", GET),
        Place::Root(Root::Vens) => ("/vens", GET_POST),
        Place::One(One::Ven) => ("/vens/{venID}", GET_PUT_DELETE),
        Place::One(One::Resources) => ("/vens/{venID}/resources", GET_POST),
        Place::Two(Two::Resource) => ("/vens/{venID}/resources/{resourceID}", GET_PUT_DELETE),
        Place::One(One::Shares) => ("/shares/{programID}", GET),
        Place::Two(Two::Share) => ("/shares/{programID}/{resourceID}", PUT_DELETE),
        Place::One(One::Frozen) => ("/frozen/{eventID}", GET_PUT),
    }
}

/// The text of its paths: what stands in braces is any part that is not empty.
pub fn text_of(place: Place) -> &'static str
    ensures { result.now ≡ text_of place }
{
    served(place).0
}

/// The methods that its paths take.
pub fn methods_of(place: Place) -> Methods
    ensures { result ≡ methods_of place }
{
    served(place).1
}
