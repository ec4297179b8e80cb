//! The router of the places.
ghost use Rattle.std.specs.Prelude.{◌≡◌, [], IsTrue, IfOk, OnOk};
ghost use Rattle.adr_routes.specs.Tables.{row_of, rows_of_table, route_of, is_free, all_free};
ghost use Rattle.adr_routes.specs.Places.{table, text_of, entry_of, entries_of};
ghost use Rattle.adr_routes.specs.Paths.{place_in, path_of};

use crate::ids::path_at;
use crate::names::names_in;
use crate::path::Path;
use crate::place::{One, Place, Root, Two, text_of};
use matchit::{InsertError, Router};
use std::alloc::{AllocError, Global};

/// Finds the path that a text is.
#[derive(Drop)]
pub struct Routes {
    router: Router<Place>,
    ghost of_table: { router ≡ rows_of_table table },
}

/// Puts one more place in, whose text stands against none that is there.
fn insert_place(router: &mut Router<Place>, place: Place) -> Result<(), AllocError>
    requires { IsTrue (is_free router.old (text_of place)) }
    ensures { OnOk result (router.new ≡ row_of router.old (entry_of place)) }
{
    if let Err(error) = router.insert(text_of(place), place) {
        prove!(matches!(&error, InsertError::OutOfMemory));
        return Err(AllocError);
    }
    Ok(())
}

/// The router of these places, none of whose texts stands against another.
fn router_of(alloc: Global, places: &[Place]) -> Result<Router<Place>, AllocError>
    requires { IsTrue (all_free [] (entries_of places.now)) }
    ensures { IfOk result (λ router. router ≡ rows_of_table (entries_of places.now)) }
{
    let mut router = Router::new(alloc);
    for place in places {
        insert_place(&mut router, *place)?;
    }
    Ok(router)
}

/// The place of the route that the router finds.
fn route_at(router: &Router<Place>, path: &str) -> Option<Place>
    ensures { result ≡ route_of router.now path.now }
{
    match router.at(path) {
        Ok(found) => Some(*found.value),
        Err(_) => None,
    }
}

impl Routes {
    /// The routes of all places. Only memory can fail them.
    pub fn new(alloc: Global) -> Result<Routes, AllocError> {
        let places = [
            Place::Root(Root::Programs),
            Place::One(One::Program),
            Place::Root(Root::Events),
            Place::One(One::Event),
            Place::Root(Root::Reports),
            Place::One(One::Report),
            Place::One(One::Rollup),
            Place::Root(Root::Subs),
            Place::One(One::Sub),
            Place::Root(Root::Notifications),
            Place::Root(Root::Outbox),
            Place::Root(Root::Vens),
            Place::One(One::Ven),
            Place::One(One::Resources),
            Place::Two(Two::Resource),
            Place::One(One::Shares),
            Place::Two(Two::Share),
            Place::One(One::Frozen),
        ];
        let router = router_of(alloc, &places)?;
        Ok(Routes { router })
    }

    /// The place whose text the path has the shape of.
    #[tactic(auto, using(crate::proofs::PlaceTable::place_of_path))]
    fn place_at(&self, path: &str) -> Option<Place>
        ensures { result ≡ place_in path.now }
    {
        route_at(&self.router, path)
    }

    /// The path that the text is. Nothing is decoded, and a slash at the end is one too many.
    #[tactic(auto, unfolding(crate::specs::Paths::path_of))]
    pub fn find(&self, alloc: Global, path: &str) -> Result<Option<Path>, AllocError>
        ensures { IfOk result (λ found. found ≡ path_of path.now) }
    {
        let Some(place) = self.place_at(path) else {
            return Ok(None);
        };
        let names = names_in(alloc, text_of(place), path)?;
        path_at(alloc, place, &names)
    }
}
