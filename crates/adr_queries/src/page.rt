//! Parts of listings.
ghost use Rattle.std.specs.Prelude.{◌≡◌, IfOk};
ghost use Rattle.adr_queries.specs.Listings.{page_of};

use crate::answer::Object;
use crate::query::Page;
use std::alloc::{AllocError, Global};

/// The page of a listing: after the first ones, at most so many.
pub fn page_of(alloc: Global, page: Page, objects: Vec<Object>) -> Result<Vec<Object>, AllocError>
    ensures { IfOk result (λ some. some.items ≡ page_of page objects.items) }
{
    objects
        .into_iter()
        .skip(page.skip as usize)
        .take(page.limit as usize)
        .collect(alloc)
}
