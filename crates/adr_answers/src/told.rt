//! What is told of an object that was looked for, and of a list of objects.
ghost use Rattle.std.specs.Prelude.{◌≡◌, [], ◌∷◌, IfOk, IfErr};
ghost use Rattle.adr_text.specs.declared.refusal.Refusal.TheVariants.{Forbidden, NotFound};
ghost use Rattle.adr_queries.specs.declared.answer.Answer.TheVariants as answer;
ghost use Rattle.adr_queries.specs.Listings.{page_of};
ghost use Rattle.adr_queries.specs.Shown.{told};
ghost use Rattle.adr_db.specs.Calls.{IsOneOf};

use adr_queries::{Answer, Object, Page, page_of, told};
use adr_text::{Refusal, Rows};
use std::alloc::{AllocError, Global};

/// The answer of an object, or `NotFound`.
pub(crate) fn told_of(object: Option<Object>) -> Result<Answer, Refusal>
    ensures gives { result ≡ told object }
    ensures listed { IfErr result (IsOneOf (Forbidden ∷ NotFound ∷ [])) }
{
    told(object)
}

/// The page of a listing, as an answer.
pub(crate) fn listed(alloc: Global, page: Page, objects: Vec<Object>) -> Result<Answer, AllocError>
    ensures { IfOk result (λ told. told ≡ answer.List (page_of page objects.items)) }
{
    Ok(Answer::List(Rows::from_vec(page_of(alloc, page, objects)?)))
}
