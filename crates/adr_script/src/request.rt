//! What the words of a line ask of the machine.
ghost use Rattle.std.specs.Prelude.{◌≡◌, unwrap_or};
ghost use Rattle.adr_reply.specs.Problems.{Tells};
ghost use Rattle.adr_script.specs.Requests.{is_method, line_asked, request_of};

use crate::words::role_from;
use adr_asked::{Asked, asked_of};
use adr_reply::Problem;
use adr_routes::{Methods, Routes, text_from};
use adr_wire::cut;
use std::alloc::Global;

/// Whether the word is one of the four methods.
fn is_method(word: &[u8]) -> bool
    ensures { result ≡ is_method word.now }
{
    let all = Methods {
        get: true,
        post: true,
        put: true,
        delete: true,
    };
    all.has(word)
}

/// What the words of a line ask, or none where they are of another form.
fn line_asked(
    alloc: Global,
    routes: &Routes,
    role: &[u8],
    method: &[u8],
    target: &[u8],
    body: &[u8],
) -> Result<Option<Asked>, Problem>
    ensures { Tells (λ a. a) result (line_asked role.now method.now target.now body.now) }
{
    if !is_method(method) {
        return Ok(None);
    }
    if text_from(target).is_none() {
        return Ok(None);
    }
    let Some(role) = role_from(alloc, role)? else {
        return Ok(None);
    };
    Ok(Some(asked_of(alloc, routes, role, method, target, body)?))
}

/// What a role asks by `METHOD TARGET` or `METHOD TARGET BODY`, or none where the words are of another form.
#[tactic(auto, unfolding(crate::specs::Requests::request_of))]
pub(crate) fn request_of(
    alloc: Global,
    routes: &Routes,
    role: &[u8],
    rest: &[u8],
) -> Result<Option<Asked>, Problem>
    ensures { Tells (λ a. a) result (request_of role.now rest.now) }
{
    let (method, Some(rest)) = cut(b' ', rest) else {
        return Ok(None);
    };
    let (target, body) = cut(b' ', rest);
    line_asked(alloc, routes, role, method, target, body.unwrap_or(&[]))
}
