//! What a request asks.
ghost use Rattle.std.specs.Prelude.{◌≡◌, option_map};
ghost use Rattle.std.specs.Option.{option_copied};
ghost use Rattle.adr_reply.specs.Problems.{Tells};
ghost use Rattle.adr_request.specs.Requests.{request_parts};
ghost use Rattle.adr_http.specs.Plans.{role_shown, plan_by, plan_of};

use crate::roles::Roles;
use crate::witness::{Unseen, Witness};
use adr_asked::{Asked, asked_of};
use adr_machine::Role;
use adr_reply::Problem;
use adr_request::HttpRequest;
use adr_routes::Routes;
use std::alloc::Global;

/// The role of the token that is shown, where one is and is known.
fn role_shown<'r>(roles: &'r Roles, token: &Option<Vec<u8>>) -> Option<&'r Role>
    ensures { option_copied result ≡ role_shown roles.now (option_map (λ v. v.items) token.now) }
{
    match token {
        Some(token) => roles.find(token),
        None => None,
    }
}

/// What a request asks by the role of its token, where that is known; else it asks nothing.
fn plan_by(
    alloc: Global,
    routes: &Routes,
    role: Option<&Role>,
    request: &HttpRequest,
) -> Result<Asked, Problem>
    ensures { Tells (λ a. a) result (plan_by (option_copied role.entry) (request_parts request.now)) }
{
    let Some(role) = role else {
        return Err(Problem::Unauthorized);
    };
    let role = role.clone()?;
    asked_of(
        alloc,
        routes,
        role,
        &request.method,
        &request.target,
        &request.body,
    )
}

/// What a request asks, of which somebody is told.
pub(crate) fn plan_seen<V: Witness>(
    alloc: Global,
    roles: &Roles,
    routes: &Routes,
    request: &HttpRequest,
    witness: &mut V,
) -> Result<Asked, Problem>
    ensures { Tells (λ a. a) result (plan_of roles.now (request_parts request.now)) }
{
    let role = role_shown(roles, &request.token);
    let plan = plan_by(alloc, routes, role, request);
    witness.plans(role, &plan);
    plan
}

/// What a request asks: a command or a query of the machine, or nothing, by who shows such a token; or why it asks nothing:
/// the token isn't known, there is no such path, the path hasn't the method, or the query or the body is of another form.
/// The first of these stands.
pub fn plan(
    alloc: Global,
    roles: &Roles,
    routes: &Routes,
    request: &HttpRequest,
) -> Result<Asked, Problem>
    ensures { Tells (λ a. a) result (plan_of roles.now (request_parts request.now)) }
{
    plan_seen(alloc, roles, routes, request, &mut Unseen)
}
