//! The reply to a request, whoever takes what it asks.
ghost use Rattle.std.specs.Prelude.{Ok, IfOk, OnErr};
ghost use Rattle.adr_request.specs.Requests.{request_parts};
ghost use Rattle.adr_http.specs.Plans.{plan_of};
ghost use Rattle.adr_http.specs.Takers.{TakesOnce, IsBuiltBy, MayLeaveBy};

use crate::planning::plan_seen;
use crate::replying::{outcome_bytes, problem_seen};
use crate::roles::Roles;
use crate::taker::Taker;
use crate::witness::Witness;
use adr_asked::{Asked, without};
use adr_reply::Problem;
use adr_request::HttpRequest;
use adr_routes::Routes;
use std::alloc::{AllocError, Global};

/// Takes what was asked, and gives the reply to what comes of it.
fn answer_asked<T: Taker, V: Witness>(
    alloc: Global,
    taker: &mut T,
    asked: &Asked,
    witness: &mut V,
) -> Result<Vec<u8>, AllocError>
    ensures ok { IfOk result (λ out. IsBuiltBy T.takes (T.client taker.old) taker.old (Ok asked.now) out.items taker.new) }
    ensures err { OnErr result (MayLeaveBy T.takes taker.old (Ok asked.now) taker.new) }
    ensures once { TakesOnce T.takes taker.old taker.new }
{
    let outcome = taker.take(asked);
    outcome_bytes(alloc, taker.client(), asked, &outcome, witness)
}

/// The reply to what was planned.
fn answer_plan<T: Taker, V: Witness>(
    alloc: Global,
    taker: &mut T,
    plan: &Result<Asked, Problem>,
    witness: &mut V,
) -> Result<Vec<u8>, AllocError>
    ensures ok { IfOk result (λ out. IsBuiltBy T.takes (T.client taker.old) taker.old plan.now out.items taker.new) }
    ensures err { OnErr result (MayLeaveBy T.takes taker.old plan.now taker.new) }
    ensures once { TakesOnce T.takes taker.old taker.new }
{
    match plan {
        Ok(asked) => answer_asked(alloc, taker, asked, witness),
        Err(problem) => problem_seen(alloc, *problem, witness),
    }
}

/// Takes what a request asks, once at most, and gives the bytes of the reply. Where memory runs out for these, it may have
/// been taken.
pub(crate) fn answer_by<T: Taker, V: Witness>(
    alloc: Global,
    roles: &Roles,
    routes: &Routes,
    taker: &mut T,
    request: &HttpRequest,
    witness: &mut V,
) -> Result<Vec<u8>, AllocError>
    ensures ok { IfOk result (λ out. IsBuiltBy T.takes (T.client taker.old) taker.old (plan_of roles.now (request_parts request.now)) out.items taker.new) }
    ensures err { OnErr result (MayLeaveBy T.takes taker.old (plan_of roles.now (request_parts request.now)) taker.new) }
    ensures once { TakesOnce T.takes taker.old taker.new }
{
    // The plan is looked at by reference: taken apart, each kind of what is asked would be a path of its own here.
    let plan = plan_seen(alloc, roles, routes, request, witness);
    let bytes = answer_plan(alloc, taker, &plan, witness);
    without(plan, bytes)
}
