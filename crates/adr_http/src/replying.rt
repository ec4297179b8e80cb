//! The bytes of replies.
ghost use Rattle.std.specs.Prelude.{◌≡◌, IfOk};
ghost use Rattle.adr_http.specs.Serving.{problem_bytes, outcome_bytes};

use crate::witness::Witness;
use adr_asked::{Asked, reply_to};
use adr_machine::Answer;
use adr_reply::{Problem, render};
use adr_text::{Name, Refusal};
use std::alloc::{AllocError, Global};

/// The reply that tells a problem.
pub fn problem_bytes(alloc: Global, problem: Problem) -> Result<Vec<u8>, AllocError>
    ensures { IfOk result (λ out. out.items ≡ problem_bytes problem) }
{
    let reply = problem.reply(alloc)?;
    render(alloc, &reply)
}

/// The reply that tells a problem, of which somebody is told.
pub(crate) fn problem_seen<V: Witness>(
    alloc: Global,
    problem: Problem,
    witness: &mut V,
) -> Result<Vec<u8>, AllocError>
    ensures { IfOk result (λ out. out.items ≡ problem_bytes problem) }
{
    witness.replies(problem.status());
    problem_bytes(alloc, problem)
}

/// The reply to what was asked, by a node of that name, of which somebody is told.
pub(crate) fn outcome_bytes<V: Witness>(
    alloc: Global,
    client: &Name,
    asked: &Asked,
    outcome: &Result<Answer, Refusal>,
    witness: &mut V,
) -> Result<Vec<u8>, AllocError>
    ensures { IfOk result (λ out. out.items ≡ outcome_bytes client.now asked.now outcome.now) }
{
    let reply = reply_to(alloc, client, asked, outcome)?;
    witness.replies(reply.status);
    render(alloc, &reply)
}
