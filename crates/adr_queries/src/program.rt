//! Programs, as they are listed, and one of them.
ghost use Rattle.std.specs.Prelude.{◌≡◌, ◌≢◌, Ok, Err, IfOk, IfErr};
ghost use Rattle.adr_text.specs.declared.refusal.Refusal.TheVariants.{Store};
ghost use Rattle.adr_text.specs.Refusals.{IsRefusalOf};
ghost use Rattle.adr_queries.specs.Shown.{programs_reply, program_reply};

use crate::answer::Answer;
use crate::page::page_of;
use crate::query::Page;
use crate::role::Role;
use crate::shown::{object_shown, objects_in_sight, told};
use crate::sight::sight_of;
use adr_objects::Kind;
use adr_state::{State, ViewKey};
use adr_text::{ObjectId, Refusal, Rows};
use std::alloc::Global;

/// The programs, or `Forbidden`.
pub(crate) fn programs_reply(
    alloc: Global,
    state: &State,
    role: &Role,
    page: Page,
) -> Result<Answer, Refusal>
    ensures ok { IfOk result (λ answer. programs_reply state.now role.now page ≡ Ok answer) }
    ensures refused { IfErr result (λ refusal. IsRefusalOf refusal (programs_reply state.now role.now page)) }
    ensures no_store { result ≢ Err Store }
{
    let sight = sight_of(&state.base, role)?;
    let programs = objects_in_sight(alloc, state, Kind::Program, sight)?;
    Ok(Answer::List(Rows::from_vec(page_of(alloc, page, programs)?)))
}

/// The program of an id; `NotFound` where none is shown.
pub(crate) fn program_reply(
    alloc: Global,
    state: &State,
    role: &Role,
    id: &ObjectId,
) -> Result<Answer, Refusal>
    ensures ok { IfOk result (λ answer. program_reply state.now role.now id.now ≡ Ok answer) }
    ensures refused { IfErr result (λ refusal. IsRefusalOf refusal (program_reply state.now role.now id.now)) }
    ensures no_store { result ≢ Err Store }
{
    sight_of(&state.base, role)?;
    let key = ViewKey::Program(id.clone()?);
    told(object_shown(alloc, state, &key)?)
}
