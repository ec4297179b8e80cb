//! Events, as they are listed, and one of them, by an id that names a resource and an event of the utility.
ghost use Rattle.std.specs.Prelude.{◌≡◌, ◌≢◌, Ok, Err, IfOk, IfErr};
ghost use Rattle.adr_text.specs.declared.refusal.Refusal.TheVariants.{Store};
ghost use Rattle.adr_text.specs.Refusals.{IsRefusalOf};
ghost use Rattle.adr_state.specs.ShownIds.{resource_named};
ghost use Rattle.adr_queries.specs.Shown.{event_shown, event_told, events_reply, event_reply};

use crate::answer::{Answer, Object};
use crate::filter::{EventFilter, wanted_of};
use crate::page::page_of;
use crate::query::Page;
use crate::role::Role;
use crate::shown::{object_shown, objects_in_sight, told};
use crate::sight::sight_of;
use adr_objects::{Kind, Number};
use adr_state::{State, ViewKey, id_in, id_parts, resource_named};
use adr_text::{ObjectId, Refusal, Rows};
use adr_view::{Sight, sees_ven};
use std::alloc::{AllocError, Global};

/// The events that a role sees and the filter wants, or `Forbidden`.
pub(crate) fn events_reply(
    alloc: Global,
    state: &State,
    role: &Role,
    filter: &EventFilter,
    page: Page,
) -> Result<Answer, Refusal>
    ensures ok { IfOk result (λ answer. events_reply state.now role.now filter.now page ≡ Ok answer) }
    ensures refused { IfErr result (λ refusal. IsRefusalOf refusal (events_reply state.now role.now filter.now page)) }
    ensures no_store { result ≢ Err Store }
{
    let sight = sight_of(&state.base, role)?;
    let events = objects_in_sight(alloc, state, Kind::Event, sight)?;
    let wanted = wanted_of(alloc, filter, events)?;
    Ok(Answer::List(Rows::from_vec(page_of(alloc, page, wanted)?)))
}

/// What the resource is shown of the event that the text behind the `-` names.
fn event_shown(
    alloc: Global,
    state: &State,
    resource: Number,
    text: &str,
) -> Result<Option<Object>, AllocError>
    ensures { IfOk result (λ object. object ≡ event_shown state.now resource text.now) }
{
    match id_in(alloc, text)? {
        Some(event) => object_shown(alloc, state, &ViewKey::Event(event, resource)),
        None => Ok(None),
    }
}

/// What is told of an event, by the two parts of its id.
fn event_told(
    alloc: Global,
    state: &State,
    sight: Sight,
    resource: &str,
    event: &str,
) -> Result<Answer, Refusal>
    ensures ok { IfOk result (λ answer. event_told state.now sight event.now (resource_named state.now.base.portfolio resource.now) ≡ Ok answer) }
    ensures refused { IfErr result (λ refusal. IsRefusalOf refusal (event_told state.now sight event.now (resource_named state.now.base.portfolio resource.now))) }
    ensures no_store { result ≢ Err Store }
{
    let Some((number, resource)) = resource_named(alloc, &state.base.portfolio, resource)? else {
        return Err(Refusal::NotFound);
    };
    if !sees_ven(sight, resource.ven) {
        return Err(Refusal::Forbidden);
    }
    told(event_shown(alloc, state, number, event)?)
}

/// The event of an id; `Forbidden` where the id names a resource that is out of sight, and `NotFound`
/// where no such event is shown.
pub(crate) fn event_reply(
    alloc: Global,
    state: &State,
    role: &Role,
    id: &ObjectId,
) -> Result<Answer, Refusal>
    ensures ok { IfOk result (λ answer. event_reply state.now role.now id.now ≡ Ok answer) }
    ensures refused { IfErr result (λ refusal. IsRefusalOf refusal (event_reply state.now role.now id.now)) }
    ensures no_store { result ≢ Err Store }
{
    let sight = sight_of(&state.base, role)?;
    match id_parts(id) {
        (resource, Some(event)) => event_told(alloc, state, sight, resource, event),
        (_, None) => Err(Refusal::NotFound),
    }
}
