//! Who takes part in an event.
ghost use Rattle.std.specs.Prelude.{◌≡◌, ◌≤◌, length, IfOk};
ghost use Rattle.adr_state.specs.Weights.{most_resources};
ghost use Rattle.adr_state.specs.Participants.{is_for, weight_by_share, weight_in, as_participant, participant_of, participants};

use crate::frozen::{frozen_weight, is_frozen};
use crate::keys::ShareKey;
use crate::lists::push_some;
use crate::portfolio::{Portfolio, Resource, Weight};
use adr_objects::{EventBody, NameSet, Number};
use adr_text::{Name, ObjectId};
use std::alloc::{AllocError, Global};

/// A resource with its weight in the event.
pub struct Participant {
    pub resource: Number,
    pub weight: Weight,
    pub name: Name,
    pub ven_name: Name,
}

impl Drop for Participant {
    fn drop(self) {
        let Participant {
            resource: _,
            weight: _,
            name: _,
            ven_name: _,
        } = self;
    }
}

/// Whether an event with these resource names, if any, is for a resource of that name.
pub fn is_for(names: &Option<NameSet>, name: &Name) -> bool
    ensures { result ≡ is_for names.now name.now }
{
    match names {
        None => true,
        Some(names) => names.contains(name),
    }
}

/// The share of the resource in the event's program, where the event is for a resource of its name.
fn weight_by_share(
    portfolio: &Portfolio,
    event: &EventBody,
    number: Number,
    resource: &Resource,
) -> Result<Option<Weight>, AllocError>
    ensures { IfOk result (λ weight. weight ≡ weight_by_share portfolio.now event.now (number, resource.now)) }
{
    if !is_for(&event.resource_names, resource.name.as_name()) {
        return Ok(None);
    }
    let key = ShareKey {
        program: event.program.clone()?,
        resource: number,
    };
    Ok(portfolio.shares.get(&key).copied())
}

/// The weight of the resource in the event of that id, where it has one: that which is kept for it, of an event that is
/// frozen, and else its share.
fn weight_in(
    portfolio: &Portfolio,
    id: &ObjectId,
    event: &EventBody,
    number: Number,
    resource: &Resource,
) -> Result<Option<Weight>, AllocError>
    ensures { IfOk result (λ weight. weight ≡ weight_in portfolio.now id.now event.now (number, resource.now)) }
{
    if is_frozen(portfolio, id) {
        return frozen_weight(portfolio, id, number);
    }
    weight_by_share(portfolio, event, number, resource)
}

/// The resource with that weight, where its ven is there.
fn as_participant(
    portfolio: &Portfolio,
    number: Number,
    resource: &Resource,
    weight: Weight,
) -> Result<Option<Participant>, AllocError>
    ensures { IfOk result (λ p. p ≡ as_participant portfolio.now (number, resource.now) weight) }
{
    let Some(ven) = portfolio.vens.get(&resource.ven) else {
        return Ok(None);
    };
    Ok(Some(Participant {
        resource: number,
        weight,
        name: resource.name.as_name().clone()?,
        ven_name: ven.name.clone()?,
    }))
}

/// The resource as one that takes part in the event of that id, where it does.
pub fn participant_of(
    portfolio: &Portfolio,
    id: &ObjectId,
    event: &EventBody,
    number: Number,
    resource: &Resource,
) -> Result<Option<Participant>, AllocError>
    ensures { IfOk result (λ p. p ≡ participant_of portfolio.now id.now event.now (number, resource.now)) }
{
    let Some(weight) = weight_in(portfolio, id, event, number, resource)? else {
        return Ok(None);
    };
    as_participant(portfolio, number, resource, weight)
}

/// The participants of the event of that id, in the order of their numbers.
pub fn participants_of(
    alloc: Global,
    portfolio: &Portfolio,
    id: &ObjectId,
    event: &EventBody,
) -> Result<Vec<Participant>, AllocError>
    ensures value { IfOk result (λ all. all.items ≡ participants portfolio.now id.now event.now) }
    ensures few { IfOk result (λ all. length all.items ≤ most_resources) }
{
    let mut all = Vec::new(alloc);
    for (number, resource) in portfolio.resources.iter() {
        push_some(
            &mut all,
            participant_of(portfolio, id, event, *number, resource)?,
        )?;
    }
    Ok(all)
}
