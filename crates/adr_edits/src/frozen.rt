//! Events that are frozen.
ghost use Rattle.std.specs.Prelude.{◌≡◌, ◌≢◌, false, Some, Ok, Err, IfOk, IfErr};
ghost use Rattle.std.specs.List.{list_any};
ghost use Rattle.std.specs.List.Sorted.{IsStrictlySortedBy};
ghost use Rattle.std.specs.Map.{keys_of};
ghost use Rattle.std.specs.Ordering.{nat_cmp};
ghost use Rattle.adr_text.specs.declared.refusal.Refusal.TheVariants.{Store};
ghost use Rattle.adr_text.specs.Refusals.{IsRefusalOf};
ghost use Rattle.adr_state.specs.Keys.{mirror_cmp};
ghost use Rattle.adr_state.specs.Portfolios.{carried_out};
ghost use Rattle.adr_view.specs.Frozen.{pairs_of, are_beyond, mark_differs, frozen_with, frozen_as, freeze};
ghost use Rattle.adr_view.specs.Rollups.{event_at};

use adr_objects::{EventBody, Number};
use adr_state::{
    Limits, Mark, MirrorKey, Participant, Portfolio, Weight, is_frozen, pairs_kept, participants_of,
};
use adr_text::{ObjectId, Refusal, Rows, Table};
use adr_view::{event_body, event_key, mark_at};
use std::alloc::{AllocError, Global};

/// The pairs of those who take part.
fn pairs_of(alloc: Global, ps: &[Participant]) -> Result<Rows<(Number, Weight)>, AllocError>
    ensures { IfOk result (λ pairs. pairs ≡ pairs_of ps.now) }
{
    let mut pairs = Vec::new(alloc);
    for p in ps {
        pairs.push((p.resource, p.weight))?;
    }
    Ok(Rows::from_vec(pairs))
}

/// Upstream keys stand in their order, and resources and reports in that of their numbers.
fn stand_in_order(mirror: &Table<MirrorKey, Mark>, portfolio: &Portfolio)
    ensures keys { IsStrictlySortedBy mirror_cmp (keys_of mirror.now) }
    ensures resources { IsStrictlySortedBy nat_cmp (keys_of portfolio.now.resources) }
    ensures reports { IsStrictlySortedBy nat_cmp (keys_of portfolio.now.reports) }
{
    let _keys = mirror.iter();
    let _resources = portfolio.resources.rows().iter();
    let _reports = portfolio.reports.iter();
}

/// Whether there is no room for so many more pairs beside those that are kept for all events.
fn are_beyond(limits: &Limits, portfolio: &Portfolio, pairs: &[(Number, Weight)]) -> bool
    ensures { result ≡ are_beyond limits.now portfolio.now pairs.now }
{
    let limit = limits.frozen.get();
    let kept = portfolio.frozen_shares.len() as u64;
    limit < kept || limit - kept < pairs.len() as u64
}

/// Freezes the event with these pairs, by which no others take part in it, and answers them.
fn frozen_with(
    limits: &Limits,
    mirror: &Table<MirrorKey, Mark>,
    portfolio: &mut Portfolio,
    id: &ObjectId,
    pairs: Rows<(Number, Weight)>,
) -> Result<Rows<(Number, Weight)>, Refusal>
    requires { list_any (mark_differs id.now pairs portfolio.old) mirror.now ≡ false }
    ensures ok { IfOk result (λ answer. carried_out portfolio.old (frozen_with limits.now id.now pairs mirror.now portfolio.old) ≡ Ok (answer, portfolio.new)) }
    ensures refused { IfErr result (λ refusal. IsRefusalOf refusal (frozen_with limits.now id.now pairs mirror.now portfolio.old)) }
    ensures no_store { result ≢ Err Store }
{
    if are_beyond(limits, portfolio, pairs.as_slice()) {
        return Err(Refusal::LimitReached);
    }
    portfolio.freeze(id, pairs.as_slice())?;
    Ok(pairs)
}

/// Freezes the event with those who take part in it now, unless it is frozen already; and answers what is kept for it.
fn frozen_as(
    alloc: Global,
    limits: &Limits,
    mirror: &Table<MirrorKey, Mark>,
    portfolio: &mut Portfolio,
    id: &ObjectId,
    event: &EventBody,
) -> Result<Rows<(Number, Weight)>, Refusal>
    requires { event_at mirror.now id.now ≡ Some event.now }
    ensures ok { IfOk result (λ answer. carried_out portfolio.old (frozen_as limits.now id.now event.now mirror.now portfolio.old) ≡ Ok (answer, portfolio.new)) }
    ensures refused { IfErr result (λ refusal. IsRefusalOf refusal (frozen_as limits.now id.now event.now mirror.now portfolio.old)) }
    ensures no_store { result ≢ Err Store }
{
    if is_frozen(portfolio, id) {
        return Ok(pairs_kept(alloc, portfolio, id)?);
    }
    let ps = participants_of(alloc, portfolio, id, event)?;
    let pairs = pairs_of(alloc, &ps)?;
    stand_in_order(mirror, portfolio);
    frozen_with(limits, mirror, portfolio, id, pairs)
}

/// Freezes the event of that id, and answers what is kept for it: the number of each resource with its weight. Refused
/// where the event is not live with an event's body, and where the pairs of all events would pass their limit.
pub fn freeze(
    alloc: Global,
    limits: &Limits,
    mirror: &Table<MirrorKey, Mark>,
    portfolio: &mut Portfolio,
    id: &ObjectId,
) -> Result<Rows<(Number, Weight)>, Refusal>
    ensures ok { IfOk result (λ answer. carried_out portfolio.old (freeze limits.now id.now mirror.now portfolio.old) ≡ Ok (answer, portfolio.new)) }
    ensures refused { IfErr result (λ refusal. IsRefusalOf refusal (freeze limits.now id.now mirror.now portfolio.old)) }
    ensures no_store { result ≢ Err Store }
{
    let key = event_key(id)?;
    match event_body(mark_at(mirror, &key)) {
        Some(event) => frozen_as(alloc, limits, mirror, portfolio, id, event),
        None => Err(Refusal::NotFound),
    }
}
