//! Steps: an edit, and then its commit; or what is done with an entry of the outbox.
ghost use Rattle.std.specs.Prelude.{◌≡◌, ◌≢◌, Ok, Err, IfOk, IfErr};
ghost use Rattle.adr_text.specs.declared.refusal.Refusal.TheVariants.{Store};
ghost use Rattle.adr_state.specs.Fitting.{Fits};
ghost use Rattle.adr_queries.specs.Listed.{IsListed};
ghost use Rattle.adr_machine.specs.Listed.{listed};
ghost use Rattle.adr_machine.specs.Steps.{changed, outbox_then, committed, delivery_step, edit_step, step};
ghost use Rattle.adr_text.specs.Refusals.{IsRefusalOf};

use crate::command::Command;
use crate::deliver::delivered;
use crate::edit::edited;
use crate::outcome::{Outcome, answered_by};
use adr_delivery::Outbox;
use adr_notices::{Shown, entries_made, outbox_after};
use adr_objects::Stamps;
use adr_queries::Answer;
use adr_state::{Base, Serial, Settings, State, ViewKey};
use adr_text::{Moment, Refusal, Table};
use adr_view::{changes_of, restamped, view_of};
use std::alloc::Global;

/// How many keys of the view changed and the stamps after the changes; and the outbox then, with what is told of them, and
/// the serial from which its numbers were drawn.
fn turned(
    alloc: Global,
    settings: &Settings,
    state: &State,
    now: Moment,
    base: &Base,
) -> Result<((usize, Table<ViewKey, Stamps>), (Outbox, Serial)), Refusal>
    ensures changed { IfOk result (λ next. next.0 ≡ changed state.now now base.now) }
    ensures ok { IfOk result (λ next. outbox_then settings.now state.now now base.now ≡ Ok next.1) }
    ensures refused { IfErr result (λ refusal. IsRefusalOf refusal (outbox_then settings.now state.now now base.now)) }
    ensures no_store { result ≢ Err Store }
{
    let before = view_of(alloc, &state.base)?;
    let after = view_of(alloc, base)?;
    let changes = changes_of(alloc, &before, &after)?;
    let stamps = restamped(alloc, &state.stamps, &before, &after, now)?;
    let subs = &base.portfolio.subs;
    let entries = entries_made(
        alloc,
        &settings.client,
        subs,
        &Shown::new(&state.base, &before, &state.stamps),
        &Shown::new(base, &after, &stamps),
        &changes,
    )?;
    let next = outbox_after(
        alloc,
        &settings.limits,
        base.serial,
        &state.outbox,
        subs,
        entries,
    )?;
    Ok(((changes.len(), stamps), next))
}

/// The state after an edit, and the answer.
fn committed(
    alloc: Global,
    settings: &Settings,
    state: &State,
    now: Moment,
    comes: Outcome,
    mut base: Base,
) -> Result<(Answer, State), Refusal>
    ensures ok { IfOk result (λ next. committed settings.now state.now now comes base ≡ Ok next) }
    ensures refused { IfErr result (λ refusal. IsRefusalOf refusal (committed settings.now state.now now comes base)) }
    ensures no_store { result ≢ Err Store }
{
    let ((count, stamps), (outbox, serial)) = turned(alloc, settings, state, now, &base)?;
    let answer = answered_by(comes, &state.stamps, count, &stamps)?;
    base.serial = serial;
    Ok((
        answer,
        State {
            base,
            stamps,
            outbox,
        },
    ))
}

/// What an edit with its commit answers and leaves, aside.
fn edit_step(
    alloc: Global,
    settings: &Settings,
    state: &State,
    now: Moment,
    command: &Command,
) -> Result<(Answer, State), Refusal>
    ensures ok { IfOk result (λ next. edit_step settings.now state.now now command.now ≡ Ok next) }
    ensures refused { IfErr result (λ refusal. IsRefusalOf refusal (edit_step settings.now state.now now command.now)) }
    ensures no_store { result ≢ Err Store }
{
    let mut base = state.base.copy()?;
    let comes = edited(alloc, &settings.limits, now, &mut base, command)?;
    committed(alloc, settings, state, now, comes, base)
}

/// What a command about an entry answers and leaves, aside.
fn delivery_step(
    alloc: Global,
    settings: &Settings,
    state: &State,
    now: Moment,
    command: &Command,
) -> Result<(Answer, State), Refusal>
    ensures ok { IfOk result (λ next. delivery_step settings.now state.now now command.now ≡ Ok next) }
    ensures refused { IfErr result (λ refusal. IsRefusalOf refusal (delivery_step settings.now state.now now command.now)) }
    ensures no_store { result ≢ Err Store }
{
    let mut next = state.copy()?;
    let answer = delivered(alloc, &settings.limits, now, &mut next.outbox, command)?;
    Ok((answer, next))
}

/// The step, aside.
fn stepped(
    alloc: Global,
    settings: &Settings,
    state: &State,
    now: Moment,
    command: &Command,
) -> Result<(Answer, State), Refusal>
    ensures ok { IfOk result (λ next. step settings.now state.now now command.now ≡ Ok next) }
    ensures refused { IfErr result (λ refusal. IsRefusalOf refusal (step settings.now state.now now command.now)) }
    ensures no_store { result ≢ Err Store }
{
    if command.is_delivery() {
        return delivery_step(alloc, settings, state, now, command);
    }
    edit_step(alloc, settings, state, now, command)
}

/// What a step answers and leaves, aside.
pub(crate) fn next(
    alloc: Global,
    settings: &Settings,
    state: &State,
    now: Moment,
    command: &Command,
) -> Result<(Answer, State), Refusal>
    ensures ok { IfOk result (λ next. step settings.now state.now now command.now ≡ Ok next) }
    ensures refused { IfErr result (λ refusal. IsRefusalOf refusal (step settings.now state.now now command.now)) }
    ensures listed { IfErr result (IsListed ⊥ (listed command.now)) }
    ensures fits { Fits state.now → IfOk result (λ next. Fits next.1) }
{
    settings.limits.are_small();
    stepped(alloc, settings, state, now, command)
}
