//! What is shown of an upstream key.
ghost use Rattle.std.specs.Prelude.{◌≡◌, ◌≤◌, map, length, slice_get, option_and_then, IfOk, OnOk};
ghost use Rattle.std.specs.List.{enumerate_from};
ghost use Rattle.adr_state.specs.Weights.{most_resources};
ghost use Rattle.adr_state.specs.Keys.{view_cmp, with_rows};
ghost use Rattle.adr_view.specs.Views.{interval_at, event_row, rows_for, carries, event_rows, program_rows, mark_rows};

use crate::parts::{SplitInterval, split_intervals, weights_of};
use crate::view_map::put_row;
use adr_objects::{Body, EventBody, Kind, ReportBody, Rollup, ShownEvent, ShownInterval};
use adr_state::{Base, Mark, MirrorKey, Participant, ViewKey, participants_of};
use adr_text::{Name, ObjectId, Rows, Table};
use std::alloc::{AllocError, Global};

/// What stands at a key of the view, without stamps.
#[derive(Clone)]
pub enum Content {
    /// A program's name.
    Program(Name),
    Event(ShownEvent),
    Report(ReportBody),
    Rollup(Rollup),
}

impl Drop for Content {
    fn drop(self) {
        match self {
            Content::Program(_) => (),
            Content::Event(_) => (),
            Content::Report(_) => (),
            Content::Rollup(_) => (),
        }
    }
}

/// All that is shown, in the order of the keys.
pub type View = Table<ViewKey, Content>;

/// The part at a place, where there are parts.
fn part_at(parts: &Option<Rows<i64>>, place: usize) -> Option<i64>
    ensures { result ≡ option_and_then (λ parts. slice_get parts place) parts.now }
{
    match parts {
        None => None,
        Some(parts) => parts.as_slice().get(place).copied(),
    }
}

fn interval_at(place: usize, interval: &SplitInterval) -> Result<ShownInterval, AllocError>
    ensures { IfOk result (λ i. i ≡ interval_at place interval.now) }
{
    Ok(ShownInterval {
        id: interval.id,
        period: interval.period.clone()?,
        part: part_at(&interval.parts, place),
    })
}

fn intervals_at(
    alloc: Global,
    place: usize,
    intervals: &[SplitInterval],
) -> Result<Rows<ShownInterval>, AllocError>
    ensures { IfOk result (λ all. all ≡ map (interval_at place) intervals.now) }
{
    let mut all = Vec::new(alloc);
    for interval in intervals {
        all.push(interval_at(place, interval)?)?;
    }
    Ok(Rows::from_vec(all))
}

/// What the participant at a place is shown of an event.
fn shown_at(
    alloc: Global,
    event: &EventBody,
    intervals: &[SplitInterval],
    place: usize,
    p: &Participant,
) -> Result<ShownEvent, AllocError>
    ensures { IfOk result (λ shown. shown ≡ record {
      program = event.now.program;
      name = event.now.name;
      priority = event.now.priority;
      period = event.now.period;
      intervals = map (interval_at place) intervals.now;
      ven_name = p.now.ven_name;
      resource_name = p.now.name;
    }) }
{
    Ok(ShownEvent {
        program: event.program.clone()?,
        name: event.name.clone()?,
        priority: event.priority,
        period: event.period.clone()?,
        intervals: intervals_at(alloc, place, intervals)?,
        ven_name: p.ven_name.clone()?,
        resource_name: p.name.clone()?,
    })
}

/// What the participant at a place is shown of an event, at its key.
fn event_row(
    alloc: Global,
    id: &ObjectId,
    event: &EventBody,
    intervals: &[SplitInterval],
    place: usize,
    p: &Participant,
) -> Result<(ViewKey, Content), AllocError>
    ensures { IfOk result (λ row. row ≡ event_row id.now event.now intervals.now (place, p.now)) }
{
    let key = ViewKey::Event(id.clone()?, p.resource);
    let shown = shown_at(alloc, event, intervals, place, p)?;
    Ok((key, Content::Event(shown)))
}

/// What each participant is shown of an event that is split.
fn each_row(
    alloc: Global,
    id: &ObjectId,
    event: &EventBody,
    intervals: &[SplitInterval],
    ps: &[Participant],
) -> Result<Rows<(ViewKey, Content)>, AllocError>
    ensures { IfOk result (λ rows. rows ≡ map (event_row id.now event.now intervals.now) (enumerate_from 0 ps.now)) }
{
    let mut rows = Vec::new(alloc);
    for (place, p) in ps.iter().enumerate() {
        rows.push(event_row(alloc, id, event, intervals, place, p)?)?;
    }
    Ok(Rows::from_vec(rows))
}

/// Splits an event over its participants: what each of them is shown, at its key, in their order.
pub fn rows_for(
    alloc: Global,
    id: &ObjectId,
    event: &EventBody,
    ps: &[Participant],
) -> Result<Rows<(ViewKey, Content)>, AllocError>
    requires { length ps.now ≤ most_resources }
    ensures { IfOk result (λ rows. rows ≡ rows_for id.now event.now ps.now) }
{
    if ps.is_empty() {
        return Ok(Rows::new(alloc));
    }
    let weights = weights_of(alloc, ps)?;
    let intervals = split_intervals(alloc, &weights, event.intervals.as_slice())?;
    each_row(alloc, id, event, &intervals, ps)
}

/// Puts rows, each in its place in the order of the keys, over what stands at its key.
fn put_rows(view: &mut View, rows: Rows<(ViewKey, Content)>) -> Result<(), AllocError>
    ensures { OnOk result (view.new ≡ with_rows view_cmp view.old rows) }
{
    'rows: for row in rows.into_vec() {
        put_row(view, row.0, row.1)?;
    }
    Ok(())
}

/// Whether some interval of an event carries a setpoint.
pub fn carries(event: &EventBody) -> bool
    ensures { result ≡ carries event.now }
{
    event
        .intervals
        .as_slice()
        .iter()
        .any(|i| i.setpoint.is_some())
}

fn put_event(
    alloc: Global,
    view: &mut View,
    base: &Base,
    id: &ObjectId,
    event: &EventBody,
) -> Result<(), AllocError>
    ensures { OnOk result (view.new ≡ with_rows view_cmp view.old (event_rows base.now id.now event.now)) }
{
    if !carries(event) {
        return Ok(());
    }
    let ps = participants_of(alloc, &base.portfolio, id, event)?;
    put_rows(view, rows_for(alloc, id, event, &ps)?)
}

/// Puts what is shown of a program.
fn put_program(view: &mut View, id: &ObjectId, name: &Name) -> Result<(), AllocError>
    ensures { OnOk result (view.new ≡ with_rows view_cmp view.old (program_rows id.now name.now)) }
{
    put_row(
        view,
        ViewKey::Program(id.clone()?),
        Content::Program(name.clone()?),
    )
}

/// Puts what is shown of an upstream key.
pub(crate) fn put_mark(
    alloc: Global,
    view: &mut View,
    base: &Base,
    key: &MirrorKey,
    mark: &Mark,
) -> Result<(), AllocError>
    ensures { OnOk result (view.new ≡ with_rows view_cmp view.old (mark_rows base.now (key.now, mark.now))) }
{
    match (key.kind, mark) {
        (Kind::Program, Mark::Live(_, Body::Program(name))) => put_program(view, &key.id, name),
        (Kind::Event, Mark::Live(_, Body::Event(event))) => {
            put_event(alloc, view, base, &key.id, event)
        }
        _ => Ok(()),
    }
}
