//! All that is shown.
ghost use Rattle.std.specs.Prelude.{◌≡◌, map, option_and_then, IfOk, OnOk};
ghost use Rattle.std.specs.List.{flat_map};
ghost use Rattle.std.specs.Option.{option_copied};
ghost use Rattle.adr_state.specs.Keys.{view_cmp, with_rows};
ghost use Rattle.adr_view.specs.Rollups.{rollup_of};
ghost use Rattle.adr_view.specs.Views.{mark_rows, report_row, rolled_up, event_of, rollup_rows, view};

use crate::rollup::{event_body, rollup_of};
use crate::view::{Content, View, put_mark};
use crate::view_map::put_row;
use adr_objects::{EventBody, Kind, Number, Rollup};
use adr_state::{Base, Mark, MirrorKey, Portfolio, Report, ViewKey};
use adr_text::{ObjectId, Table};
use std::alloc::{AllocError, Global};

/// Puts what is shown of each upstream key.
fn put_marks(alloc: Global, view: &mut View, base: &Base) -> Result<(), AllocError>
    ensures { OnOk result (view.new ≡ with_rows view_cmp view.old (flat_map (mark_rows base.now) base.now.mirror)) }
{
    'marks: for (key, mark) in base.mirror.iter() {
        put_mark(alloc, view, base, key, mark)?;
    }
    Ok(())
}

/// Puts the reports.
fn put_reports(view: &mut View, reports: &Table<Number, Report>) -> Result<(), AllocError>
    ensures { OnOk result (view.new ≡ with_rows view_cmp view.old (map report_row reports.now)) }
{
    'reports: for (number, report) in reports.iter() {
        put_row(
            view,
            ViewKey::Report(*number),
            Content::Report(report.body.clone()?),
        )?;
    }
    Ok(())
}

/// What the mark of an upstream key says of an event.
fn event_of(kind: Kind, mark: &Mark) -> Option<&EventBody>
    ensures { option_copied result ≡ event_of kind mark.now }
{
    match kind {
        Kind::Program => None,
        Kind::Event => event_body(Some(mark)),
    }
}

/// The roll-up of an upstream key, where it is an event's.
fn rollup_by(
    alloc: Global,
    portfolio: &Portfolio,
    key: &MirrorKey,
    mark: &Mark,
) -> Result<Option<Rollup>, AllocError>
    ensures { IfOk result (λ rollup. rollup ≡ option_and_then (rollup_of portfolio.now key.now.id) (event_of key.now.kind mark.now)) }
{
    match event_of(key.kind, mark) {
        Some(event) => rollup_of(alloc, portfolio, &key.id, event),
        None => Ok(None),
    }
}

/// Puts the roll-up of an event, where there is one.
fn put_rollup(view: &mut View, id: &ObjectId, rollup: Option<Rollup>) -> Result<(), AllocError>
    ensures { OnOk result (view.new ≡ with_rows view_cmp view.old (rolled_up id.now rollup)) }
{
    match rollup {
        Some(rollup) => put_row(view, ViewKey::Rollup(id.clone()?), Content::Rollup(rollup)),
        None => Ok(()),
    }
}

/// Puts the roll-ups.
fn put_rollups(alloc: Global, view: &mut View, base: &Base) -> Result<(), AllocError>
    ensures { OnOk result (view.new ≡ with_rows view_cmp view.old (flat_map (rollup_rows base.now) base.now.mirror)) }
{
    'marks: for (key, mark) in base.mirror.iter() {
        let rollup = rollup_by(alloc, &base.portfolio, key, mark)?;
        put_rollup(view, &key.id, rollup)?;
    }
    Ok(())
}

/// All that is shown, computed from nothing.
#[tactic(auto, unfolding(crate::specs::Views::view))]
pub fn view_of(alloc: Global, base: &Base) -> Result<View, AllocError>
    ensures { IfOk result (λ all. all ≡ view base.now) }
{
    let mut all = Table::new(alloc);
    put_marks(alloc, &mut all, base)?;
    put_reports(&mut all, &base.portfolio.reports)?;
    put_rollups(alloc, &mut all, base)?;
    Ok(all)
}
