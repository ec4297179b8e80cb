//! Shown events, written token behind token.
ghost use Rattle.std.specs.Prelude.{◌≡◌, ◌≤◌, length, All, OnOk, IfSome, IsTrue};
ghost use Rattle.json.specs.Token.{key};
ghost use Rattle.adr_text.specs.Fields.{is_i64};
ghost use Rattle.adr_text.specs.Ids.{is_id};
ghost use Rattle.adr_text.specs.Names.{is_name};
ghost use Rattle.adr_objects.specs.Bodies.{IsPeriod};
ghost use Rattle.adr_objects.specs.Limits.{most_priority};
ghost use Rattle.adr_shown.specs.Types.{IsShownInterval, IsShown};
ghost use Rattle.adr_shown.specs.Tokens.{Has, text_behind, maybe_text_behind, times_behind, period_behind, maybe_period_behind, values_behind, ended_behind, part_behind, target_behind, targets_behind, interval_behind, intervals_behind, priority_behind, head_behind, list_behind, tail_behind, shown_behind};

use adr_objects::{Period, Priority, ShownEvent, ShownInterval, Text};
use adr_text::Name;
use json::Writer;
use std::alloc::AllocError;

// A member that is a text.
fn put_text(out: &mut Writer, name: &str, text: &str) -> Result<(), AllocError>
    ensures { OnOk result (Has out.old out.new (text_behind name.now text.now out.old.tokens)) }
{
    out.key(name)?;
    out.string(text)
}

// The same, where there is one.
fn put_maybe_text<const MOST: usize>(
    out: &mut Writer,
    name: &str,
    text: &Option<Text<MOST>>,
) -> Result<(), AllocError>
    ensures has { OnOk result (Has out.old out.new (maybe_text_behind name.now text.now out.old.tokens)) }
    ensures kept { OnOk result (IfSome text.now (λ text. length text ≤ MOST)) }
{
    match text {
        Some(text) => put_text(out, name, text.as_str()),
        None => Ok(()),
    }
}

// The members of a period.
fn put_times(out: &mut Writer, period: &Period) -> Result<(), AllocError>
    ensures has { OnOk result (Has out.old out.new (times_behind period.now out.old.tokens)) }
    ensures kept { OnOk result (IsPeriod period.now) }
{
    put_maybe_text(out, "duration", &period.duration)?;
    put_maybe_text(out, "randomizeStart", &period.randomize_start)?;
    put_text(out, "start", period.start.as_str())?;
    Ok(())
}

// A period (OpenADR 3.0, intervalPeriod).
fn put_period(out: &mut Writer, period: &Period) -> Result<(), AllocError>
    ensures has { OnOk result (Has out.old out.new (period_behind period.now out.old.tokens)) }
    ensures kept { OnOk result (IsPeriod period.now) }
{
    out.begin_object()?;
    put_times(out, period)?;
    out.end_object()
}

// The member of that name, where there is one.
fn put_maybe_period(out: &mut Writer, period: &Option<Period>) -> Result<(), AllocError>
    ensures has { OnOk result (Has out.old out.new (maybe_period_behind period.now out.old.tokens)) }
    ensures kept { OnOk result (IfSome period.now IsPeriod) }
{
    let Some(period) = period else {
        return Ok(());
    };
    out.key("intervalPeriod")?;
    put_period(out, period)
}

// The start of a payload or of a target, up to its values.
fn open_values(out: &mut Writer, kind: &str) -> Result<(), AllocError>
    ensures { OnOk result (Has out.old out.new (values_behind kind.now out.old.tokens)) }
{
    out.begin_object()?;
    put_text(out, "type", kind)?;
    out.key("values")?;
    out.begin_array()
}

// Its end, behind them.
fn end_values(out: &mut Writer) -> Result<(), AllocError>
    ensures { OnOk result (Has out.old out.new (ended_behind out.old.tokens)) }
{
    out.end_array()?;
    out.end_object()
}

// The payload with the resource's part, where it has one.
fn put_part(out: &mut Writer, part: &Option<i64>) -> Result<(), AllocError>
    ensures has { OnOk result (Has out.old out.new (part_behind part.now out.old.tokens)) }
    ensures kept { OnOk result (IfSome part.now (λ amount. IsTrue (is_i64 amount))) }
{
    let Some(part) = part else {
        return Ok(());
    };
    open_values(out, "DISPATCH_SETPOINT")?;
    out.i64(*part)?;
    end_values(out)
}

// A target with a name.
fn put_target(out: &mut Writer, kind: &str, name: &Name) -> Result<(), AllocError>
    ensures has { OnOk result (Has out.old out.new (target_behind kind.now name.now out.old.tokens)) }
    ensures kept { OnOk result (IsTrue (is_name name.now)) }
{
    open_values(out, kind)?;
    out.string(name.as_str())?;
    end_values(out)
}

// An interval with the resource's part.
fn put_interval(out: &mut Writer, interval: &ShownInterval) -> Result<(), AllocError>
    ensures has { OnOk result (Has out.old out.new (interval_behind out.old.tokens interval.now)) }
    ensures kept { OnOk result (IsShownInterval interval.now) }
{
    out.begin_object()?;
    out.key("id")?;
    out.i64(i64::from(interval.id))?;
    put_maybe_period(out, &interval.period)?;
    out.key("payloads")?;
    out.begin_array()?;
    put_part(out, &interval.part)?;
    end_values(out)
}

// The intervals, one behind the other.
fn put_all(out: &mut Writer, intervals: &[ShownInterval]) -> Result<(), AllocError>
    ensures has { OnOk result (Has out.old out.new (intervals_behind intervals.now out.old.tokens)) }
    ensures kept { OnOk result (All IsShownInterval intervals.now) }
{
    for interval in intervals {
        put_interval(out, interval)?;
    }
    Ok(())
}

// The member `intervals`.
fn put_intervals(out: &mut Writer, event: &ShownEvent) -> Result<(), AllocError>
    ensures has { OnOk result (Has out.old out.new (list_behind event.now out.old.tokens)) }
    ensures kept { OnOk result (All IsShownInterval event.now.intervals) }
{
    out.key("intervals")?;
    out.begin_array()?;
    put_all(out, event.intervals.as_slice())?;
    out.end_array()?;
    Ok(())
}

// The members before it.
fn put_head(out: &mut Writer, event: &ShownEvent) -> Result<(), AllocError>
    ensures has { OnOk result (Has out.old out.new (head_behind event.now out.old.tokens)) }
    ensures name { OnOk result (IfSome event.now.name (λ text. length text ≤ 256)) }
    ensures period { OnOk result (IfSome event.now.period IsPeriod) }
{
    out.begin_object()?;
    put_maybe_text(out, "eventName", &event.name)?;
    put_maybe_period(out, &event.period)
}

// The member `priority`, where there is one.
fn put_priority(out: &mut Writer, priority: &Option<Priority>) -> Result<(), AllocError>
    ensures has { OnOk result (Has out.old out.new (priority_behind priority.now out.old.tokens)) }
    ensures kept { OnOk result (IfSome priority.now (λ rank. rank ≤ most_priority)) }
{
    let Some(priority) = priority else {
        return Ok(());
    };
    out.key("priority")?;
    out.u64(u64::from(priority.get()))
}

// The targets: the ven's name, then the resource's.
fn put_targets(out: &mut Writer, ven: &Name, resource: &Name) -> Result<(), AllocError>
    ensures has { OnOk result (Has out.old out.new (targets_behind ven.now resource.now out.old.tokens)) }
    ensures ven { OnOk result (IsTrue (is_name ven.now)) }
    ensures resource { OnOk result (IsTrue (is_name resource.now)) }
{
    out.key("targets")?;
    out.begin_array()?;
    put_target(out, "VEN_NAME", ven)?;
    put_target(out, "RESOURCE_NAME", resource)?;
    end_values(out)
}

// The members from `objectType` on, and the end of the event.
fn put_tail(out: &mut Writer, event: &ShownEvent) -> Result<(), AllocError>
    ensures has { OnOk result (Has out.old out.new (tail_behind event.now out.old.tokens)) }
    ensures program { OnOk result (IsTrue (is_id event.now.program)) }
    ensures priority { OnOk result (IfSome event.now.priority (λ rank. rank ≤ most_priority)) }
    ensures ven { OnOk result (IsTrue (is_name event.now.ven_name)) }
    ensures resource { OnOk result (IsTrue (is_name event.now.resource_name)) }
{
    put_text(out, "objectType", "EVENT")?;
    put_priority(out, &event.priority)?;
    put_text(out, "programID", event.program.as_str())?;
    put_targets(out, &event.ven_name, &event.resource_name)?;
    Ok(())
}

/// What is kept of a shown event, written behind what a writer has.
pub(crate) fn put_shown(out: &mut Writer, event: &ShownEvent) -> Result<(), AllocError>
    ensures has { OnOk result (Has out.old out.new (shown_behind event.now out.old.tokens)) }
    ensures kept { OnOk result (IsShown event.now) }
{
    put_head(out, event)?;
    put_intervals(out, event)?;
    put_tail(out, event)
}
