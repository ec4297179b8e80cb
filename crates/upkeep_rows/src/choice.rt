//! Which edit comes next.
use crate::dice::Dice;
use crate::edit::Edit;
use crate::held::Held;
use crate::pages::{RESOURCES, going, page, program_shared};
use crate::scene::Scene;
use adr_objects::{
    Number, ReportIn, ReportName, ResourceName, Setpoint, ShownEvent, Usage, UsageInterval,
    UsageIntervals,
};
use adr_state::ViewKey;
use adr_text::{Name, ObjectId, Refusal};
use adr_view::Content;
use std::alloc::Global;

const VENS: [&str; 5] = ["east", "north", "south", "west", "north-east"];

/// Who posts reports.
const CLIENT: &str = "meter";

// A ven, where there is one.
fn some_ven(dice: &mut Dice, held: &Held) -> Option<Number> {
    let place = dice.place(held.base.portfolio.vens.len());
    match held.base.portfolio.vens.iter().nth(place) {
        Some((number, _)) => Some(*number),
        None => None,
    }
}

// A resource with its ven, where there is one.
fn some_resource(dice: &mut Dice, held: &Held) -> Option<(Number, Number)> {
    let place = dice.place(held.base.portfolio.resources.len());
    match held.base.portfolio.resources.iter().nth(place) {
        Some((number, resource)) => Some((resource.ven, *number)),
        None => None,
    }
}

// A report, where there is one.
fn some_report(dice: &mut Dice, held: &Held) -> Option<Number> {
    let place = dice.place(held.base.portfolio.reports.len());
    match held.base.portfolio.reports.iter().nth(place) {
        Some((number, _)) => Some(*number),
        None => None,
    }
}

// What a resource is shown of an event, where it is that.
fn shown_in<'h>(
    key: &'h ViewKey,
    content: &'h Content,
) -> Option<(&'h ObjectId, Number, &'h ShownEvent)> {
    match (key, content) {
        (ViewKey::Event(event, resource), Content::Event(shown)) => Some((event, *resource, shown)),
        _ => None,
    }
}

// Something that a resource is shown, where there is such.
fn some_shown<'h>(
    dice: &mut Dice,
    held: &'h Held,
) -> Option<(&'h ObjectId, Number, &'h ShownEvent)> {
    let count = held
        .view
        .iter()
        .filter(|(key, _)| matches!(key, ViewKey::Event(_, _)))
        .count();
    let place = dice.place(count);
    held.view
        .iter()
        .filter_map(|(key, content)| shown_in(key, content))
        .nth(place)
}

fn ven_name(alloc: Global, dice: &mut Dice) -> Result<Name, Refusal> {
    Name::new(alloc, dice.word(&VENS))
}

fn resource_name(alloc: Global, dice: &mut Dice) -> Result<ResourceName, Refusal> {
    Ok(ResourceName::new(alloc, dice.word(&RESOURCES))?)
}

fn usage(dice: &mut Dice) -> Result<Option<Usage>, Refusal> {
    if dice.is_once_in(4) {
        return Ok(None);
    }
    Ok(Some(Setpoint::new(dice.amount())?))
}

// These intervals, unless they are too many, or two of them have one id.
fn apart(usages: Vec<UsageInterval>) -> Result<UsageIntervals, Refusal> {
    if usages.len() > 1_000 {
        return Err(Refusal::BadShape);
    }
    Ok(UsageIntervals::apart(usages)?)
}

fn usages(alloc: Global, dice: &mut Dice) -> Result<UsageIntervals, Refusal> {
    let mut usages = Vec::new(alloc);
    for id in [2, 0, 1] {
        if !dice.is_once_in(3) {
            usages.push(UsageInterval {
                id,
                usage: usage(dice)?,
            })?;
        }
    }
    apart(usages)
}

fn report_name(alloc: Global, dice: &mut Dice) -> Result<Option<ReportName>, Refusal> {
    if dice.is_once_in(2) {
        return Ok(None);
    }
    Ok(Some(ReportName::new(alloc, "")?))
}

fn shown_id(alloc: Global, event: &ObjectId, resource: Number) -> Result<ObjectId, Refusal> {
    let text = format!(in alloc; "r{}-{}", resource.get(), event.as_str())?;
    ObjectId::new(alloc, text.as_str())
}

// A report on what a resource is shown.
fn report_on(
    alloc: Global,
    dice: &mut Dice,
    event: &ObjectId,
    resource: Number,
    shown: &ShownEvent,
) -> Result<ReportIn, Refusal> {
    Ok(ReportIn {
        program: shown.program.copy(alloc)?,
        event: shown_id(alloc, event, resource)?,
        client: Name::new(alloc, CLIENT)?,
        name: report_name(alloc, dice)?,
        resource_name: shown.resource_name.copy(alloc)?,
        intervals: usages(alloc, dice)?,
    })
}

// A report, where something is shown.
fn report(alloc: Global, dice: &mut Dice, held: &Held) -> Result<Option<ReportIn>, Refusal> {
    match some_shown(dice, held) {
        Some((event, resource, shown)) => {
            Ok(Some(report_on(alloc, dice, event, resource, shown)?))
        }
        None => Ok(None),
    }
}

fn put_ven(alloc: Global, dice: &mut Dice, held: &Held) -> Result<Option<Edit>, Refusal> {
    let Some(ven) = some_ven(dice, held) else {
        return Ok(None);
    };
    Ok(Some(Edit::PutVen(ven, ven_name(alloc, dice)?)))
}

fn remove_ven(dice: &mut Dice, held: &Held) -> Option<Edit> {
    Some(Edit::RemoveVen(some_ven(dice, held)?))
}

fn add_resource(alloc: Global, dice: &mut Dice, held: &Held) -> Result<Option<Edit>, Refusal> {
    let Some(ven) = some_ven(dice, held) else {
        return Ok(None);
    };
    Ok(Some(Edit::AddResource(ven, resource_name(alloc, dice)?)))
}

fn put_resource(alloc: Global, dice: &mut Dice, held: &Held) -> Result<Option<Edit>, Refusal> {
    let Some((ven, resource)) = some_resource(dice, held) else {
        return Ok(None);
    };
    let name = resource_name(alloc, dice)?;
    Ok(Some(Edit::PutResource(ven, resource, name)))
}

fn remove_resource(dice: &mut Dice, held: &Held) -> Option<Edit> {
    let (ven, resource) = some_resource(dice, held)?;
    Some(Edit::RemoveResource(ven, resource))
}

// A weight, or none.
fn weight(dice: &mut Dice) -> u32 {
    if dice.is_once_in(6) {
        return 0;
    }
    u32::try_from(dice.below(4)).unwrap_or(0).wrapping_add(1)
}

fn set_share(alloc: Global, dice: &mut Dice, held: &Held) -> Result<Option<Edit>, Refusal> {
    let Some((_, resource)) = some_resource(dice, held) else {
        return Ok(None);
    };
    let program = program_shared(alloc, dice)?;
    Ok(Some(Edit::SetShare(program, resource, weight(dice))))
}

fn post_report(alloc: Global, dice: &mut Dice, held: &Held) -> Result<Option<Edit>, Refusal> {
    match report(alloc, dice, held)? {
        Some(report) => Ok(Some(Edit::PostReport(report))),
        None => Ok(None),
    }
}

fn put_report(alloc: Global, dice: &mut Dice, held: &Held) -> Result<Option<Edit>, Refusal> {
    let Some(number) = some_report(dice, held) else {
        return Ok(None);
    };
    match report(alloc, dice, held)? {
        Some(report) => Ok(Some(Edit::PutReport(number, report))),
        None => Ok(None),
    }
}

fn delete_report(dice: &mut Dice, held: &Held) -> Option<Edit> {
    Some(Edit::DeleteReport(some_report(dice, held)?))
}

fn gone(alloc: Global, dice: &mut Dice, scene: &Scene<'_>) -> Result<Edit, Refusal> {
    let (kind, id) = going(alloc, dice, scene)?;
    Ok(Edit::Gone(kind, id))
}

/// An edit of what is there, or none where there is nothing to edit.
pub fn choose(alloc: Global, dice: &mut Dice, scene: &Scene<'_>) -> Result<Option<Edit>, Refusal> {
    let held = scene.before;
    match dice.below(60) {
        0..=13 => Ok(Some(Edit::Page(page(alloc, dice, scene)?))),
        14..=15 => Ok(Some(gone(alloc, dice, scene)?)),
        16..=19 => Ok(Some(Edit::AddVen(ven_name(alloc, dice)?))),
        20..=22 => put_ven(alloc, dice, held),
        23 => Ok(remove_ven(dice, held)),
        24..=30 => add_resource(alloc, dice, held),
        31..=35 => put_resource(alloc, dice, held),
        36 => Ok(remove_resource(dice, held)),
        37..=46 => set_share(alloc, dice, held),
        47..=53 => post_report(alloc, dice, held),
        54..=57 => put_report(alloc, dice, held),
        _ => Ok(delete_report(dice, held)),
    }
}
