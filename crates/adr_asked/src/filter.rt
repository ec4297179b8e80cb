//! The filters of a listing: of events programID, targetType and targetValues, of reports and of
//! subscriptions programID and clientName (OpenADR 3.0).
ghost use Rattle.std.specs.Prelude.{◌≡◌, map, IfOk};
ghost use Rattle.std.specs.Cow.{cow_str_bytes};
ghost use Rattle.std.specs.Option.{option_copied};
ghost use Rattle.adr_text.specs.Refusals.{Gives};
ghost use Rattle.adr_asked.specs.Filters.{programs_of, program_filter, name_in, names_in, target_of, target_asked, target_filter, filter_asked, clients_of, client_filter, report_filter_asked};

use crate::query::{only_one, values_of};
use adr_machine::{EventFilter, ReportFilter, TargetFilter};
use adr_state::{id_in, push_some};
use adr_text::{Name, ObjectId, Refusal, Rows};
use std::alloc::{AllocError, Global};
use std::borrow::CowStr;

/// The program that is asked for, where one is: none of all where it is no id.
fn programs_of(alloc: Global, id: Option<&str>) -> Result<Option<Rows<ObjectId>>, AllocError>
    ensures { IfOk result (λ programs. programs ≡ programs_of (option_copied id.entry)) }
{
    let Some(id) = id else {
        return Ok(None);
    };
    let mut ids = Vec::new(alloc);
    push_some(&mut ids, id_in(alloc, id)?)?;
    Ok(Some(Rows::from_vec(ids)))
}

#[tactic(auto, unfolding(crate::specs::Filters::program_filter))]
fn program_filter(alloc: Global, query: &[u8]) -> Result<Option<Rows<ObjectId>>, Refusal>
    ensures { Gives (λ programs. programs) result (program_filter query.now) }
{
    let values = values_of(alloc, "programID", query)?;
    let id = only_one(&values)?;
    Ok(programs_of(alloc, id)?)
}

fn name_in(alloc: Global, text: &str) -> Result<Option<Name>, AllocError>
    ensures { IfOk result (λ name. name ≡ name_in text.now) }
{
    match Name::new(alloc, text) {
        Ok(name) => Ok(Some(name)),
        Err(Refusal::OutOfMemory) => Err(AllocError),
        Err(_) => Ok(None),
    }
}

/// The names among the values.
fn names_in(alloc: Global, values: &[CowStr<'_>]) -> Result<Rows<Name>, AllocError>
    ensures { IfOk result (λ names. names ≡ names_in (map cow_str_bytes values.now)) }
{
    let mut names = Vec::new(alloc);
    for value in values {
        push_some(&mut names, name_in(alloc, value.as_str())?)?;
    }
    Ok(Rows::from_vec(names))
}

/// The target of a type.
fn target_of(alloc: Global, kind: &str, values: &[CowStr<'_>]) -> Result<TargetFilter, AllocError>
    ensures { IfOk result (λ target. target ≡ target_of kind.now (map cow_str_bytes values.now)) }
{
    if kind == "VEN_NAME" {
        Ok(TargetFilter::VenName(names_in(alloc, values)?))
    } else if kind == "RESOURCE_NAME" {
        Ok(TargetFilter::ResourceName(names_in(alloc, values)?))
    } else {
        Ok(TargetFilter::Other)
    }
}

/// A type and its values, or neither.
#[tactic(auto, unfolding(crate::specs::Filters::target_asked))]
fn target_asked(
    alloc: Global,
    kind: Option<&str>,
    values: &[CowStr<'_>],
) -> Result<TargetFilter, Refusal>
    ensures { Gives (λ target. target) result (target_asked (option_copied kind.entry) (map cow_str_bytes values.now)) }
{
    match kind {
        None => match values {
            [] => Ok(TargetFilter::Any),
            _ => Err(Refusal::BadShape),
        },
        Some(kind) => match values {
            [] => Err(Refusal::BadShape),
            _ => Ok(target_of(alloc, kind, values)?),
        },
    }
}

#[tactic(auto, unfolding(crate::specs::Filters::target_filter))]
fn target_filter(alloc: Global, query: &[u8]) -> Result<TargetFilter, Refusal>
    ensures { Gives (λ target. target) result (target_filter query.now) }
{
    let kinds = values_of(alloc, "targetType", query)?;
    let kind = only_one(&kinds)?;
    let values = values_of(alloc, "targetValues", query)?;
    target_asked(alloc, kind, &values)
}

/// Which events a query asks for; `BadShape` where it asks in another form.
#[tactic(auto, unfolding(crate::specs::Filters::filter_asked))]
pub(crate) fn filter_asked(alloc: Global, query: &[u8]) -> Result<EventFilter, Refusal>
    ensures { Gives (λ filter. filter) result (filter_asked query.now) }
{
    let programs = program_filter(alloc, query)?;
    let target = target_filter(alloc, query)?;
    Ok(EventFilter { programs, target })
}

/// The client that is asked for, where one is: none of all where it is no name.
fn clients_of(alloc: Global, name: Option<&str>) -> Result<Option<Rows<Name>>, AllocError>
    ensures { IfOk result (λ clients. clients ≡ clients_of (option_copied name.entry)) }
{
    let Some(name) = name else {
        return Ok(None);
    };
    let mut names = Vec::new(alloc);
    push_some(&mut names, name_in(alloc, name)?)?;
    Ok(Some(Rows::from_vec(names)))
}

#[tactic(auto, unfolding(crate::specs::Filters::client_filter))]
fn client_filter(alloc: Global, query: &[u8]) -> Result<Option<Rows<Name>>, Refusal>
    ensures { Gives (λ clients. clients) result (client_filter query.now) }
{
    let values = values_of(alloc, "clientName", query)?;
    let name = only_one(&values)?;
    Ok(clients_of(alloc, name)?)
}

/// Which reports, or which subscriptions, a query asks for; `BadShape` where it asks in another form.
#[tactic(auto, unfolding(crate::specs::Filters::report_filter_asked))]
pub(crate) fn report_filter_asked(alloc: Global, query: &[u8]) -> Result<ReportFilter, Refusal>
    ensures { Gives (λ filter. filter) result (report_filter_asked query.now) }
{
    let programs = program_filter(alloc, query)?;
    let clients = client_filter(alloc, query)?;
    Ok(ReportFilter { programs, clients })
}
