//! Which events, which reports and which subscriptions are wanted.
ghost use Rattle.std.specs.Prelude.{◌≡◌, IfOk};
ghost use Rattle.adr_queries.specs.Filters.{is_among, is_among_all, has_target, wants, is_wanted, wanted_of, is_wanted_report, wanted_reports, is_about, is_wanted_sub, wanted_subs};

use crate::answer::Object;
use adr_text::{Name, ObjectId, Rows};
use std::alloc::{AllocError, Global};

/// Whose events are wanted (OpenADR 3.0, targetType and targetValues).
#[derive(Clone)]
pub enum TargetFilter {
    Any,
    /// Those of a ven of one of these names.
    VenName(Rows<Name>),
    /// Those of a resource of one of these names.
    ResourceName(Rows<Name>),
    /// Those with a target of another type, which no event has.
    Other,
}

impl Drop for TargetFilter {
    fn drop(self) {
        match self {
            TargetFilter::Any => (),
            TargetFilter::VenName(_) => (),
            TargetFilter::ResourceName(_) => (),
            TargetFilter::Other => (),
        }
    }
}

/// Which events are wanted.
#[derive(Clone)]
pub struct EventFilter {
    /// Those of one of these programs, or of any (OpenADR 3.0, programID).
    pub programs: Option<Rows<ObjectId>>,
    pub target: TargetFilter,
}

impl Drop for EventFilter {
    fn drop(self) {
        let EventFilter {
            programs: _,
            target: _,
        } = self;
    }
}

/// Which reports, or which subscriptions, are wanted.
#[derive(Clone)]
pub struct ReportFilter {
    /// Those of one of these programs, or of any (OpenADR 3.0, programID).
    pub programs: Option<Rows<ObjectId>>,
    /// Those of one of these clients, or of any (OpenADR 3.0, clientName).
    pub clients: Option<Rows<Name>>,
}

impl Drop for ReportFilter {
    fn drop(self) {
        let ReportFilter {
            programs: _,
            clients: _,
        } = self;
    }
}

fn is_named(names: &Rows<Name>, name: &Name) -> bool
    ensures { result ≡ is_among names.now name.now }
{
    names.as_slice().iter().any(|n| *n == *name)
}

fn has_id(ids: &Rows<ObjectId>, id: &ObjectId) -> bool
    ensures { result ≡ is_among ids.now id.now }
{
    ids.as_slice().iter().any(|i| *i == *id)
}

/// Whether it is one of the programs, where there are any.
pub fn is_of(programs: &Option<Rows<ObjectId>>, program: &ObjectId) -> bool
    ensures { result ≡ is_among_all programs.now program.now }
{
    match programs {
        Some(programs) => has_id(programs, program),
        None => true,
    }
}

fn has_target(target: &TargetFilter, ven_name: &Name, resource_name: &Name) -> bool
    ensures { result ≡ has_target target.now ven_name.now resource_name.now }
{
    match target {
        TargetFilter::Any => true,
        TargetFilter::VenName(names) => is_named(names, ven_name),
        TargetFilter::ResourceName(names) => is_named(names, resource_name),
        TargetFilter::Other => false,
    }
}

/// Whether an event of this program, and of a ven and of a resource of these names, is wanted.
pub fn wants(
    filter: &EventFilter,
    program: &ObjectId,
    ven_name: &Name,
    resource_name: &Name,
) -> bool
    ensures { result ≡ wants filter.now program.now ven_name.now resource_name.now }
{
    is_of(&filter.programs, program) && has_target(&filter.target, ven_name, resource_name)
}

/// Whether the object is an event that is wanted.
fn is_wanted(filter: &EventFilter, object: &Object) -> bool
    ensures { result ≡ is_wanted filter.now object.now }
{
    let Object::Event(event) = object else {
        return false;
    };
    wants(
        filter,
        &event.program,
        &event.ven_name,
        &event.resource_name,
    )
}

/// The events among the objects that are wanted, in their order.
pub fn wanted_of(
    alloc: Global,
    filter: &EventFilter,
    objects: Vec<Object>,
) -> Result<Vec<Object>, AllocError>
    ensures { IfOk result (λ wanted. wanted.items ≡ wanted_of filter.now objects.items) }
{
    objects
        .into_iter()
        .filter(|object| is_wanted(filter, object))
        .collect(alloc)
}

/// Whether it is one of the clients, where there are any.
pub fn is_from(clients: &Option<Rows<Name>>, client: &Name) -> bool
    ensures { result ≡ is_among_all clients.now client.now }
{
    match clients {
        Some(clients) => is_named(clients, client),
        None => true,
    }
}

/// Whether the object is a report that is wanted.
fn is_wanted_report(filter: &ReportFilter, object: &Object) -> bool
    ensures { result ≡ is_wanted_report filter.now object.now }
{
    let Object::Report(report) = object else {
        return false;
    };
    let head = &report.body.head;
    is_of(&filter.programs, &head.program) && is_from(&filter.clients, &head.client)
}

/// The reports among the objects that are wanted, in their order.
pub fn wanted_reports(
    alloc: Global,
    filter: &ReportFilter,
    objects: Vec<Object>,
) -> Result<Vec<Object>, AllocError>
    ensures { IfOk result (λ wanted. wanted.items ≡ wanted_reports filter.now objects.items) }
{
    objects
        .into_iter()
        .filter(|object| is_wanted_report(filter, object))
        .collect(alloc)
}

/// Whether it names one of the programs, where there are any. What is about all programs names none.
pub fn is_about(programs: &Option<Rows<ObjectId>>, program: &Option<ObjectId>) -> bool
    ensures { result ≡ is_about programs.now program.now }
{
    match (programs, program) {
        (None, _) => true,
        (Some(programs), Some(program)) => has_id(programs, program),
        (Some(_), None) => false,
    }
}

/// Whether the object is a subscription that is wanted.
fn is_wanted_sub(filter: &ReportFilter, object: &Object) -> bool
    ensures { result ≡ is_wanted_sub filter.now object.now }
{
    let Object::Sub(object) = object else {
        return false;
    };
    is_about(&filter.programs, &object.sub.program)
        && is_from(&filter.clients, &object.sub.client_name)
}

/// The subscriptions among the objects that are wanted, in their order.
pub fn wanted_subs(
    alloc: Global,
    filter: &ReportFilter,
    objects: Vec<Object>,
) -> Result<Vec<Object>, AllocError>
    ensures { IfOk result (λ wanted. wanted.items ≡ wanted_subs filter.now objects.items) }
{
    objects
        .into_iter()
        .filter(|object| is_wanted_sub(filter, object))
        .collect(alloc)
}
