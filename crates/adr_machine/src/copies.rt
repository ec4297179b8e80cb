//! Commands again.
ghost use Rattle.std.specs.Prelude.{◌≡◌, IfOk};
ghost use Rattle.adr_machine.specs.declared.command.Command.TheVariants.{Evidence, Gone, VenAdd, VenPut, VenRemove, ResourceAdd, ResourcePut, ResourceRemove, ShareSet, Freeze, ReportPost, ReportPut, ReportDelete, SubPost, SubPut, SubDelete, Sent};

use crate::command::Command;
use adr_objects::{Found, Kind, Number, ReportIn, ResourceIn, ShareIn, VenIn};
use adr_queries::Role;
use adr_subscription::SubIn;
use adr_text::{ObjectId, Rows};
use std::alloc::AllocError;

fn same_found(found: &Rows<Found>) -> Result<Rows<Found>, AllocError>
    ensures { IfOk result (λ copy. copy ≡ found.now) }
{
    found.clone()
}

fn same_role(role: &Role) -> Result<Role, AllocError>
    ensures { IfOk result (λ copy. copy ≡ role.now) }
{
    role.clone()
}

fn same_ven(ven: &VenIn) -> Result<VenIn, AllocError>
    ensures { IfOk result (λ copy. copy ≡ ven.now) }
{
    ven.clone()
}

fn same_resource(resource: &ResourceIn) -> Result<ResourceIn, AllocError>
    ensures { IfOk result (λ copy. copy ≡ resource.now) }
{
    resource.clone()
}

fn same_report(report: &ReportIn) -> Result<ReportIn, AllocError>
    ensures { IfOk result (λ copy. copy ≡ report.now) }
{
    report.clone()
}

fn same_remote(remote: &Option<ObjectId>) -> Result<Option<ObjectId>, AllocError>
    ensures { IfOk result (λ copy. copy ≡ remote.now) }
{
    remote.clone()
}

pub(crate) fn evidence(found: &Rows<Found>, polled: bool) -> Result<Command, AllocError>
    ensures { IfOk result (λ c. c ≡ Evidence found.now polled) }
{
    let found = same_found(found)?;
    Ok(Command::Evidence { found, polled })
}

pub(crate) fn gone(kind: Kind, id: &ObjectId) -> Result<Command, AllocError>
    ensures { IfOk result (λ c. c ≡ Gone kind id.now) }
{
    let id = id.clone()?;
    Ok(Command::Gone { kind, id })
}

pub(crate) fn ven_add(role: &Role, ven: &VenIn) -> Result<Command, AllocError>
    ensures { IfOk result (λ c. c ≡ VenAdd role.now ven.now) }
{
    let role = same_role(role)?;
    let ven = same_ven(ven)?;
    Ok(Command::VenAdd { role, ven })
}

pub(crate) fn ven_put(role: &Role, id: &ObjectId, ven: &VenIn) -> Result<Command, AllocError>
    ensures { IfOk result (λ c. c ≡ VenPut role.now id.now ven.now) }
{
    let role = same_role(role)?;
    let id = id.clone()?;
    let ven = same_ven(ven)?;
    Ok(Command::VenPut { role, id, ven })
}

pub(crate) fn ven_remove(role: &Role, id: &ObjectId) -> Result<Command, AllocError>
    ensures { IfOk result (λ c. c ≡ VenRemove role.now id.now) }
{
    let role = same_role(role)?;
    let id = id.clone()?;
    Ok(Command::VenRemove { role, id })
}

pub(crate) fn resource_add(
    role: &Role,
    ven: &ObjectId,
    resource: &ResourceIn,
) -> Result<Command, AllocError>
    ensures { IfOk result (λ c. c ≡ ResourceAdd role.now ven.now resource.now) }
{
    let role = same_role(role)?;
    let ven = ven.clone()?;
    let resource = same_resource(resource)?;
    Ok(Command::ResourceAdd {
        role,
        ven,
        resource,
    })
}

pub(crate) fn resource_put(
    role: &Role,
    ven: &ObjectId,
    id: &ObjectId,
    resource: &ResourceIn,
) -> Result<Command, AllocError>
    ensures { IfOk result (λ c. c ≡ ResourcePut role.now ven.now id.now resource.now) }
{
    let role = same_role(role)?;
    let ven = ven.clone()?;
    let id = id.clone()?;
    let resource = same_resource(resource)?;
    Ok(Command::ResourcePut {
        role,
        ven,
        id,
        resource,
    })
}

pub(crate) fn resource_remove(
    role: &Role,
    ven: &ObjectId,
    id: &ObjectId,
) -> Result<Command, AllocError>
    ensures { IfOk result (λ c. c ≡ ResourceRemove role.now ven.now id.now) }
{
    let role = same_role(role)?;
    let ven = ven.clone()?;
    let id = id.clone()?;
    Ok(Command::ResourceRemove { role, ven, id })
}

pub(crate) fn share_set(
    role: &Role,
    program: &ObjectId,
    resource: &ObjectId,
    share: ShareIn,
) -> Result<Command, AllocError>
    ensures { IfOk result (λ c. c ≡ ShareSet role.now program.now resource.now share) }
{
    let role = same_role(role)?;
    let program = program.clone()?;
    let resource = resource.clone()?;
    Ok(Command::ShareSet {
        role,
        program,
        resource,
        share,
    })
}

pub(crate) fn freeze(role: &Role, event: &ObjectId) -> Result<Command, AllocError>
    ensures { IfOk result (λ c. c ≡ Freeze role.now event.now) }
{
    let role = same_role(role)?;
    let event = event.clone()?;
    Ok(Command::Freeze { role, event })
}

pub(crate) fn report_post(role: &Role, report: &ReportIn) -> Result<Command, AllocError>
    ensures { IfOk result (λ c. c ≡ ReportPost role.now report.now) }
{
    let role = same_role(role)?;
    let report = same_report(report)?;
    Ok(Command::ReportPost { role, report })
}

pub(crate) fn report_put(
    role: &Role,
    id: &ObjectId,
    report: &ReportIn,
) -> Result<Command, AllocError>
    ensures { IfOk result (λ c. c ≡ ReportPut role.now id.now report.now) }
{
    let role = same_role(role)?;
    let id = id.clone()?;
    let report = same_report(report)?;
    Ok(Command::ReportPut { role, id, report })
}

pub(crate) fn report_delete(role: &Role, id: &ObjectId) -> Result<Command, AllocError>
    ensures { IfOk result (λ c. c ≡ ReportDelete role.now id.now) }
{
    let role = same_role(role)?;
    let id = id.clone()?;
    Ok(Command::ReportDelete { role, id })
}

pub(crate) fn sub_post(role: &Role, sub: &SubIn) -> Result<Command, AllocError>
    ensures { IfOk result (λ c. c ≡ SubPost role.now sub.now) }
{
    let role = same_role(role)?;
    let sub = sub.clone()?;
    Ok(Command::SubPost { role, sub })
}

pub(crate) fn sub_put(role: &Role, id: &ObjectId, sub: &SubIn) -> Result<Command, AllocError>
    ensures { IfOk result (λ c. c ≡ SubPut role.now id.now sub.now) }
{
    let role = same_role(role)?;
    let id = id.clone()?;
    let sub = sub.clone()?;
    Ok(Command::SubPut { role, id, sub })
}

pub(crate) fn sub_delete(role: &Role, id: &ObjectId) -> Result<Command, AllocError>
    ensures { IfOk result (λ c. c ≡ SubDelete role.now id.now) }
{
    let role = same_role(role)?;
    let id = id.clone()?;
    Ok(Command::SubDelete { role, id })
}

pub(crate) fn sent(
    entry: Number,
    lease: u64,
    remote: &Option<ObjectId>,
) -> Result<Command, AllocError>
    ensures { IfOk result (λ c. c ≡ Sent entry lease remote.now) }
{
    let remote = same_remote(remote)?;
    Ok(Command::Sent {
        entry,
        lease,
        remote,
    })
}
