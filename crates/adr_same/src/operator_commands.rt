//! Commands on vens, resources and shares.
ghost use Rattle.std.specs.Prelude.{◌≡◌, ◌↔◌, IsTrue};
ghost use Rattle.adr_machine.specs.declared.command.Command.TheVariants.{VenAdd, VenPut, VenRemove, ResourceAdd, ResourcePut, ResourceRemove, ShareSet, Freeze};

use crate::sameness::Same;
use adr_machine::Command;
use adr_objects::{ResourceIn, ShareIn, VenIn};
use adr_queries::Role;
use adr_text::ObjectId;

/// Whether the command enrols this ven, by that role.
pub(crate) fn is_ven_add(command: &Command, role: &Role, ven: &VenIn) -> bool
    ensures { IsTrue result ↔ (command.now ≡ VenAdd role.now ven.now) }
{
    match command {
        Command::VenAdd {
            role: its_role,
            ven: its_ven,
        } => its_role.is_same(role) && its_ven.is_same(ven),
        _ => false,
    }
}

/// Whether the command gives the ven of that id this name, by that role.
pub(crate) fn is_ven_put(command: &Command, role: &Role, id: &ObjectId, ven: &VenIn) -> bool
    ensures { IsTrue result ↔ (command.now ≡ VenPut role.now id.now ven.now) }
{
    match command {
        Command::VenPut {
            role: its_role,
            id: its_id,
            ven: its_ven,
        } => its_role.is_same(role) && its_id.is_same(id) && its_ven.is_same(ven),
        _ => false,
    }
}

/// Whether the command removes the ven of that id, by that role.
pub(crate) fn is_ven_remove(command: &Command, role: &Role, id: &ObjectId) -> bool
    ensures { IsTrue result ↔ (command.now ≡ VenRemove role.now id.now) }
{
    match command {
        Command::VenRemove {
            role: its_role,
            id: its_id,
        } => its_role.is_same(role) && its_id.is_same(id),
        _ => false,
    }
}

/// Whether the command adds this resource to that ven, by that role.
pub(crate) fn is_resource_add(
    command: &Command,
    role: &Role,
    ven: &ObjectId,
    resource: &ResourceIn,
) -> bool
    ensures { IsTrue result ↔ (command.now ≡ ResourceAdd role.now ven.now resource.now) }
{
    match command {
        Command::ResourceAdd {
            role: its_role,
            ven: its_ven,
            resource: its_resource,
        } => its_role.is_same(role) && its_ven.is_same(ven) && its_resource.is_same(resource),
        _ => false,
    }
}

/// Whether the command gives that resource of that ven this name, by that role.
pub(crate) fn is_resource_put(
    command: &Command,
    role: &Role,
    ven: &ObjectId,
    id: &ObjectId,
    resource: &ResourceIn,
) -> bool
    ensures { IsTrue result ↔ (command.now ≡ ResourcePut role.now ven.now id.now resource.now) }
{
    match command {
        Command::ResourcePut {
            role: its_role,
            ven: its_ven,
            id: its_id,
            resource: its_resource,
        } => its_role.is_same(role)
            && its_ven.is_same(ven)
            && its_id.is_same(id)
            && its_resource.is_same(resource),
        _ => false,
    }
}

/// Whether the command removes that resource of that ven, by that role.
pub(crate) fn is_resource_remove(
    command: &Command,
    role: &Role,
    ven: &ObjectId,
    id: &ObjectId,
) -> bool
    ensures { IsTrue result ↔ (command.now ≡ ResourceRemove role.now ven.now id.now) }
{
    match command {
        Command::ResourceRemove {
            role: its_role,
            ven: its_ven,
            id: its_id,
        } => its_role.is_same(role) && its_ven.is_same(ven) && its_id.is_same(id),
        _ => false,
    }
}

/// Whether the command sets this share of that resource in that program, by that role.
pub(crate) fn is_share_set(
    command: &Command,
    role: &Role,
    program: &ObjectId,
    resource: &ObjectId,
    share: &ShareIn,
) -> bool
    ensures { IsTrue result ↔ (command.now ≡ ShareSet role.now program.now resource.now share.now) }
{
    match command {
        Command::ShareSet {
            role: its_role,
            program: its_program,
            resource: its_resource,
            share: its_share,
        } => its_role.is_same(role)
            && its_program.is_same(program)
            && its_resource.is_same(resource)
            && its_share.is_same(share),
        _ => false,
    }
}

/// Whether the command freezes that event, by that role.
pub(crate) fn is_freeze(command: &Command, role: &Role, event: &ObjectId) -> bool
    ensures { IsTrue result ↔ (command.now ≡ Freeze role.now event.now) }
{
    match command {
        Command::Freeze {
            role: its_role,
            event: its_event,
        } => its_role.is_same(role) && its_event.is_same(event),
        _ => false,
    }
}
