//! Commands on reports and subscriptions.
ghost use Rattle.std.specs.Prelude.{◌≡◌, ◌↔◌, IsTrue};
ghost use Rattle.adr_machine.specs.declared.command.Command.TheVariants.{ReportPost, ReportPut, ReportDelete, SubPost, SubPut, SubDelete};

use crate::sameness::Same;
use adr_machine::Command;
use adr_objects::ReportIn;
use adr_queries::Role;
use adr_subscription::SubIn;
use adr_text::ObjectId;

/// Whether the command posts this report, by that role.
pub(crate) fn is_report_post(command: &Command, role: &Role, report: &ReportIn) -> bool
    ensures { IsTrue result ↔ (command.now ≡ ReportPost role.now report.now) }
{
    match command {
        Command::ReportPost {
            role: its_role,
            report: its_report,
        } => its_role.is_same(role) && its_report.is_same(report),
        _ => false,
    }
}

/// Whether the command makes the report of that id say this, by that role.
pub(crate) fn is_report_put(
    command: &Command,
    role: &Role,
    id: &ObjectId,
    report: &ReportIn,
) -> bool
    ensures { IsTrue result ↔ (command.now ≡ ReportPut role.now id.now report.now) }
{
    match command {
        Command::ReportPut {
            role: its_role,
            id: its_id,
            report: its_report,
        } => its_role.is_same(role) && its_id.is_same(id) && its_report.is_same(report),
        _ => false,
    }
}

/// Whether the command removes the report of that id, by that role.
pub(crate) fn is_report_delete(command: &Command, role: &Role, id: &ObjectId) -> bool
    ensures { IsTrue result ↔ (command.now ≡ ReportDelete role.now id.now) }
{
    match command {
        Command::ReportDelete {
            role: its_role,
            id: its_id,
        } => its_role.is_same(role) && its_id.is_same(id),
        _ => false,
    }
}

/// Whether the command makes this subscription, by that role.
pub(crate) fn is_sub_post(command: &Command, role: &Role, sub: &SubIn) -> bool
    ensures { IsTrue result ↔ (command.now ≡ SubPost role.now sub.now) }
{
    match command {
        Command::SubPost {
            role: its_role,
            sub: its_sub,
        } => its_role.is_same(role) && its_sub.is_same(sub),
        _ => false,
    }
}

/// Whether the command makes the subscription of that id say this, by that role.
pub(crate) fn is_sub_put(command: &Command, role: &Role, id: &ObjectId, sub: &SubIn) -> bool
    ensures { IsTrue result ↔ (command.now ≡ SubPut role.now id.now sub.now) }
{
    match command {
        Command::SubPut {
            role: its_role,
            id: its_id,
            sub: its_sub,
        } => its_role.is_same(role) && its_id.is_same(id) && its_sub.is_same(sub),
        _ => false,
    }
}

/// Whether the command removes the subscription of that id, by that role.
pub(crate) fn is_sub_delete(command: &Command, role: &Role, id: &ObjectId) -> bool
    ensures { IsTrue result ↔ (command.now ≡ SubDelete role.now id.now) }
{
    match command {
        Command::SubDelete {
            role: its_role,
            id: its_id,
        } => its_role.is_same(role) && its_id.is_same(id),
        _ => false,
    }
}
