//! Commands.
use crate::delivery_commands::{is_failed, is_sent};
use crate::mirror_commands::{is_evidence, is_gone};
use crate::operator_commands::{
    is_freeze, is_resource_add, is_resource_put, is_resource_remove, is_share_set, is_ven_add,
    is_ven_put, is_ven_remove,
};
use crate::sameness::Same;
use crate::site_commands::{
    is_report_delete, is_report_post, is_report_put, is_sub_delete, is_sub_post, is_sub_put,
};
use adr_machine::Command;

impl Same for Command {
    fn is_same(&self, other: &Command) -> bool {
        match self {
            Command::Evidence { found, polled } => is_evidence(other, found, *polled),
            Command::Gone { kind, id } => is_gone(other, *kind, id),
            Command::ScanBegin => matches!(other, Command::ScanBegin),
            Command::ScanEnd => matches!(other, Command::ScanEnd),
            Command::VenAdd { role, ven } => is_ven_add(other, role, ven),
            Command::VenPut { role, id, ven } => is_ven_put(other, role, id, ven),
            Command::VenRemove { role, id } => is_ven_remove(other, role, id),
            Command::ResourceAdd {
                role,
                ven,
                resource,
            } => is_resource_add(other, role, ven, resource),
            Command::ResourcePut {
                role,
                ven,
                id,
                resource,
            } => is_resource_put(other, role, ven, id, resource),
            Command::ResourceRemove { role, ven, id } => is_resource_remove(other, role, ven, id),
            Command::ShareSet {
                role,
                program,
                resource,
                share,
            } => is_share_set(other, role, program, resource, share),
            Command::Freeze { role, event } => is_freeze(other, role, event),
            Command::ReportPost { role, report } => is_report_post(other, role, report),
            Command::ReportPut { role, id, report } => is_report_put(other, role, id, report),
            Command::ReportDelete { role, id } => is_report_delete(other, role, id),
            Command::SubPost { role, sub } => is_sub_post(other, role, sub),
            Command::SubPut { role, id, sub } => is_sub_put(other, role, id, sub),
            Command::SubDelete { role, id } => is_sub_delete(other, role, id),
            Command::Lease => matches!(other, Command::Lease),
            Command::Sent {
                entry,
                lease,
                remote,
            } => is_sent(other, *entry, *lease, remote),
            Command::Failed {
                entry,
                lease,
                forget,
            } => is_failed(other, *entry, *lease, *forget),
        }
    }
}
