//! What a change of what is shown tells.
ghost use Rattle.std.specs.Prelude.{◌≡◌, IfOk};
ghost use Rattle.adr_notices.specs.Notices.{operation_kind, program_notice, event_notice, report_notice, notice_about, notice_of};

use adr_event_text::KeptEvent;
use adr_objects::{Number, ProgramObject, ReportObject, Stamps};
use adr_queries::{Object, object_at, owner_of};
use adr_state::{Base, ViewKey};
use adr_subscription::{FreeText, ObjectKind, OperationKind};
use adr_text::{Name, ObjectId, Table};
use adr_view::{Content, Operation};
use adr_written::{write_program_notice, write_report_notice};
use std::alloc::{AllocError, Global};

/// The names of those who are shown an event, by which it is targeted (OpenADR 3.0, targets of an event).
#[derive(Drop)]
pub struct EventNames {
    pub ven_name: Name,
    pub resource_name: Name,
}

/// What a change of a program, of an event as it is shown, or of a report tells (OpenADR 3.0, notification).
pub struct Notice {
    /// objectType
    pub kind: ObjectKind,
    /// operation
    pub operation: OperationKind,
    /// The program that the object is, or is under.
    pub program: ObjectId,
    /// The ven that the object is of. A program is of none.
    pub ven: Option<Number>,
    /// Of an event the names of those who are shown it.
    pub names: Option<EventNames>,
    /// The text that tells it.
    pub body: FreeText,
}

impl Drop for Notice {
    fn drop(self) {
        let Notice {
            kind: _,
            operation: _,
            program: _,
            ven: _,
            names: _,
            body: _,
        } = self;
    }
}

/// What happened at a key of the view, as it is told.
pub fn operation_kind(operation: Operation) -> OperationKind
    ensures { result ≡ operation_kind operation }
{
    match operation {
        Operation::Post => OperationKind::Post,
        Operation::Put => OperationKind::Put,
        Operation::Delete => OperationKind::Delete,
    }
}

fn program_notice(
    alloc: Global,
    operation: OperationKind,
    program: &ProgramObject,
) -> Result<Notice, AllocError>
    ensures { IfOk result (λ notice. notice ≡ program_notice operation program.now) }
{
    let text = write_program_notice(alloc, operation, program)?;
    Ok(Notice {
        kind: ObjectKind::Program,
        operation,
        program: program.id.clone()?,
        ven: None,
        names: None,
        body: FreeText::new(alloc, text.as_str())?,
    })
}

/// The names of those who are shown an event.
fn names_of(event: &KeptEvent) -> Result<EventNames, AllocError>
    ensures { IfOk result (λ names. names ≡ record { ven_name = event.now.ven_name; resource_name = event.now.resource_name }) }
{
    Ok(EventNames {
        ven_name: event.ven_name.clone()?,
        resource_name: event.resource_name.clone()?,
    })
}

fn event_notice(
    alloc: Global,
    base: &Base,
    operation: OperationKind,
    event: &KeptEvent,
) -> Result<Notice, AllocError>
    ensures { IfOk result (λ notice. notice ≡ event_notice base.now operation event.now) }
{
    let text = event.notice_text(alloc, operation)?;
    Ok(Notice {
        kind: ObjectKind::Event,
        operation,
        program: event.program.clone()?,
        ven: owner_of(base, event.resource),
        names: Some(names_of(event)?),
        body: FreeText::new(alloc, text.as_str())?,
    })
}

fn report_notice(
    alloc: Global,
    base: &Base,
    operation: OperationKind,
    report: &ReportObject,
) -> Result<Notice, AllocError>
    ensures { IfOk result (λ notice. notice ≡ report_notice base.now operation report.now) }
{
    let text = write_report_notice(alloc, operation, report)?;
    Ok(Notice {
        kind: ObjectKind::Report,
        operation,
        program: report.body.head.program.clone()?,
        ven: owner_of(base, report.body.head.resource),
        names: None,
        body: FreeText::new(alloc, text.as_str())?,
    })
}

/// What a change of an object tells: only of these three is anything told.
fn notice_about(
    alloc: Global,
    base: &Base,
    operation: OperationKind,
    object: &Object,
) -> Result<Option<Notice>, AllocError>
    ensures { IfOk result (λ notice. notice ≡ notice_about base.now operation object.now) }
{
    match object {
        Object::Program(program) => Ok(Some(program_notice(alloc, operation, program)?)),
        Object::Event(event) => Ok(Some(event_notice(alloc, base, operation, event)?)),
        Object::Report(report) => Ok(Some(report_notice(alloc, base, operation, report)?)),
        _ => Ok(None),
    }
}

/// What a change tells of what stands at a key, with its stamps: nothing of a roll-up, and nothing where it has no
/// stamps. Of the base only the resources are looked at, for whose they are.
pub fn notice_of(
    alloc: Global,
    base: &Base,
    stamps: &Table<ViewKey, Stamps>,
    operation: Operation,
    key: &ViewKey,
    content: &Content,
) -> Result<Option<Notice>, AllocError>
    ensures { IfOk result (λ notice. notice ≡ notice_of base.now stamps.now operation (key.now, content.now)) }
{
    match object_at(alloc, stamps, key, content)? {
        Some(object) => notice_about(alloc, base, operation_kind(operation), &object),
        None => Ok(None),
    }
}
