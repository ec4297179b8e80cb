//! Notifications, written as JSON: an object, and what was done to it.
ghost use Rattle.std.specs.Prelude.{◌≡◌, IfOk, string_bytes};
ghost use Rattle.serde_json.specs.View.{view};
ghost use Rattle.adr_subscription.specs.declared.words.ObjectKind.TheVariants.{Program, Report};
ghost use Rattle.adr_written.specs.WrittenNotices.{notice_data, program_notice_text, report_notice_text};

use crate::write::program_object;
use crate::write_fields::{compact, put_text};
use crate::write_reports::report_object;
use adr_objects::{ProgramObject, ReportObject};
use adr_subscription::{ObjectKind, OperationKind};
use serde_json::{Map, Value};
use std::alloc::{AllocError, Global};

// A notification of an object of that kind.
#[tactic(auto, unfolding(crate::specs::WrittenNotices::notice_data))]
fn notice(
    alloc: Global,
    kind: ObjectKind,
    operation: OperationKind,
    object: Value,
) -> Result<Value, AllocError>
    ensures { IfOk result (λ v. view v ≡ notice_data kind operation (view object)) }
{
    let mut members = Map::new(alloc);
    serde_json::put(&mut members, alloc, "object", object)?;
    put_text(&mut members, alloc, "objectType", kind.word())?;
    put_text(&mut members, alloc, "operation", operation.word())?;
    Ok(Value::Object(members))
}

/// The text of what was done to a program (OpenADR 3.0, notification).
#[tactic(auto, using(crate::proofs::NoFloats::program_notice_whole), unfolding(crate::specs::WrittenNotices::program_notice_text))]
pub fn write_program_notice(
    alloc: Global,
    operation: OperationKind,
    program: &ProgramObject,
) -> Result<String, AllocError>
    ensures { IfOk result (λ s. string_bytes s ≡ program_notice_text operation program.now) }
{
    let object = program_object(alloc, program)?;
    compact(
        alloc,
        notice(alloc, ObjectKind::Program, operation, object)?,
    )
}

/// The text of what was done to a report (OpenADR 3.0, notification).
#[tactic(auto, using(crate::proofs::NoFloats::report_notice_whole), unfolding(crate::specs::WrittenNotices::report_notice_text))]
pub fn write_report_notice(
    alloc: Global,
    operation: OperationKind,
    report: &ReportObject,
) -> Result<String, AllocError>
    ensures { IfOk result (λ s. string_bytes s ≡ report_notice_text operation report.now) }
{
    let object = report_object(alloc, report)?;
    compact(alloc, notice(alloc, ObjectKind::Report, operation, object)?)
}
