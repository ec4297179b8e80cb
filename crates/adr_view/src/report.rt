//! What a report is on, and how it is kept.
ghost use Rattle.std.specs.Prelude.{◌≡◌, IfOk};
ghost use Rattle.adr_view.specs.Reports.{fits, kept_report};

use adr_objects::{Number, ReportBody, ReportHead, ReportIn};
use adr_state::Report;
use adr_text::{Name, ObjectId};
use std::alloc::AllocError;

/// An upstream event that is shown to a resource.
#[derive(Clone, Drop)]
pub struct Reported {
    pub event: ObjectId,
    pub program: ObjectId,
    pub resource: Number,
    pub resource_name: Name,
}

/// Whether a report names the resource and the program of the event that it is on.
pub fn fits(on: &Reported, report: &ReportIn) -> bool
    ensures { result ≡ fits on.now report.now }
{
    report.resource_name == on.resource_name && report.program == on.program
}

fn head_of(on: &Reported, report: &ReportIn) -> Result<ReportHead, AllocError>
    ensures { IfOk result (λ head. head ≡ record {
      program = report.now.program;
      event = on.now.event;
      resource = on.now.resource;
      client = report.now.client;
      name = report.now.name;
      resource_name = report.now.resource_name;
    }) }
{
    Ok(ReportHead {
        program: report.program.clone()?,
        event: on.event.clone()?,
        resource: on.resource,
        client: report.client.clone()?,
        name: report.name.clone()?,
        resource_name: report.resource_name.clone()?,
    })
}

/// A report as it is kept, with its revision.
pub fn kept_report(revision: Number, on: &Reported, report: &ReportIn) -> Result<Report, AllocError>
    ensures { IfOk result (λ kept. kept ≡ kept_report revision on.now report.now) }
{
    Ok(Report {
        revision,
        body: ReportBody {
            head: head_of(on, report)?,
            intervals: report.intervals.clone()?.into_rows(),
        },
    })
}
