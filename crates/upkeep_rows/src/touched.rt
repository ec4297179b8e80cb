//! What an edit touches, asked before it.
use crate::edit::Edit;
use adr_db_portfolio::{read_columns, read_reports_on};
use adr_objects::{Kind, Number, ReportIn};
use adr_state::{MirrorKey, id_parts};
use adr_text::{ObjectId, Refusal};
use adr_touched::{events_of_program, events_of_resource, events_of_ven, reports_of_ven};
use sqlite::{Alter, Transaction};
use std::alloc::{AllocError, Global};
use std::collections::BTreeSet;

/// Programs, upstream events and reports, each once.
#[derive(Drop)]
pub struct Touched {
    pub programs: BTreeSet<ObjectId>,
    pub events: BTreeSet<ObjectId>,
    pub reports: BTreeSet<Number>,
}

impl Touched {
    /// Nothing.
    pub fn new(alloc: Global) -> Touched {
        Touched {
            programs: BTreeSet::new(alloc),
            events: BTreeSet::new(alloc),
            reports: BTreeSet::new(alloc),
        }
    }

    fn add_program(&mut self, program: ObjectId) -> Result<(), AllocError> {
        self.programs.insert(program)?;
        Ok(())
    }

    fn add_event(&mut self, event: ObjectId) -> Result<(), AllocError> {
        self.events.insert(event)?;
        Ok(())
    }

    fn add_report(&mut self, report: Number) -> Result<(), AllocError> {
        self.reports.insert(report)?;
        Ok(())
    }

    /// Adds the programs and events of upstream keys.
    pub fn add_keys(&mut self, keys: &[MirrorKey]) -> Result<(), AllocError> {
        for key in keys {
            match key.kind {
                Kind::Program => self.add_program(key.id.clone()?)?,
                Kind::Event => self.add_event(key.id.clone()?)?,
            }
        }
        Ok(())
    }

    fn add_reports(&mut self, reports: &[Number]) -> Result<(), AllocError> {
        for report in reports {
            self.add_report(*report)?;
        }
        Ok(())
    }
}

// The events that a ven touches.
fn add_ven<S: Alter>(
    alloc: Global,
    tx: &mut Transaction<'_, S>,
    touched: &mut Touched,
    ven: Number,
) -> Result<(), Refusal> {
    let keys = events_of_ven(alloc, tx, ven)?;
    Ok(touched.add_keys(keys.as_slice())?)
}

// The reports that go with a ven.
fn add_reports_of_ven<S: Alter>(
    alloc: Global,
    tx: &mut Transaction<'_, S>,
    touched: &mut Touched,
    ven: Number,
) -> Result<(), Refusal> {
    let reports = reports_of_ven(alloc, tx, ven)?;
    Ok(touched.add_reports(reports.as_slice())?)
}

fn add_resource<S: Alter>(
    alloc: Global,
    tx: &mut Transaction<'_, S>,
    touched: &mut Touched,
    resource: Number,
) -> Result<(), Refusal> {
    let keys = events_of_resource(alloc, tx, resource)?;
    Ok(touched.add_keys(keys.as_slice())?)
}

fn add_reports_of_resource<S: Alter>(
    alloc: Global,
    tx: &mut Transaction<'_, S>,
    touched: &mut Touched,
    resource: Number,
) -> Result<(), Refusal> {
    let reports = read_reports_on(alloc, tx, resource)?;
    Ok(touched.add_reports(reports.as_slice())?)
}

fn add_program<S: Alter>(
    alloc: Global,
    tx: &mut Transaction<'_, S>,
    touched: &mut Touched,
    program: &ObjectId,
) -> Result<(), Refusal> {
    let keys = events_of_program(alloc, tx, program)?;
    Ok(touched.add_keys(keys.as_slice())?)
}

// A report that is there, and the event that it is on.
fn add_old_report<S: Alter>(
    alloc: Global,
    tx: &mut Transaction<'_, S>,
    touched: &mut Touched,
    report: Number,
) -> Result<(), Refusal> {
    touched.add_report(report)?;
    let Some(columns) = read_columns(alloc, tx, report)? else {
        return Ok(());
    };
    Ok(touched.add_event(columns.head.event.copy(alloc)?)?)
}

// The upstream event that a new report is on.
fn add_new_report(alloc: Global, touched: &mut Touched, report: &ReportIn) -> Result<(), Refusal> {
    let (_, event) = id_parts(&report.event);
    let Some(event) = event else {
        return Ok(());
    };
    touched.add_event(ObjectId::new(alloc, event)?)?;
    Ok(())
}

/// Adds what an edit touches, of which the report has that number if it posts one. What evidence touches is known behind
/// it.
pub fn add_touched<S: Alter>(
    alloc: Global,
    tx: &mut Transaction<'_, S>,
    touched: &mut Touched,
    number: Number,
    edit: &Edit,
) -> Result<(), Refusal> {
    match edit {
        Edit::Page(_) | Edit::Gone(_, _) => Ok(()),
        Edit::AddVen(_) | Edit::AddResource(_, _) => Ok(()),
        Edit::PutVen(ven, _) => add_ven(alloc, tx, touched, *ven),
        Edit::RemoveVen(ven) => {
            add_ven(alloc, tx, touched, *ven)?;
            add_reports_of_ven(alloc, tx, touched, *ven)
        }
        Edit::PutResource(_, resource, _) => add_resource(alloc, tx, touched, *resource),
        Edit::RemoveResource(_, resource) => {
            add_resource(alloc, tx, touched, *resource)?;
            add_reports_of_resource(alloc, tx, touched, *resource)
        }
        Edit::SetShare(program, _, _) => add_program(alloc, tx, touched, program),
        Edit::PostReport(report) => {
            touched.add_report(number)?;
            add_new_report(alloc, touched, report)
        }
        Edit::PutReport(old, report) => {
            add_old_report(alloc, tx, touched, *old)?;
            add_new_report(alloc, touched, report)
        }
        Edit::DeleteReport(old) => add_old_report(alloc, tx, touched, *old),
    }
}
