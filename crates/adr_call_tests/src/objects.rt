//! Objects: lists at their limits, and what is written.
use adr_event_text::KeptEvent;
use adr_objects::{
    Body, Kind, Number, ProgramObject, ReportBody, ReportHead, ReportObject, ShownEvent,
    ShownInterval, Stamps,
};
use adr_schema::read_page;
use adr_subscription::OperationKind;
use adr_text::{Moment, Name, ObjectId, Refusal, Rows};
use adr_written::{resource_id, shown_id, ven_id, write_program_notice, write_report_notice};
use std::alloc::{AllocError, Global};
use std::test::Fail;

// What the one event on a page is: 0 where its body is read, else the number of its reason; 9 where
// there is not exactly one.
fn outcome(alloc: Global, page: &str) -> Result<u8, Refusal> {
    let (found, _) = read_page(alloc, Kind::Event, page.as_bytes())?;
    match found.as_slice() {
        [version] => match &version.body {
            Body::Opaque(reason) => Ok(reason.number()),
            _ => Ok(0),
        },
        _ => Ok(9),
    }
}

// The same of an event with these members.
fn event(alloc: Global, members: &str) -> Result<u8, Refusal> {
    let page = format!(in alloc;
        "[{{\"id\":\"e1\",\"modificationDateTime\":\"2024-07-01T09:00:00Z\",\"programID\":\"p1\",{members}}}]"
    )?;
    outcome(alloc, page.as_str())
}

// So many intervals, each with an id of its own, behind one more.
fn intervals(alloc: Global, more: u32) -> Result<String, AllocError> {
    let mut text = String::from_str(alloc, "\"intervals\":[{\"id\":-1}")?;
    for id in 0..more {
        text.push_str(format!(in alloc; ",{{\"id\":{id}}}")?.as_str())?;
    }
    text.push(']')?;
    Ok(text)
}

// So many names, all of them one, behind one more.
fn targets(alloc: Global, more: usize) -> Result<String, AllocError> {
    let names = ",\"a\"".repeat(alloc, more)?;
    format!(in alloc; "\"targets\":[{{\"type\":\"RESOURCE_NAME\",\"values\":[\"a\"{names}]}}]")
}

fn event_of_intervals(alloc: Global, more: u32) -> Result<u8, Refusal> {
    event(alloc, intervals(alloc, more)?.as_str())
}

fn event_of_targets(alloc: Global, more: usize) -> Result<u8, Refusal> {
    event(alloc, targets(alloc, more)?.as_str())
}

// An event has at most 1,000 intervals.
#[test]
fn lengths_of_intervals(rt: HostRuntime) -> Result<(), Fail> {
    assert!(rt; event_of_intervals(rt.alloc(), 999)? == 0);
    assert!(rt; event_of_intervals(rt.alloc(), 1000)? == 5);
    Ok(())
}

// An event lists at most 10,000 names, each as often as it is listed.
#[test]
fn lengths_of_targets(rt: HostRuntime) -> Result<(), Fail> {
    assert!(rt; event_of_targets(rt.alloc(), 9999)? == 0);
    assert!(rt; event_of_targets(rt.alloc(), 10000)? == 5);
    Ok(())
}

pub fn stamps() -> Result<Stamps, Refusal> {
    let moment = Moment::read("2024-07-01T10:00:00Z")?;
    Ok(Stamps {
        created: moment,
        modified: moment,
    })
}

fn one_interval(alloc: Global, part: i64) -> Result<Rows<ShownInterval>, AllocError> {
    let mut intervals = Rows::new(alloc);
    intervals.push(ShownInterval {
        id: 0,
        period: None,
        part: Some(part),
    })?;
    Ok(intervals)
}

fn content(alloc: Global) -> Result<ShownEvent, Refusal> {
    Ok(ShownEvent {
        program: ObjectId::new(alloc, "p1")?,
        name: None,
        priority: None,
        period: None,
        intervals: one_interval(alloc, 34)?,
        ven_name: Name::new(alloc, "alpha")?,
        resource_name: Name::new(alloc, "a1")?,
    })
}

// What resource 3 of ven alpha, named a1, is shown of an event that sets it 34.
fn shown(alloc: Global) -> Result<KeptEvent, Refusal> {
    let event = ObjectId::new(alloc, "e1")?;
    Ok(KeptEvent::of(alloc, Number::new(3), &event, &content(alloc)?, stamps()?)?)
}

fn written(alloc: Global) -> Result<String, Refusal> {
    Ok(shown(alloc)?.text(alloc)?)
}

const WRITTEN: &str =
    "{\"createdDateTime\":\"2024-07-01T10:00:00Z\",\"id\":\"r3-e1\",\"intervals\":[{\"id\":0,\"payloads\":[{\"type\":\"DISPATCH_SETPOINT\",\"values\":[34]}]}],\"modificationDateTime\":\"2024-07-01T10:00:00Z\",\"objectType\":\"EVENT\",\"programID\":\"p1\",\"targets\":[{\"type\":\"VEN_NAME\",\"values\":[\"alpha\"]},{\"type\":\"RESOURCE_NAME\",\"values\":[\"a1\"]}]}";

#[test]
fn a_written_event(rt: HostRuntime) -> Result<(), Fail> {
    assert!(rt; written(rt.alloc())?.as_str() == WRITTEN);
    Ok(())
}

fn event_notice(alloc: Global) -> Result<String, Refusal> {
    Ok(shown(alloc)?.notice_text(alloc, OperationKind::Delete)?)
}

fn program_notice(alloc: Global) -> Result<String, Refusal> {
    let program = ProgramObject {
        id: ObjectId::new(alloc, "p1")?,
        name: Name::new(alloc, "night")?,
        stamps: stamps()?,
    };
    Ok(write_program_notice(alloc, OperationKind::Post, &program)?)
}

fn report_head(alloc: Global) -> Result<ReportHead, Refusal> {
    Ok(ReportHead {
        program: ObjectId::new(alloc, "p1")?,
        event: ObjectId::new(alloc, "e1")?,
        resource: Number::new(3),
        client: Name::new(alloc, "c")?,
        name: None,
        resource_name: Name::new(alloc, "a1")?,
    })
}

fn report_notice(alloc: Global) -> Result<String, Refusal> {
    let report = ReportObject {
        number: Number::new(6),
        body: ReportBody {
            head: report_head(alloc)?,
            intervals: Rows::new(alloc),
        },
        stamps: stamps()?,
    };
    Ok(write_report_notice(alloc, OperationKind::Put, &report)?)
}

const EVENT_NOTICE: &str =
    "{\"object\":{\"createdDateTime\":\"2024-07-01T10:00:00Z\",\"id\":\"r3-e1\",\"intervals\":[{\"id\":0,\"payloads\":[{\"type\":\"DISPATCH_SETPOINT\",\"values\":[34]}]}],\"modificationDateTime\":\"2024-07-01T10:00:00Z\",\"objectType\":\"EVENT\",\"programID\":\"p1\",\"targets\":[{\"type\":\"VEN_NAME\",\"values\":[\"alpha\"]},{\"type\":\"RESOURCE_NAME\",\"values\":[\"a1\"]}]},\"objectType\":\"EVENT\",\"operation\":\"DELETE\"}";

const PROGRAM_NOTICE: &str =
    "{\"object\":{\"createdDateTime\":\"2024-07-01T10:00:00Z\",\"id\":\"p1\",\"modificationDateTime\":\"2024-07-01T10:00:00Z\",\"objectType\":\"PROGRAM\",\"programName\":\"night\"},\"objectType\":\"PROGRAM\",\"operation\":\"POST\"}";

const REPORT_NOTICE: &str =
    "{\"object\":{\"clientName\":\"c\",\"createdDateTime\":\"2024-07-01T10:00:00Z\",\"eventID\":\"r3-e1\",\"id\":\"p6\",\"modificationDateTime\":\"2024-07-01T10:00:00Z\",\"objectType\":\"REPORT\",\"programID\":\"p1\",\"resources\":[{\"intervals\":[],\"resourceName\":\"a1\"}]},\"objectType\":\"REPORT\",\"operation\":\"PUT\"}";

#[test]
fn written_notices(rt: HostRuntime) -> Result<(), Fail> {
    assert!(rt; event_notice(rt.alloc())?.as_str() == EVENT_NOTICE);
    assert!(rt; program_notice(rt.alloc())?.as_str() == PROGRAM_NOTICE);
    assert!(rt; report_notice(rt.alloc())?.as_str() == REPORT_NOTICE);
    Ok(())
}

fn shown_of_three(alloc: Global) -> Result<String, Refusal> {
    Ok(shown_id(alloc, Number::new(3), &ObjectId::new(alloc, "e-1")?)?)
}

#[test]
fn written_ids(rt: HostRuntime) -> Result<(), Fail> {
    let last = Number::new(18446744073709551615);
    assert!(rt; ven_id(rt.alloc(), Number::new(0))?.as_str() == "v0");
    assert!(rt; resource_id(rt.alloc(), last)?.as_str() == "r18446744073709551615");
    assert!(rt; shown_of_three(rt.alloc())?.as_str() == "r3-e-1");
    Ok(())
}
