//! The texts that tables keep of what is shown.
use crate::objects::stamps;
use adr_event_text::KeptEvent;
use adr_objects::Number;
use adr_shown::{read_rolled_up, read_shown, write_rolled_up, write_shown};
use adr_text::{ObjectId, Refusal};
use std::alloc::Global;
use std::test::Fail;

const SHOWN: &str =
    "{\"intervals\":[{\"id\":0,\"payloads\":[{\"type\":\"DISPATCH_SETPOINT\",\"values\":[1]}]}],\"objectType\":\"EVENT\",\"programID\":\"p1\",\"targets\":[{\"type\":\"VEN_NAME\",\"values\":[\"alpha\"]},{\"type\":\"RESOURCE_NAME\",\"values\":[\"a1\"]}]}";

const ROLLED_UP: &str =
    "{\"eventID\":\"e1\",\"programID\":\"p1\",\"resources\":[{\"intervals\":[{\"id\":0,\"payloads\":[{\"type\":\"USAGE\",\"values\":[24]},{\"type\":\"MISSING_RESOURCES\",\"values\":[\"a2\",\"b1\"]}]}],\"resourceName\":\"AGGREGATED_REPORT\"}]}";

// An event as a resource is shown it, less its id and its stamps, and nothing else.
#[test]
fn shown_event_is_read_and_written_again(rt: HostRuntime) -> Result<(), Fail> {
    let alloc = rt.alloc();
    let event = read_shown(alloc, SHOWN)?;
    assert!(rt; event.ven_name.as_str() == "alpha" && event.resource_name.as_str() == "a1");
    assert!(rt; write_shown(alloc, &event)?.as_str() == SHOWN);
    assert!(rt; read_shown(alloc, "{}").is_err() && read_shown(alloc, ROLLED_UP).is_err());
    Ok(())
}

// What resource 3 is shown of the event e1, of what is kept of it.
fn kept(alloc: Global, text: &str) -> Result<KeptEvent, Refusal> {
    let event = ObjectId::new(alloc, "e1")?;
    let shown = read_shown(alloc, text)?;
    Ok(KeptEvent::of(alloc, Number::new(3), &event, &shown, stamps()?)?)
}

fn told(alloc: Global, text: &str) -> Result<String, Refusal> {
    Ok(kept(alloc, text)?.text(alloc)?)
}

const SHOWN_TOLD: &str =
    "{\"createdDateTime\":\"2024-07-01T10:00:00Z\",\"id\":\"r3-e1\",\"intervals\":[{\"id\":0,\"payloads\":[{\"type\":\"DISPATCH_SETPOINT\",\"values\":[1]}]}],\"modificationDateTime\":\"2024-07-01T10:00:00Z\",\"objectType\":\"EVENT\",\"programID\":\"p1\",\"targets\":[{\"type\":\"VEN_NAME\",\"values\":[\"alpha\"]},{\"type\":\"RESOURCE_NAME\",\"values\":[\"a1\"]}]}";

// With a name of quotes, brackets, a comma and a backslash, with a period and with a priority.
const NAMED: &str =
    "{\"eventName\":\"\\\"peak\\\", {2]\\\\\",\"intervalPeriod\":{\"duration\":\"PT1H\",\"start\":\"2024-07-01T10:00:00Z\"},\"intervals\":[],\"objectType\":\"EVENT\",\"priority\":1,\"programID\":\"p1\",\"targets\":[{\"type\":\"VEN_NAME\",\"values\":[\"alpha\"]},{\"type\":\"RESOURCE_NAME\",\"values\":[\"a1\"]}]}";

const NAMED_TOLD: &str =
    "{\"createdDateTime\":\"2024-07-01T10:00:00Z\",\"eventName\":\"\\\"peak\\\", {2]\\\\\",\"id\":\"r3-e1\",\"intervalPeriod\":{\"duration\":\"PT1H\",\"start\":\"2024-07-01T10:00:00Z\"},\"intervals\":[],\"modificationDateTime\":\"2024-07-01T10:00:00Z\",\"objectType\":\"EVENT\",\"priority\":1,\"programID\":\"p1\",\"targets\":[{\"type\":\"VEN_NAME\",\"values\":[\"alpha\"]},{\"type\":\"RESOURCE_NAME\",\"values\":[\"a1\"]}]}";

#[test]
fn shown_event_is_told_of_its_kept_text(rt: HostRuntime) -> Result<(), Fail> {
    let alloc = rt.alloc();
    assert!(rt; told(alloc, SHOWN)?.as_str() == SHOWN_TOLD);
    assert!(rt; told(alloc, NAMED)?.as_str() == NAMED_TOLD);
    Ok(())
}

#[test]
fn roll_up_is_read_and_written_again(rt: HostRuntime) -> Result<(), Fail> {
    let alloc = rt.alloc();
    let (event, rollup) = read_rolled_up(alloc, ROLLED_UP)?;
    assert!(rt; event.as_str() == "e1" && rollup.intervals.len() == 1);
    assert!(rt; write_rolled_up(alloc, &event, &rollup)?.as_str() == ROLLED_UP);
    assert!(rt; read_rolled_up(alloc, "{}").is_err() && read_rolled_up(alloc, SHOWN).is_err());
    Ok(())
}
