//! What no clause says: the words of each reason, and that each public call succeeds. A line of a table has
//! JSON, ` => ` and what is wanted.
use adr_schema::{
    Body, Defect, Element, Kind, read_element, read_page, shown_id, targets_passed_over,
};
use adr_text::{list, read_value};
use std::alloc::Global;
use std::test::Fail;

/// Elements of a page of events that are skipped.
const SKIPPED: &str = r#"3 => id is missing
{"id":null} => id is missing
{"id":7} => id is not a text
{"id":""} => id is empty
{"id":"e/1"} => id has other characters than letters, digits, - and _
{"id":"e1"} => modificationDateTime is missing
{"id":"e1","modificationDateTime":1} => modificationDateTime is not a text
{"id":"e1","modificationDateTime":"2024-07-01T10:00:00"} => modificationDateTime has no offset
{"id":"e1","modificationDateTime":"2024-07-01T10:00:00.123456"} => modificationDateTime has no offset
{"id":"e1","modificationDateTime":"2024-07-01"} => modificationDateTime is not a moment from 1970 to 2199
{"id":"e1","modificationDateTime":"1969-12-31T23:59:59Z"} => modificationDateTime is not a moment from 1970 to 2199
{"id":"e1","modificationDateTime":"2200-01-01T00:00:00Z"} => modificationDateTime is not a moment from 1970 to 2199
{"id":"e1","modificationDateTime":"2200-01-01T00:00:00"} => modificationDateTime is not a moment from 1970 to 2199
{"id":"e1","modificationDateTime":"soon"} => modificationDateTime is not a moment from 1970 to 2199"#;

/// Members of programs that are kept unread.
const PROGRAMS: &str = r#""programLongName":"p" => programName is missing
"programName":1.5 => programName is not a text
"programName":"" => programName is empty"#;

/// Members of events that are kept unread. Of equal members the last counts.
const EVENTS: &str = r#""programID":null => programID is missing
"programID":1 => programID is not a text
"programID":"p 1" => programID has other characters than letters, digits, - and _
"eventName":1 => eventName is not a text
"priority":"1" => priority is not a number
"priority":1.0 => priority is not a whole number
"priority":-1 => priority is out of range
"priority":2147483648 => priority is out of range
"intervalPeriod":{} => intervalPeriod: start is missing
"intervalPeriod":"s" => intervalPeriod: start is missing
"intervalPeriod":{"start":1} => intervalPeriod: start is not a text of at most 64 bytes
"intervalPeriod":{"start":"s","duration":1} => intervalPeriod: duration is not a text of at most 64 bytes
"intervalPeriod":{"start":"s","randomizeStart":1} => intervalPeriod: randomizeStart is not a text of at most 64 bytes
"targets":{} => targets: not a list of objects
"targets":[{"type":"A"},7] => targets: not a list of objects
"targets":[{"type":"A"},{"values":[]}] => target 1: type is missing
"targets":[{"type":"A"},{"type":7}] => target 1: type is not a text
"targets":[{"type":"A"},{"type":"RESOURCE_NAME"}] => target 1: values is missing
"targets":[{"type":"RESOURCE_NAME","values":"a"}] => target 0: values: not a list
"targets":[{"type":"RESOURCE_NAME","values":["a","b",""]}] => target 0: values: 2 is not a text of 1 to 128 bytes
"intervals":7 => intervals: not a list of objects
"intervals":[{"id":1.5},3] => intervals: not a list of objects
"intervals":[{"id":0},{}] => interval 1: id is missing
"intervals":[{"id":"0"}] => interval 0: id is not a number
"intervals":[{"id":0.0}] => interval 0: id is not a whole number
"intervals":[{"id":2147483648}] => interval 0: id is out of range
"intervals":[{"id":5},{"id":6},{"id":5}] => interval 2: id stands twice
"intervals":[{"id":0},{"id":1,"intervalPeriod":{}}] => interval 1: intervalPeriod: start is missing
"intervals":[{"id":0,"payloads":7}] => interval 0: payloads: not a list of objects with a type
"intervals":[{"id":0,"payloads":[{"values":[1]}]}] => interval 0: payloads: not a list of objects with a type
"intervals":[{"id":0.5}],"targets":7 => targets: not a list of objects
"intervals":[{"id":0.5}],"priority":0.5 => priority is not a whole number"#;

/// What stands behind the type of the one payload of interval 3.
const SETPOINTS: &str = r#"},{"type":"DISPATCH_SETPOINT" => two setpoints
 => setpoint has no list of values
,"values":[] => setpoint has 0 values
,"values":[1,2] => setpoint has 2 values
,"values":["1"] => setpoint is not a number
,"values":[100.0] => setpoint is not a whole number
,"values":[1e2] => setpoint is not a whole number
,"values":[-0] => setpoint is not a whole number
,"values":[100000000000000000000] => setpoint is beyond 64 bits
,"values":[-1e30] => setpoint is beyond 64 bits
,"values":[18446744073709551615] => setpoint is out of range
,"values":[1000000000001] => setpoint is out of range"#;

/// Targets, those that are passed over with their types, and whether the event goes to everybody.
const TARGETS: &str = r#"null => : false
[] => : false
[{"type":"VEN_NAME"},7] => : false
[{"type":"RESOURCE_NAME","values":[]}] => : false
[{"type":"GROUP"},{"type":"RESOURCE_NAME"},{"type":"VEN_NAME"}] => 0 GROUP, 2 VEN_NAME, : false
[{"type":"SERVICE_AREA"},{"type":"PROGRAM_NAME"},{"type":"EVENT_NAME"}] => 0 SERVICE_AREA, 1 PROGRAM_NAME, 2 EVENT_NAME, : true
[{"type":"POWER_SERVICE_LOCATION"},{"type":"group"}] => 0 POWER_SERVICE_LOCATION, 1 another type, : true"#;

/// What becomes of an element, and the words for it; nothing where it is read.
fn words(alloc: Global, kind: Kind, text: &str) -> Result<String, Fail> {
    let value = read_value(alloc, text.as_bytes())?;
    match read_element(alloc, kind, &value)? {
        Element::Read(_) => Ok(String::new(alloc)),
        Element::Unread(_, defect) => Ok(format!(in alloc; "unread: {defect}")?),
        Element::Skipped(defect) => Ok(format!(in alloc; "skipped: {defect}")?),
    }
}

/// The lines of a table that are told otherwise than they want, each with what is told.
fn otherwise(
    alloc: Global,
    kind: Kind,
    table: &str,
    before: &str,
    behind: &str,
    fate: &str,
) -> Result<String, Fail> {
    let mut lines = String::new(alloc);
    for line in table.lines() {
        let (json, wanted) = line.split_once(" => ").unwrap_or(("", line));
        let text = format!(in alloc; "{before}{json}{behind}")?;
        let wanted = format!(in alloc; "{fate}: {wanted}")?;
        let told = words(alloc, kind, text.as_str())?;
        if told.as_str() != wanted.as_str() {
            lines.push_str(format!(in alloc; "{line} ({told})\n")?.as_str())?;
        }
    }
    Ok(lines)
}

const PROGRAM: &str = r#"{"id":"p1","modificationDateTime":"2024-07-01T10:00:00Z","#;

const EVENT: &str = r#"{"id":"e1","modificationDateTime":"2024-07-01T10:00:00Z","programID":"p1","#;

#[test]
fn words_of_each_reason(rt: HostRuntime) -> Result<(), Fail> {
    let alloc = rt.alloc();
    let skipped = otherwise(alloc, Kind::Event, SKIPPED, "", "", "skipped")?;
    assert_eq!(rt; skipped.as_str(), "");
    let programs = otherwise(alloc, Kind::Program, PROGRAMS, PROGRAM, "}", "unread")?;
    assert_eq!(rt; programs.as_str(), "");
    let events = otherwise(alloc, Kind::Event, EVENTS, EVENT, "}", "unread")?;
    assert_eq!(rt; events.as_str(), "");
    let payload =
        r#""intervals":[{"id":0},{"id":1},{"id":2},{"id":3,"payloads":[{"type":"DISPATCH_SETPOINT""#;
    let before = format!(in alloc; "{EVENT}{payload}")?;
    let fate = "unread: interval 3";
    let setpoints = otherwise(
        alloc,
        Kind::Event,
        SETPOINTS,
        before.as_str(),
        "}]}]}",
        fate,
    )?;
    assert_eq!(rt; setpoints.as_str(), "");
    let read = format!(in alloc; "{EVENT}{}", r#""targets":null}"#)?;
    assert_eq!(rt; words(alloc, Kind::Event, read.as_str())?.as_str(), "");
    Ok(())
}

#[test]
fn words_of_what_is_too_long(rt: HostRuntime) -> Result<(), Fail> {
    let alloc = rt.alloc();
    let id = "x".repeat(alloc, 101)?;
    let long = format!(in alloc; "{{\"id\":\"{id}\"}}")?;
    let told = words(alloc, Kind::Event, long.as_str())?;
    assert_eq!(rt; told.as_str(), "skipped: id is longer than 100 bytes");
    let more = ",{\"id\":1}".repeat(alloc, 1000)?;
    let long = format!(in alloc; "{EVENT}\"intervals\":[{{\"id\":0}}{more}]}}")?;
    let told = words(alloc, Kind::Event, long.as_str())?;
    assert_eq!(rt; told.as_str(), "unread: intervals: more than 1,000");
    let more = ",\"a\"".repeat(alloc, 10_000)?;
    let targets = r#""targets":[{"type":"RESOURCE_NAME","values":["a""#;
    let long = format!(in alloc; "{EVENT}{targets}{more}]}}]}}")?;
    let told = words(alloc, Kind::Event, long.as_str())?;
    assert_eq!(rt; told.as_str(), "unread: targets: more than 10,000 names");
    Ok(())
}

/// Its first fault, with the number of the reason that is kept.
fn fault_of(element: &Element) -> Option<(u8, Defect)> {
    match element {
        Element::Read(_) => None,
        Element::Unread(found, defect) => match &found.body {
            Body::Opaque(reason) => Some((reason.number(), *defect)),
            Body::Program(_) | Body::Event(_) => None,
        },
        Element::Skipped(defect) => Some((0, *defect)),
    }
}

#[test]
fn a_page(rt: HostRuntime) -> Result<(), Fail> {
    let alloc = rt.alloc();
    let page = format!(in alloc;
        "[{PROGRAM}\"programName\":\"a\"}},{PROGRAM}\"a\":1}},{{\"id\":\"p 2\"}},7]"
    )?;
    let value = read_value(alloc, page.as_bytes())?;
    let mut lines = String::new(alloc);
    for value in list(&value)? {
        let id = shown_id(alloc, value)?;
        let id = match &id {
            Some(id) => id.as_str(),
            None => "?",
        };
        if let Some((reason, defect)) = fault_of(&read_element(alloc, Kind::Program, value)?) {
            lines.push_str(format!(in alloc; "{reason} {id}: {defect}\n")?.as_str())?;
        }
    }
    assert_eq!(rt;
        lines.as_str(),
        "5 p1: programName is missing\n0 p 2: id has other characters than letters, digits, - and _\n0 ?: id is missing\n"
    );
    let (found, skipped) = read_page(alloc, Kind::Program, page.as_bytes())?;
    assert_eq!(rt; (found.len(), skipped), (2, 2));
    Ok(())
}

#[test]
fn targets(rt: HostRuntime) -> Result<(), Fail> {
    let alloc = rt.alloc();
    for line in TARGETS.lines() {
        let (targets, wanted) = line.split_once(" => ").unwrap_or(("", ""));
        let event = format!(in alloc; "{EVENT}\"targets\":{targets}}}")?;
        let value = read_value(alloc, event.as_bytes())?;
        let passed = targets_passed_over(alloc, &value)?;
        let mut told = String::new(alloc);
        for target in &passed.targets {
            told.push_str(format!(in alloc; "{} {}, ", target.number, target.type_name)?.as_str())?;
        }
        told.push_str(format!(in alloc; ": {}", passed.to_everybody)?.as_str())?;
        assert_eq!(rt; told.as_str(), wanted);
        assert!(rt; passed.id.is_some_and(|id| id.as_str() == "e1"));
    }
    Ok(())
}
