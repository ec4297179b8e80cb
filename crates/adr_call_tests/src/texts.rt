//! Texts, refusals, JSON fields, lists and maps.
use adr_text::{
    Fault, Moment, Name, ObjectId, Refusal, Rows, Table, all, array, list, maybe, member, needed,
    put, put_maybe, read_value,
};
use serde_json::{Map, Value};
use std::alloc::{AllocError, Global};
use std::test::Fail;

// Number, title, detail and status are said by clauses; its text as an error is said by none.
#[test]
fn refusal_is_told_as_its_detail(rt: HostRuntime) -> Result<(), Fail> {
    let told = format!(in rt.alloc(); "{}, {}", Refusal::Forbidden, Refusal::Stale(7))?;
    assert!(rt;
        told.as_str() == "not allowed for this token, pass is ahead",
        "{told}"
    );
    Ok(())
}

// The clone of a copy.
fn id_again(alloc: Global, text: &str) -> Result<String, Refusal> {
    let again = ObjectId::new(alloc, text)?.copy(alloc)?.clone()?;
    Ok(String::from_str(alloc, again.as_str())?)
}

fn name_again(alloc: Global, text: &str) -> Result<String, Refusal> {
    let again = Name::new(alloc, text)?.copy(alloc)?.clone()?;
    Ok(String::from_str(alloc, again.as_str())?)
}

#[test]
fn ids(rt: HostRuntime) -> Result<(), Fail> {
    assert!(rt; id_again(rt.alloc(), "aZ0-_9")?.as_str() == "aZ0-_9");
    Ok(())
}

#[test]
fn names(rt: HostRuntime) -> Result<(), Fail> {
    let name = "Halle 7: \"östlich\" \u{1F50B}\n";
    assert!(rt; name_again(rt.alloc(), name)?.as_str() == name);
    Ok(())
}

fn later(text: &str, seconds: u32) -> Result<u64, Refusal> {
    Ok(Moment::read(text)?.plus_seconds(seconds).nanos())
}

const LATER: [(&str, u32, u64); 3] = [
    ("2024-07-01T12:00:00Z", 0, 1_719_835_200_000_000_000),
    ("2024-07-01T12:00:00Z", 3600, 1_719_838_800_000_000_000),
    (
        "2199-12-31T23:59:59.999999999Z",
        1,
        7_258_118_399_999_999_999,
    ),
];

/// Row 21: the last moment plus a second is itself.
#[test]
fn later_moments(rt: HostRuntime) {
    for (text, seconds, nanos) in LATER {
        assert!(rt; later(text, seconds) == Ok(nanos), "{text}");
    }
}

fn nanos_again(nanos: u64) -> Result<u64, Refusal> {
    Ok(Moment::at(nanos)?.nanos())
}

#[test]
fn moments_in_range(rt: HostRuntime) {
    let last = 7_258_118_399_999_999_999;
    assert!(rt; nanos_again(last) == Ok(last));
    assert!(rt; nanos_again(last + 1) == Err(Refusal::BadShape));
}

fn needed_id(alloc: Global, object: &Value) -> Result<ObjectId, Fault> {
    needed(alloc, object, "id")
}

fn maybe_name(alloc: Global, object: &Value) -> Result<Option<Name>, Fault> {
    maybe(alloc, object, "name")
}

fn all_ids(alloc: Global, object: &Value) -> Result<Vec<ObjectId>, Fault> {
    match member(object, "ids") {
        Some(values) => all(alloc, list(values)?),
        None => Ok(Vec::new(alloc)),
    }
}

fn push_id(alloc: Global, line: &mut String, object: &Value) -> Result<(), Fault> {
    let id = needed_id(alloc, object)?;
    line.push_str(id.as_str())?;
    Ok(())
}

fn push_name(alloc: Global, line: &mut String, object: &Value) -> Result<(), Fault> {
    if let Some(name) = maybe_name(alloc, object)? {
        line.push_str(name.as_str())?;
    }
    Ok(())
}

fn push_ids(alloc: Global, line: &mut String, object: &Value) -> Result<(), Fault> {
    for id in all_ids(alloc, object)? {
        line.push_str(" ")?;
        line.push_str(id.as_str())?;
    }
    Ok(())
}

// Its id, its name and its ids.
fn line_of(alloc: Global, object: &Value) -> Result<String, Fault> {
    let mut line = String::new(alloc);
    push_id(alloc, &mut line, object)?;
    push_name(alloc, &mut line, object)?;
    push_ids(alloc, &mut line, object)?;
    Ok(line)
}

fn read(alloc: Global, text: &str) -> Result<String, Fault> {
    let object = read_value(alloc, text.as_bytes())?;
    line_of(alloc, &object)
}

#[test]
fn reads_members(rt: HostRuntime) -> Result<(), Fail> {
    let all = "{\"id\":\"a-1\",\"name\":\"Ost\",\"ids\":[\"a\",\"b\"]}";
    assert!(rt; read(rt.alloc(), all)?.as_str() == "a-1Ost a b");
    assert!(rt; read(rt.alloc(), "{\"id\":\"a-1\",\"name\":null}")?.as_str() == "a-1");
    Ok(())
}

fn put_texts(alloc: Global, members: &mut Map<String, Value>) -> Result<(), Refusal> {
    put(members, alloc, "name", &Name::new(alloc, "Ost")?)?;
    put(members, alloc, "id", &ObjectId::new(alloc, "a-1")?)?;
    put(members, alloc, "at", &Moment::at(1_500_000_000)?)?;
    Ok(())
}

fn put_numbers(alloc: Global, members: &mut Map<String, Value>) -> Result<(), AllocError> {
    put(members, alloc, "low", &-5i32)?;
    put(members, alloc, "wide", &-5000000000i64)?;
    put(members, alloc, "low", &-6i32)
}

fn put_some(alloc: Global, members: &mut Map<String, Value>) -> Result<(), AllocError> {
    put_maybe(members, alloc, "high", &Some(4294967295u32))?;
    put_maybe::<u32>(members, alloc, "none", &None)
}

fn written(alloc: Global) -> Result<String, Refusal> {
    let mut members = Map::new(alloc);
    put_texts(alloc, &mut members)?;
    put_numbers(alloc, &mut members)?;
    put_some(alloc, &mut members)?;
    Ok(Value::Object(members).to_string(alloc)?)
}

fn written_array(alloc: Global) -> Result<String, Refusal> {
    Ok(array(alloc, &[1i32, -2, 3])?.to_string(alloc)?)
}

const WRITTEN: &str =
    "{\"at\":\"1970-01-01T00:00:01.500000000Z\",\"high\":4294967295,\"id\":\"a-1\",\"low\":-6,\"name\":\"Ost\",\"wide\":-5000000000}";

#[test]
fn writes_members(rt: HostRuntime) -> Result<(), Fail> {
    assert!(rt; written(rt.alloc())?.as_str() == WRITTEN);
    assert!(rt; written_array(rt.alloc())?.as_str() == "[1,-2,3]");
    Ok(())
}

fn rows(alloc: Global) -> Result<Rows<u32>, AllocError> {
    let mut rows = Rows::new(alloc);
    rows.push(5u32)?;
    rows.push(3u32)?;
    Ok(rows)
}

#[test]
fn lists(rt: HostRuntime) -> Result<(), Fail> {
    let rows = rows(rt.alloc())?;
    assert!(rt; rows.len() == 2 && !rows.is_empty());
    let copy = Rows::from_vec(rows.clone()?.into_vec());
    assert!(rt; copy.as_slice() == [5, 3].as_slice());
    Ok(())
}

fn set(alloc: Global, table: &mut Table<ObjectId, u32>, id: &str, n: u32) -> Result<(), Refusal> {
    table.put(ObjectId::new(alloc, id)?, n)?;
    Ok(())
}

// The keys in their order, each with its value.
fn entries(alloc: Global, table: &Table<ObjectId, u32>) -> Result<String, AllocError> {
    let mut line = String::new(alloc);
    for (key, value) in table.iter() {
        line.push_str(format!(in alloc; "{}={value} ", key.as_str())?.as_str())?;
    }
    Ok(line)
}

fn table(alloc: Global) -> Result<Table<ObjectId, u32>, Refusal> {
    let mut table = Table::new(alloc);
    set(alloc, &mut table, "b", 1)?;
    set(alloc, &mut table, "a-2", 2)?;
    set(alloc, &mut table, "b", 3)?;
    Ok(table)
}

fn found(alloc: Global, table: &Table<ObjectId, u32>, id: &str) -> Result<Option<u32>, Refusal> {
    Ok(table.get(&ObjectId::new(alloc, id)?).copied())
}

fn removed(
    alloc: Global,
    table: &mut Table<ObjectId, u32>,
    id: &str,
) -> Result<Option<u32>, Refusal> {
    Ok(table.remove(&ObjectId::new(alloc, id)?))
}

#[test]
fn maps(rt: HostRuntime) -> Result<(), Fail> {
    let table = table(rt.alloc())?;
    assert!(rt; entries(rt.alloc(), &table)?.as_str() == "a-2=2 b=3 ");
    assert!(rt; found(rt.alloc(), &table, "b")? == Some(3));
    assert!(rt; found(rt.alloc(), &table, "c")? == None);
    Ok(())
}

// A removal from a clone leaves the map as it was.
#[test]
fn maps_without(rt: HostRuntime) -> Result<(), Fail> {
    let table = table(rt.alloc())?;
    let mut clone = table.clone()?;
    assert!(rt; removed(rt.alloc(), &mut clone, "b")? == Some(3));
    assert!(rt; clone.len() == 1 && table.len() == 2);
    Ok(())
}
