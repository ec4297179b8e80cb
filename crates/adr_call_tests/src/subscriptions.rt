//! Subscriptions: read, kept and written; which address may be called; of what one is told.
use crate::objects::stamps;
use adr_objects::{Number, OutboxCounts};
use adr_subscription::{
    BearerToken, ObjectKind, OperationKind, SubIn, SubObject, is_targeted, item_for, kept_text,
    read_kept, read_sub, settled,
};
use adr_text::{Name, Refusal};
use adr_written::{sub_id, write_counts, write_sub};
use std::alloc::{AllocError, Global};
use std::test::Fail;

const POSTED: &str =
    r#"{"targets":[],"programID":null,"objectOperations":[{"objects":["EVENT","EVENT"],"operations":["POST","PUT","DELETE"],"callbackUrl":"http://127.0.0.1:9000/n","bearerToken":"t0"}],"clientName":"ops"}"#;

const KEPT: &str =
    r#"{"clientName":"ops","objectOperations":[{"bearerToken":"t0","callbackUrl":"http://127.0.0.1:9000/n","objects":["EVENT","EVENT"],"operations":["POST","PUT","DELETE"]}],"targets":[]}"#;

const SHOWN: &str =
    r#"{"clientName":"ops","createdDateTime":"2024-07-01T10:00:00Z","id":"s6","modificationDateTime":"2024-07-01T10:00:00Z","objectOperations":[{"callbackUrl":"http://127.0.0.1:9000/n","objects":["EVENT","EVENT"],"operations":["POST","PUT","DELETE"]}],"objectType":"SUBSCRIPTION","targets":[]}"#;

fn read(alloc: Global, text: &str) -> Result<SubIn, Refusal> {
    read_sub(alloc, text.as_bytes())
}

// The text that is kept of a copy of what was posted.
fn kept(alloc: Global, text: &str) -> Result<String, Refusal> {
    Ok(kept_text(alloc, &read(alloc, text)?.clone()?)?)
}

// The same, of what the kept text is read as.
fn kept_again(alloc: Global, text: &str) -> Result<String, Refusal> {
    let sub = read_kept(alloc, kept(alloc, text)?.as_str())?;
    Ok(kept_text(alloc, &sub)?)
}

#[test]
fn kept_subscriptions(rt: HostRuntime) -> Result<(), Fail> {
    assert!(rt; kept(rt.alloc(), POSTED)?.as_str() == KEPT);
    assert!(rt; kept_again(rt.alloc(), POSTED)?.as_str() == KEPT);
    Ok(())
}

const REFUSED: [&str; 18] = [
    "",
    "[]",
    r#"{"objectOperations":[{"objects":["VEN"],"operations":["GET"],"callbackUrl":"a"}]}"#,
    r#"{"clientName":"","objectOperations":[{"objects":["VEN"],"operations":["GET"],"callbackUrl":"a"}]}"#,
    r#"{"clientName":"c"}"#,
    r#"{"clientName":"c","objectOperations":[]}"#,
    r#"{"clientName":"c","objectOperations":[7]}"#,
    r#"{"clientName":"c","programID":"p 1","objectOperations":[{"objects":["VEN"],"operations":["GET"],"callbackUrl":"a"}]}"#,
    r#"{"clientName":"c","objectOperations":[{"objects":[],"operations":["GET"],"callbackUrl":"a"}]}"#,
    r#"{"clientName":"c","objectOperations":[{"objects":["ven"],"operations":["GET"],"callbackUrl":"a"}]}"#,
    r#"{"clientName":"c","objectOperations":[{"objects":["VEN","VEN","VEN","VEN","VEN","VEN","VEN"],"operations":["GET"],"callbackUrl":"a"}]}"#,
    r#"{"clientName":"c","objectOperations":[{"objects":["VEN"],"operations":[],"callbackUrl":"a"}]}"#,
    r#"{"clientName":"c","objectOperations":[{"objects":["VEN"],"operations":["GET","PUT","GET","PUT","GET"],"callbackUrl":"a"}]}"#,
    r#"{"clientName":"c","objectOperations":[{"objects":["VEN"],"operations":["GET"]}]}"#,
    r#"{"clientName":"c","objectOperations":[{"objects":["VEN"],"operations":["GET"],"callbackUrl":"a","bearerToken":""}]}"#,
    r#"{"clientName":"c","objectOperations":[{"objects":["VEN"],"operations":["GET"],"callbackUrl":"a"}],"targets":{}}"#,
    r#"{"clientName":"c","objectOperations":[{"objects":["VEN"],"operations":["GET"],"callbackUrl":"a"}],"targets":[{"type":"VEN_NAME"}]}"#,
    r#"{"clientName":"c","objectOperations":[{"objects":["VEN"],"operations":["GET"],"callbackUrl":"a"}],"targets":[{"type":"VEN_NAME","values":[1]}]}"#,
];

fn refusal_of(alloc: Global, text: &str) -> u8 {
    match read(alloc, text) {
        Ok(_) => 0,
        Err(refusal) => refusal.number(),
    }
}

// Whatever is at fault, it is 14.
#[test]
fn refused_subscriptions(rt: HostRuntime) -> Result<(), Fail> {
    for text in REFUSED {
        assert!(rt; refusal_of(rt.alloc(), text) == 14);
    }
    Ok(())
}

fn shown(alloc: Global) -> Result<SubObject, Refusal> {
    Ok(SubObject {
        number: Number::new(6),
        sub: read(alloc, POSTED)?,
        stamps: stamps()?,
    })
}

fn written(alloc: Global) -> Result<String, Refusal> {
    Ok(write_sub(alloc, &shown(alloc)?)?)
}

#[test]
fn written_subscriptions(rt: HostRuntime) -> Result<(), Fail> {
    assert!(rt; written(rt.alloc())?.as_str() == SHOWN);
    assert!(rt; sub_id(rt.alloc(), Number::new(6))?.as_str() == "s6");
    Ok(())
}

#[test]
fn written_counts(rt: HostRuntime) -> Result<(), Fail> {
    let counts = OutboxCounts {
        made: 5,
        sent: 0,
        given_up: 1,
        dropped: 2,
        pending: 18446744073709551615,
    };
    let text = r#"{"dropped":2,"givenUp":1,"made":5,"pending":18446744073709551615,"sent":0}"#;
    assert!(rt; write_counts(rt.alloc(), &counts)?.as_str() == text);
    Ok(())
}

// So many items, behind one more.
fn items(alloc: Global, more: usize) -> Result<String, AllocError> {
    let item = r#"{"objects":["VEN"],"operations":["GET"],"callbackUrl":""}"#;
    let rest = format!(in alloc; ",{item}")?.as_str().repeat(alloc, more)?;
    format!(in alloc; "{{\"clientName\":\"c\",\"objectOperations\":[{item}{rest}]}}")
}

fn refusal_of_items(alloc: Global, more: usize) -> Result<u8, Refusal> {
    Ok(refusal_of(alloc, items(alloc, more)?.as_str()))
}

// A subscription has at most 16 items.
#[test]
fn lengths_of_items(rt: HostRuntime) -> Result<(), Fail> {
    assert!(rt; refusal_of_items(rt.alloc(), 15)? == 0);
    assert!(rt; refusal_of_items(rt.alloc(), 16)? == 14);
    Ok(())
}

fn is_token_of(alloc: Global, length: usize) -> Result<bool, AllocError> {
    let text = "~".repeat(alloc, length)?;
    Ok(BearerToken::new(alloc, text.as_str()).is_ok())
}

// A token has 1 to 1,024 characters from `!` to `~`.
#[test]
fn lengths_of_tokens(rt: HostRuntime) -> Result<(), Fail> {
    assert!(rt; !is_token_of(rt.alloc(), 0)?);
    assert!(rt; is_token_of(rt.alloc(), 1024)?);
    assert!(rt; !is_token_of(rt.alloc(), 1025)?);
    assert!(rt; BearerToken::new(rt.alloc(), "a b").is_err());
    Ok(())
}

// A subscription on events that are posted, with that address.
fn calling(alloc: Global, address: &str) -> Result<SubIn, Refusal> {
    let text = format!(in alloc;
        "{{\"clientName\":\"c\",\"objectOperations\":[{{\"objects\":[\"EVENT\"],\"operations\":[\"POST\"],\"callbackUrl\":\"{address}\"}}]}}"
    )?;
    read(alloc, text.as_str())
}

// The address that is kept, or the number of the refusal.
fn address(alloc: Global, text: &str) -> Result<String, Refusal> {
    match settled(alloc, calling(alloc, text)?) {
        Ok(sub) => match item_for(&sub, ObjectKind::Event, OperationKind::Post) {
            Some(item) => Ok(String::from_str(alloc, item.callback_url.as_str())?),
            None => Ok(String::new(alloc)),
        },
        Err(refusal) => Ok(format!(in alloc; "{}", refusal.number())?),
    }
}

const ADDRESSES: [(&str, &str); 10] = [
    ("http://127.0.0.1:9000/n", "http://127.0.0.1:9000/n"),
    ("HTTP://LocalHost:80", "http://localhost/"),
    ("http://[::1]/a b?c#d", "http://[::1]/a%20b?c#d"),
    ("http://0x7f.1/", "http://127.0.0.1/"),
    ("https://localhost/", "14"),
    ("http://u@localhost/", "14"),
    ("http://:p@localhost/", "14"),
    ("http://example.org/", "14"),
    ("localhost", "14"),
    ("", "14"),
];

#[test]
fn settled_addresses(rt: HostRuntime) -> Result<(), Fail> {
    for (posted, kept) in ADDRESSES {
        assert!(rt; address(rt.alloc(), posted)?.as_str() == kept);
    }
    Ok(())
}

fn is_settled(alloc: Global, more: usize) -> Result<bool, Refusal> {
    let path = "a".repeat(alloc, more)?;
    let address = format!(in alloc; "http://127.0.0.1/{path}")?;
    Ok(settled(alloc, calling(alloc, address.as_str())?).is_ok())
}

// An address has at most 1,024 bytes.
#[test]
fn lengths_of_addresses(rt: HostRuntime) -> Result<(), Fail> {
    assert!(rt; is_settled(rt.alloc(), 1007)?);
    assert!(rt; !is_settled(rt.alloc(), 1008)?);
    Ok(())
}

const TWO: &str =
    r#"{"clientName":"c","objectOperations":[{"objects":["EVENT"],"operations":["PUT"],"callbackUrl":"a"},{"objects":["PROGRAM","EVENT"],"operations":["PUT","POST"],"callbackUrl":"b"}],"targets":[{"type":"VEN_NAME","values":["alpha"]},{"type":"RESOURCE_NAME","values":["b1","b2"]},{"type":"GROUP","values":["beta"]}]}"#;

fn told_at(alloc: Global, kind: ObjectKind, operation: OperationKind) -> Result<String, Refusal> {
    let sub = read(alloc, TWO)?;
    match item_for(&sub, kind, operation) {
        Some(item) => Ok(String::from_str(alloc, item.callback_url.as_str())?),
        None => Ok(String::new(alloc)),
    }
}

#[test]
fn first_items(rt: HostRuntime) -> Result<(), Fail> {
    let event = ObjectKind::Event;
    let program = ObjectKind::Program;
    assert!(rt; told_at(rt.alloc(), event, OperationKind::Put)?.as_str() == "a");
    assert!(rt; told_at(rt.alloc(), event, OperationKind::Post)?.as_str() == "b");
    assert!(rt; told_at(rt.alloc(), program, OperationKind::Put)?.as_str() == "b");
    assert!(rt; told_at(rt.alloc(), program, OperationKind::Delete)?.as_str() == "");
    assert!(rt; told_at(rt.alloc(), ObjectKind::Report, OperationKind::Put)?.as_str() == "");
    Ok(())
}

fn is_about(alloc: Global, text: &str, ven: &str, resource: &str) -> Result<bool, Refusal> {
    let sub = read(alloc, text)?;
    Ok(is_targeted(&sub, &Name::new(alloc, ven)?, &Name::new(alloc, resource)?))
}

#[test]
fn targeted_events(rt: HostRuntime) -> Result<(), Fail> {
    assert!(rt; is_about(rt.alloc(), TWO, "alpha", "a1")?);
    assert!(rt; is_about(rt.alloc(), TWO, "beta", "b2")?);
    assert!(rt; !is_about(rt.alloc(), TWO, "beta", "b3")?);
    assert!(rt; !is_about(rt.alloc(), TWO, "b1", "alpha")?);
    assert!(rt; is_about(rt.alloc(), POSTED, "beta", "b3")?);
    Ok(())
}
