//! A reply that is larger than what a peer takes at once.
use crate::loopback::{ask, connect, free, getting, posting, read_reply, replied, start_under};
use std::alloc::{AllocError, Global};
use std::io::{Read, Write};
use std::test::Fail;
use std::thread;
use std::time::Duration;

/// How many subscriptions are listed, and how many letters each has. Together they are more than what is on its way to a
/// peer that does not read yet. (More would be posted and listed too slowly in a run with checks; a write that the system
/// takes a part of is a test of `paced` alone.)
const COUNT: u32 = 2;

const LETTERS: u32 = 150_000;

/// A text of so many letters.
fn letters(alloc: Global) -> Result<String, AllocError> {
    let mut text = String::new(alloc);
    for _ in 0..LETTERS {
        text.push('a')?;
    }
    Ok(text)
}

/// The subscription of a number, as it is answered.
fn written(alloc: Global, number: u32, letters: &str) -> Result<String, AllocError> {
    format!(in alloc;
        "{{\"clientName\":\"c\",\"createdDateTime\":\"2024-07-01T10:00:00Z\",\"id\":\"s{number}\",\"modificationDateTime\":\"2024-07-01T10:00:00Z\",\"objectOperations\":[{{\"callbackUrl\":\"http://127.0.0.1:9000/n\",\"objects\":[\"PROGRAM\"],\"operations\":[\"POST\"]}}],\"objectType\":\"SUBSCRIPTION\",\"targets\":[{{\"type\":\"X\",\"values\":[\"{letters}\"]}}]}}"
    )
}

/// The list of those from 1 on.
fn list(alloc: Global, letters: &str) -> Result<String, AllocError> {
    let mut list = String::new(alloc);
    for number in 1..=COUNT {
        list.push_str(if number == 1 { "[" } else { "," })?;
        list.push_str(written(alloc, number, letters)?.as_str())?;
    }
    list.push(']')?;
    Ok(list)
}

/// A client that reads the first byte, then nothing for a while, and then on. The reply comes to its last byte.
#[test]
fn a_large_reply_is_written_whole(rt: HostRuntime) -> Result<(), Fail> {
    let alloc = rt.alloc();
    let nobody = free(&rt)?;
    let node = start_under(
        rt,
        alloc,
        nobody,
        "\"poll\":1,\"workers\":1,\"stopAfter\":3",
    )?;
    let letters = letters(alloc)?;
    let body = format!(in alloc;
        "{{\"clientName\":\"c\",\"objectOperations\":[{{\"callbackUrl\":\"http://127.0.0.1:9000/n\",\"objects\":[\"PROGRAM\"],\"operations\":[\"POST\"]}}],\"targets\":[{{\"type\":\"X\",\"values\":[\"{letters}\"]}}]}}"
    )?;
    let post = posting(alloc, "/subscriptions", body.as_str())?;
    for _ in 0..COUNT {
        let posted = ask(&rt, alloc, node.at, post.as_bytes())?;
        assert!(rt; posted.as_str().starts_with("HTTP/1.1 201 Created\r\n"));
    }
    let mut stream = connect(&rt, node.at)?;
    stream.write_all(getting(alloc, "/subscriptions")?.as_bytes())?;
    let mut first = [0u8; 1];
    stream.read_exact(&mut first)?;
    // The node has begun to write.
    thread::sleep(&rt, Duration::from_millis(500));
    let rest = read_reply(alloc, &mut stream)?;
    drop(stream);
    assert!(rt; node.handle.join(&rt).is_ok());
    let whole = replied(alloc, "200 OK", list(alloc, letters.as_str())?.as_str())?;
    assert_eq!(rt; first, *b"H");
    assert_eq!(rt;
        rest.as_str().len().checked_add(1),
        Some(whole.as_str().len())
    );
    assert!(rt;
        Some(rest.as_str()) == whole.as_str().strip_prefix('H'),
        "the reply is another"
    );
    Ok(())
}
