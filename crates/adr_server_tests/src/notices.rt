//! A notification on its way, from the utility's page to the callback of who subscribed.
use crate::loopback::{ask, free, getting, posting, replied, start_under};
use crate::standin::{Answer, Answers, EVENTS, MORE_PROGRAMS, PROGRAMS, StandIn};
use std::alloc::{AllocError, Global};
use std::net::{SocketAddr, TcpListener};
use std::test::Fail;
use std::thread;
use std::time::Duration;

/// A utility that has one program.
const ONE_PROGRAM: &[Answers] = &[
    Answers {
        target: PROGRAMS,
        each: &[Answer::Page(
            "[{\"id\":\"p1\",\"modificationDateTime\":\"2024-07-01T09:00:00Z\",\"programName\":\"dr\"}]",
        )],
    },
    Answers {
        target: MORE_PROGRAMS,
        each: &[Answer::Page("[]")],
    },
    Answers {
        target: EVENTS,
        each: &[Answer::Page("[]")],
    },
];

/// Who is notified.
const NOTIFIED: &[Answers] = &[Answers {
    target: "/n?a=b",
    each: &[Answer::Page("{}")],
}];

/// What is told of the program.
const TOLD: &str =
    "{\"object\":{\"createdDateTime\":\"2024-07-01T10:00:00Z\",\"id\":\"p1\",\"modificationDateTime\":\"2024-07-01T10:00:00Z\",\"objectType\":\"PROGRAM\",\"programName\":\"dr\"},\"objectType\":\"PROGRAM\",\"operation\":\"POST\"}";

/// What the outbox counts where all that was made, one entry, was sent.
const ONE_SENT: &str = "{\"dropped\":0,\"givenUp\":0,\"made\":1,\"pending\":0,\"sent\":1}";

/// The operator's subscription to new programs, with an address there.
fn subscription(alloc: Global, callback: SocketAddr) -> Result<String, AllocError> {
    format!(in alloc;
        "{{\"clientName\":\"c\",\"objectOperations\":[{{\"objects\":[\"PROGRAM\"],\"operations\":[\"POST\"],\"callbackUrl\":\"http://{callback}/n?a=b\",\"bearerToken\":\"cb\"}}]}}"
    )
}

/// The request for a page, with the utility's token.
fn page(alloc: Global, utility: SocketAddr, target: &str) -> Result<String, AllocError> {
    format!(in alloc;
        "GET {target} HTTP/1.1\r\nHost: {utility}\r\nAuthorization: Bearer up\r\nAccept: application/json\r\nConnection: close\r\n\r\n"
    )
}

/// The request that tells of the program, with the token of the subscription.
fn notice(alloc: Global, callback: SocketAddr) -> Result<String, AllocError> {
    let length = TOLD.len();
    format!(in alloc;
        "POST /n?a=b HTTP/1.1\r\nHost: {callback}\r\nAuthorization: Bearer cb\r\nAccept: application/json\r\nContent-Type: application/json\r\nContent-Length: {length}\r\nConnection: close\r\n\r\n{TOLD}"
    )
}

/// Nothing waits beside it, and it goes out: once, to its callback, with the token of its subscription. To the utility go the
/// requests for pages, with the utility's token, and nothing else.
#[test]
fn a_notification_goes_out_alone(rt: HostRuntime) -> Result<(), Fail> {
    let alloc = rt.alloc();
    let listener = TcpListener::bind(&rt, "127.0.0.1:0")?;
    let at = listener.local_addr()?;
    let callback = StandIn::start(rt, alloc, TcpListener::bind(&rt, "127.0.0.1:0")?, NOTIFIED)?;
    let notice = notice(alloc, callback.at)?;
    let node = start_under(
        rt,
        alloc,
        at,
        "\"upstreamToken\":\"up\",\"poll\":1,\"workers\":2,\"stopAfter\":2",
    )?;
    let subscription = subscription(alloc, callback.at)?;
    let posted = ask(
        &rt,
        alloc,
        node.at,
        posting(alloc, "/subscriptions", subscription.as_str())?.as_bytes(),
    )?;
    // The utility answers from here on, so that the program comes when the subscription is there.
    let utility = StandIn::start(rt, alloc, listener, ONE_PROGRAM)?;
    let came = callback.wait(&rt, 1);
    // Long enough for a further round, and for a second sending, if there were one.
    thread::sleep(&rt, Duration::from_millis(2_500));
    let counts = ask(&rt, alloc, node.at, getting(alloc, "/outbox")?.as_bytes())?;
    assert!(rt; node.handle.join(&rt).is_ok());
    let told = callback.stop(&rt)?;
    let asked = utility.stop(&rt)?;
    assert!(rt; came, "the notification never comes");
    assert_eq!(rt; told.len(), 1, "the callback is called once");
    for one in told {
        assert_eq!(rt; one.text.as_str(), notice.as_str());
    }
    let programs = page(alloc, at, PROGRAMS)?;
    let more = page(alloc, at, MORE_PROGRAMS)?;
    let events = page(alloc, at, EVENTS)?;
    assert!(rt; 4 <= asked.len(), "two rounds begin");
    for one in asked {
        let text = one.text.as_str();
        assert!(rt;
            text == programs.as_str() || text == more.as_str() || text == events.as_str(),
            "the utility gets {text}"
        );
    }
    assert!(rt; posted.as_str().starts_with("HTTP/1.1 201 Created\r\n"));
    let sent = replied(alloc, "200 OK", ONE_SENT)?;
    assert_eq!(rt; counts.as_str(), sent.as_str());
    Ok(())
}

/// An entry whose callback nobody answers at waits: it is not counted as sent.
#[test]
fn a_notification_that_fails_waits(rt: HostRuntime) -> Result<(), Fail> {
    let alloc = rt.alloc();
    let nobody = free(&rt)?;
    let listener = TcpListener::bind(&rt, "127.0.0.1:0")?;
    let node = start_under(
        rt,
        alloc,
        listener.local_addr()?,
        "\"poll\":1,\"workers\":1,\"stopAfter\":2",
    )?;
    let subscription = subscription(alloc, nobody)?;
    let posted = ask(
        &rt,
        alloc,
        node.at,
        posting(alloc, "/subscriptions", subscription.as_str())?.as_bytes(),
    )?;
    let utility = StandIn::start(rt, alloc, listener, ONE_PROGRAM)?;
    let came = utility.wait(&rt, 4);
    thread::sleep(&rt, Duration::from_millis(1_500));
    let counts = ask(&rt, alloc, node.at, getting(alloc, "/outbox")?.as_bytes())?;
    assert!(rt; node.handle.join(&rt).is_ok());
    let _asked = utility.stop(&rt)?;
    assert!(rt; posted.as_str().starts_with("HTTP/1.1 201 Created\r\n"));
    assert!(rt; came, "a second round begins");
    let waits = replied(
        alloc,
        "200 OK",
        "{\"dropped\":0,\"givenUp\":0,\"made\":1,\"pending\":1,\"sent\":0}",
    )?;
    assert_eq!(rt; counts.as_str(), waits.as_str());
    Ok(())
}
