//! What the gate over sockets sends, to the byte, to whom, and nothing else.
use crate::calling::job;
use adr_delivery::JobMethod;
use adr_link::{Outcome, Upstream};
use adr_network::Networks;
use adr_objects::Kind;
use adr_server::SocketGate;
use adr_subscription::BearerToken;
use adr_text::{ObjectId, Rows};
use adr_work::{Callee, Gate, Peers, Request, send};
use std::alloc::Global;
use std::io::{Read, Write};
use std::net::{SocketAddr, TcpListener};
use std::test::Fail;
use std::thread::{JoinHandle, Threads};
use std::{io, thread};

/// Whether the next that connects sends this and then nothing more. It is answered an object in between.
fn hears(alloc: Global, listener: &TcpListener, wanted: &str) -> io::Result<bool> {
    let (mut stream, _) = listener.accept()?;
    let mut heard = Vec::from_elem(alloc, 0u8, wanted.len())?;
    stream.read_exact(heard.as_mut_slice())?;
    stream.write_all(b"HTTP/1.1 200 OK\r\nContent-Length: 11\r\n\r\n{\"id\":\"x7\"}")?;
    let mut rest = [0u8; 1];
    let more = stream.read(&mut rest)?;
    Ok(heard.as_slice() == wanted.as_bytes() && more == 0)
}

/// How many of these come, each on a connection of its own, up to the first that doesn't.
fn heard(alloc: Global, listener: &TcpListener, wanted: &Vec<String>) -> usize {
    let mut count = 0usize;
    for text in wanted.as_slice() {
        match hears(alloc, listener, text.as_str()) {
            Ok(true) => count = count.saturating_add(1),
            _ => break,
        }
    }
    count
}

fn listen<R: Threads>(
    rt: &R,
    alloc: Global,
    listener: TcpListener,
    wanted: Vec<String>,
) -> Result<JoinHandle<usize>, Fail> {
    match thread::spawn(rt, move || heard(alloc, &listener, &wanted)) {
        Ok(handle) => Ok(handle),
        Err(_) => Err(Fail::new("no thread")),
    }
}

/// What comes to the utility: a page, an object, a new report, and one in the place of another, each with its token.
fn to_utility(alloc: Global, at: &SocketAddr) -> Result<Vec<String>, Fail> {
    let mut wanted = Vec::new(alloc);
    wanted.push(format!(in alloc;
        "GET /openadr3/events?skip=50&limit=50 HTTP/1.1\r\nHost: {at}\r\nAuthorization: Bearer up\r\nAccept: application/json\r\nConnection: close\r\n\r\n"
    )?)?;
    wanted.push(format!(in alloc;
        "GET /openadr3/programs/p1 HTTP/1.1\r\nHost: {at}\r\nAuthorization: Bearer up\r\nAccept: application/json\r\nConnection: close\r\n\r\n"
    )?)?;
    wanted.push(format!(in alloc;
        "POST /openadr3/reports HTTP/1.1\r\nHost: {at}\r\nAuthorization: Bearer up\r\nAccept: application/json\r\nContent-Type: application/json\r\nContent-Length: 2\r\nConnection: close\r\n\r\n{{}}"
    )?)?;
    wanted.push(format!(in alloc;
        "PUT /openadr3/reports/x7 HTTP/1.1\r\nHost: {at}\r\nAuthorization: Bearer up\r\nAccept: application/json\r\nContent-Type: application/json\r\nContent-Length: 2\r\nConnection: close\r\n\r\n{{}}"
    )?)?;
    Ok(wanted)
}

/// What comes to the callback: one notification, with the subscription's own token, and one without any.
fn to_callback(alloc: Global, at: &SocketAddr) -> Result<Vec<String>, Fail> {
    let mut wanted = Vec::new(alloc);
    wanted.push(format!(in alloc;
        "POST /n?a=1 HTTP/1.1\r\nHost: {at}\r\nAuthorization: Bearer cb\r\nAccept: application/json\r\nContent-Type: application/json\r\nContent-Length: 2\r\nConnection: close\r\n\r\n{{}}"
    )?)?;
    wanted.push(format!(in alloc;
        "POST /n?a=1 HTTP/1.1\r\nHost: {at}\r\nAccept: application/json\r\nContent-Type: application/json\r\nContent-Length: 2\r\nConnection: close\r\n\r\n{{}}"
    )?)?;
    Ok(wanted)
}

fn request(bytes: Vec<u8>) -> Request {
    Request {
        to: Callee::Utility,
        bytes: Rows::from_vec(bytes),
    }
}

#[test]
fn each_request_goes_whole_to_whom_it_is_for(rt: HostRuntime) -> Result<(), Fail> {
    let alloc = rt.alloc();
    let utility = TcpListener::bind(&rt, "127.0.0.1:0")?;
    let callback = TcpListener::bind(&rt, "127.0.0.1:0")?;
    let address = format!(in alloc; "http://{}/openadr3", utility.local_addr()?)?;
    let target = format!(in alloc; "http://{}/n?a=1", callback.local_addr()?)?;
    let for_utility = to_utility(alloc, &utility.local_addr()?)?;
    let for_callback = to_callback(alloc, &callback.local_addr()?)?;
    let at_utility = listen(&rt, alloc, utility, for_utility)?;
    let at_callback = listen(&rt, alloc, callback, for_callback)?;
    let peers = Peers {
        upstream: Upstream::new(alloc, address.as_str(), Some("up"))?,
        callbacks: Networks::any(),
    };
    let mut gate = SocketGate::new(rt, alloc, &peers.upstream)?;
    let page = request(peers.upstream.page_request(alloc, Kind::Event, 50)?);
    assert!(rt; gate.ask(&page).is_ok());
    let id = ObjectId::new(alloc, "p1")?;
    let probe = request(peers.upstream.probe_request(alloc, Kind::Program, &id)?);
    assert!(rt; gate.ask(&probe).is_ok());
    let posted = job(alloc, 0, "/reports")?;
    assert!(rt;
        matches!(send(alloc, &mut gate, &peers, &posted), Ok(Outcome::Sent(Some(id))) if id.as_str() == "x7")
    );
    let mut put = job(alloc, 0, "/reports/x7")?;
    put.method = JobMethod::Put;
    assert!(rt;
        matches!(
            send(alloc, &mut gate, &peers, &put),
            Ok(Outcome::Sent(None))
        )
    );
    let mut with_token = job(alloc, 6, target.as_str())?;
    with_token.token = Some(BearerToken::new(alloc, "cb")?);
    let without = job(alloc, 6, target.as_str())?;
    for notice in [with_token, without] {
        assert!(rt;
            matches!(
                send(alloc, &mut gate, &peers, &notice),
                Ok(Outcome::Sent(None))
            )
        );
    }
    assert_eq!(rt; at_utility.join(&rt), 4);
    assert_eq!(rt; at_callback.join(&rt), 2);
    Ok(())
}
