//! Days over loopback, of what no clause can say: that connections are served side by side and to their end, and that a
//! peer who does not do its part holds up no other.
use crate::calling::{job, networks, peers};
use crate::loopback::{
    CREATED, CUT, GET, LISTED, NONE, POST, ask, config, connect, read_reply, serve, start,
};
use adr_link::Outcome;
use adr_lock::Clock;
use adr_network::Networks;
use adr_server::{HostClock, NodeFault, SocketGate, StoppedGate};
use adr_text::Moment;
use adr_work::{SendFault, send};
use std::alloc::Global;
use std::io::{Read, Write};
use std::net::{Net, Shutdown, SocketAddr, TcpListener, TcpStream};
use std::sync::Arc;
use std::sync::atomic::AtomicBool;
use std::test::Fail;
use std::time::{Duration, Instant};
use std::{io, thread, time};

const MALFORMED: &str =
    "HTTP/1.1 400 Bad Request\r\nContent-Type: application/json\r\nContent-Length: 64\r\nConnection: close\r\n\r\n{\"detail\":\"malformed request\",\"status\":400,\"title\":\"BadRequest\"}";

const TOO_LARGE: &str =
    "HTTP/1.1 413 Payload Too Large\r\nContent-Type: application/json\r\nContent-Length: 62\r\nConnection: close\r\n\r\n{\"detail\":\"request too large\",\"status\":413,\"title\":\"TooLarge\"}";

/// A request, and what no request is behind it.
const POST_AND_MORE: &[u8] =
    b"POST /vens HTTP/1.1\r\nHost: x\r\nAuthorization: Bearer t0\r\nContent-Length: 19\r\n\r\n{\"venName\":\"alpha\"}\x00GET / \r\n\r\n";
/// The front of a request whose body is larger than any that is taken.
const LARGE: &[u8] =
    b"POST /vens HTTP/1.1\r\nHost: x\r\nAuthorization: Bearer t0\r\nContent-Length: 4096000\r\n\r\n";

/// Row 26: a node of one worker that stops after two connections, with an upstream at which nobody listens. Ven `alpha`
/// is enrolled on one connection (the reply of row 17) and listed on a second (a 200 of that object in brackets, 137
/// bytes), and it stops.
#[test]
fn a_day(rt: HostRuntime) -> Result<(), Fail> {
    let alloc = rt.alloc();
    let node = start(rt, alloc, 1, 2)?;
    let created = ask(&rt, alloc, node.at, POST)?;
    let listed = ask(&rt, alloc, node.at, GET)?;
    assert!(rt; node.handle.join(&rt).is_ok());
    assert_eq!(rt; created.as_str(), CREATED);
    assert_eq!(rt; listed.as_str(), LISTED);
    assert!(rt;
        TcpStream::connect(&rt, node.at).is_err(),
        "it listens no more"
    );
    Ok(())
}

/// Whether so many requests one after the other are each answered within two seconds.
fn are_quick<R>(rt: &R, alloc: Global, at: SocketAddr, count: u32) -> io::Result<bool>
where
    R: Net<Listener = TcpListener, Stream = TcpStream> + time::Clock,
{
    let mut quick = true;
    for _ in 0..count {
        let begun = Instant::now(rt)?;
        let reply = ask(rt, alloc, at, GET)?;
        quick &= begun.elapsed(rt)? < Duration::from_secs(2) && reply.as_str() == NONE;
    }
    Ok(quick)
}

#[test]
fn peers_that_do_nothing(rt: HostRuntime) -> Result<(), Fail> {
    let alloc = rt.alloc();
    let node = start(rt, alloc, 3, 10)?;
    let silent = connect(&rt, node.at)?;
    let mut deaf = connect(&rt, node.at)?;
    deaf.write_all(GET)?;
    assert!(rt; are_quick(&rt, alloc, node.at, 8)?);
    drop(silent);
    drop(deaf);
    assert!(rt; node.handle.join(&rt).is_ok());
    Ok(())
}

/// Two silent peers have both passes. Who comes then waits for the first of them to be given up.
#[test]
fn silent_peers_alone(rt: HostRuntime) -> Result<(), Fail> {
    let alloc = rt.alloc();
    let node = start(rt, alloc, 2, 3)?;
    let mut first = connect(&rt, node.at)?;
    let mut second = connect(&rt, node.at)?;
    let listed = ask(&rt, alloc, node.at, GET)?;
    assert_eq!(rt; listed.as_str(), NONE);
    assert!(rt; read_reply(alloc, &mut first)?.is_empty());
    assert!(rt; read_reply(alloc, &mut second)?.is_empty());
    assert!(rt; node.handle.join(&rt).is_ok());
    Ok(())
}

#[test]
fn a_byte_at_a_time(rt: HostRuntime) -> Result<(), Fail> {
    let alloc = rt.alloc();
    let node = start(rt, alloc, 1, 1)?;
    let mut stream = connect(&rt, node.at)?;
    stream.set_nodelay(true)?;
    for byte in POST {
        stream.write_all(&[*byte])?;
        thread::sleep(&rt, Duration::from_millis(2));
    }
    let created = read_reply(alloc, &mut stream)?;
    assert_eq!(rt; created.as_str(), CREATED);
    assert!(rt; node.handle.join(&rt).is_ok());
    Ok(())
}

#[test]
fn a_body_that_is_too_large(rt: HostRuntime) -> Result<(), Fail> {
    let alloc = rt.alloc();
    let node = start(rt, alloc, 1, 1)?;
    let mut stream = connect(&rt, node.at)?;
    stream.write_all(LARGE)?;
    for _ in 0..1000u32 {
        stream.write_all(&[b' '; 4096])?;
    }
    let told = read_reply(alloc, &mut stream)?;
    assert_eq!(rt; told.as_str(), TOO_LARGE);
    assert!(rt; node.handle.join(&rt).is_ok());
    Ok(())
}

#[test]
fn connections_that_are_cut(rt: HostRuntime) -> Result<(), Fail> {
    let alloc = rt.alloc();
    let node = start(rt, alloc, 2, 4)?;
    let mut half = connect(&rt, node.at)?;
    half.write_all(CUT)?;
    half.shutdown(Shutdown::Write)?;
    let told = read_reply(alloc, &mut half)?;
    assert_eq!(rt; told.as_str(), MALFORMED);
    let mut gone = connect(&rt, node.at)?;
    gone.write_all(CUT)?;
    drop(gone);
    let listed = ask(&rt, alloc, node.at, GET)?;
    assert_eq!(rt; listed.as_str(), NONE);
    let created = ask(&rt, alloc, node.at, POST_AND_MORE)?;
    assert_eq!(rt;
        created.as_str(),
        CREATED,
        "what stands behind a request is passed over"
    );
    assert!(rt; node.handle.join(&rt).is_ok());
    Ok(())
}

#[test]
fn a_taken_address(rt: HostRuntime) -> Result<(), Fail> {
    let alloc = rt.alloc();
    let taken = TcpListener::bind(&rt, "127.0.0.1:0")?;
    let config = config(alloc, taken.local_addr()?, 1, 1)?;
    assert_eq!(rt; serve(rt, alloc, &config), Err(NodeFault::Bind));
    Ok(())
}

/// Answers so many connections, each by a 200 to whatever it asks.
fn answer_each(listener: &TcpListener, count: u32) -> io::Result<()> {
    for _ in 0..count {
        let (mut stream, _) = listener.accept()?;
        let mut asked = [0u8; 4096];
        let _ = stream.read(&mut asked)?;
        stream.write_all(b"HTTP/1.1 200 OK\r\nContent-Length: 2\r\n\r\n{}")?;
    }
    Ok(())
}

/// A subscription is called in the networks that are named alone, and the utility wherever it is. Nobody is called once
/// the node is to stop.
#[test]
fn who_may_be_called(rt: HostRuntime) -> Result<(), Fail> {
    let alloc = rt.alloc();
    let listener = TcpListener::bind(&rt, "127.0.0.1:0")?;
    let at = listener.local_addr()?;
    let answers = match thread::spawn(&rt, move || answer_each(&listener, 2).is_ok()) {
        Ok(handle) => handle,
        Err(_) => return Err(Fail::new("no thread")),
    };
    let address = format!(in alloc; "http://{at}/n")?;
    let subscriber = job(alloc, 6, address.as_str())?;
    let none = peers(alloc, address.as_str(), networks(alloc, None)?)?;
    let mut gate = SocketGate::new(rt, alloc, &none.upstream)?;
    assert!(rt;
        matches!(
            send(alloc, &mut gate, &none, &subscriber),
            Err(SendFault::NotAllowed)
        )
    );
    let other = peers(
        alloc,
        address.as_str(),
        networks(alloc, Some("127.0.0.2/32"))?,
    )?;
    assert!(rt;
        matches!(
            send(alloc, &mut gate, &other, &subscriber),
            Err(SendFault::NotAllowed)
        )
    );
    let utility = job(alloc, 0, "/reports")?;
    assert!(rt;
        matches!(
            send(alloc, &mut gate, &none, &utility),
            Ok(Outcome::Sent(_))
        )
    );
    let any = peers(alloc, address.as_str(), Networks::any())?;
    let mut stopped = StoppedGate::new(
        SocketGate::new(rt, alloc, &any.upstream)?,
        Arc::new(alloc, AtomicBool::new(true))?,
    );
    assert!(rt;
        matches!(
            send(alloc, &mut stopped, &any, &subscriber),
            Ok(Outcome::Failed { forget: false })
        )
    );
    assert!(rt;
        matches!(
            send(alloc, &mut stopped, &any, &utility),
            Ok(Outcome::Failed { forget: false })
        )
    );
    let own = peers(
        alloc,
        address.as_str(),
        networks(alloc, Some("127.0.0.0/8"))?,
    )?;
    assert!(rt;
        matches!(
            send(alloc, &mut gate, &own, &subscriber),
            Ok(Outcome::Sent(None))
        )
    );
    assert!(rt; answers.join(&rt));
    Ok(())
}

/// The system's clock is past the moment at which this was written, and does not stand still for long.
#[test]
fn the_clock(rt: HostRuntime) -> Result<(), Fail> {
    let written = Moment::read("2024-07-01T10:00:00Z")?;
    let first = HostClock(rt).now(&rt);
    thread::sleep(&rt, Duration::from_millis(20));
    let second = HostClock(rt).now(&rt);
    assert!(rt; written.nanos() < first.nanos());
    assert!(rt; first.nanos() < second.nanos());
    Ok(())
}
