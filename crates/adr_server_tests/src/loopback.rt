//! A node that serves over loopback, and a client that asks it, for the tests.
use adr_config::Config;
use adr_lock::Clock;
use adr_server::{NodeFault, serve_with};
use adr_text::Moment;
use log::sink::Discard;
use log::{LevelFilter, Logged};
use std::alloc::{AllocError, Global};
use std::io::{Read, Write};
use std::net::{Net, SocketAddr, TcpListener, TcpStream};
use std::sync::atomic::{AtomicBool, Ordering};
use std::sync::{Arc, Wait};
use std::test::Fail;
use std::thread::{JoinHandle, Threads};
use std::time::Duration;
use std::{io, thread, time};

pub const CREATED: &str =
    "HTTP/1.1 201 Created\r\nContent-Type: application/json\r\nContent-Length: 135\r\nConnection: close\r\n\r\n{\"createdDateTime\":\"2024-07-01T10:00:00Z\",\"id\":\"v1\",\"modificationDateTime\":\"2024-07-01T10:00:00Z\",\"objectType\":\"VEN\",\"venName\":\"alpha\"}";

/// The one ven, listed.
pub const LISTED: &str =
    "HTTP/1.1 200 OK\r\nContent-Type: application/json\r\nContent-Length: 137\r\nConnection: close\r\n\r\n[{\"createdDateTime\":\"2024-07-01T10:00:00Z\",\"id\":\"v1\",\"modificationDateTime\":\"2024-07-01T10:00:00Z\",\"objectType\":\"VEN\",\"venName\":\"alpha\"}]";

pub const NONE: &str =
    "HTTP/1.1 200 OK\r\nContent-Type: application/json\r\nContent-Length: 2\r\nConnection: close\r\n\r\n[]";

pub const POST: &[u8] =
    b"POST /vens HTTP/1.1\r\nHost: x\r\nAuthorization: Bearer t0\r\nTransfer-Encoding: chunked\r\n\r\n13\r\n{\"venName\":\"alpha\"}\r\n0\r\n\r\n";

pub const GET: &[u8] = b"GET /vens HTTP/1.1\r\nHost: x\r\nAuthorization: Bearer t0\r\n\r\n";

/// A request whose connection ends in the middle of its body.
pub const CUT: &[u8] =
    b"POST /vens HTTP/1.1\r\nHost: x\r\nAuthorization: Bearer t0\r\nTransfer-Encoding: chunked\r\n\r\n13\r\n{\"venN";

/// A clock that stands still.
#[derive(Clone, Copy, Drop)]
pub struct Still(pub Moment);

impl Clock for Still {
    ghost use Rattle.std.specs.Prelude.{◌≡◌};

    ghost tells = { λ clock moment. moment ≡ clock.0 };

    fn now<R: Wait>(&self, _rt: &R) -> Moment {
        self.0
    }
}

/// A node that serves, where, and whether it has ended.
#[derive(Drop)]
pub struct Node {
    pub at: SocketAddr,
    pub handle: JoinHandle<Result<(), NodeFault>>,
    pub ended: Arc<AtomicBool, Global>,
}

/// A configuration: where to listen, the address of the utility, and the further members.
fn configured(alloc: Global, at: SocketAddr, utility: &str, members: &str) -> Result<Config, Fail> {
    let text = format!(in alloc;
        "{{\"listen\":\"{at}\",\"upstream\":\"http://{utility}/openadr3\",\"clientName\":\"aggregator\",\"tokens\":[{{\"token\":\"t0\",\"role\":\"operator\"}}],{members}}}"
    )?;
    Ok(Config::read(alloc, text.as_bytes())?)
}

/// A configuration: where to listen, how many workers, after how many connections to stop. Nobody listens at the utility.
pub fn config(alloc: Global, at: SocketAddr, workers: u64, most: u64) -> Result<Config, Fail> {
    let members = format!(in alloc; "\"poll\":1,\"workers\":{workers},\"stopAfter\":{most}")?;
    configured(alloc, at, "127.0.0.1:1", members.as_str())
}

pub fn serve<R>(rt: R, alloc: Global, config: &Config) -> Result<(), NodeFault>
where
    R: Net<Listener = TcpListener, Stream = TcpStream>
        + Threads
        + Wait
        + time::Clock
        + Copy
        + Drop
        + Send
        + 'static,
{
    match Moment::read("2024-07-01T10:00:00Z") {
        Ok(at) => {
            let quiet = Logged::new(rt, LevelFilter::Off, Discard);
            serve_with(quiet, rt, alloc, config, Still(at))
        }
        Err(_) => Err(NodeFault::Store),
    }
}

/// An address at which nobody listens.
pub fn free<R: Net<Listener = TcpListener, Stream = TcpStream>>(rt: &R) -> io::Result<SocketAddr> {
    TcpListener::bind(rt, "127.0.0.1:0")?.local_addr()
}

/// Starts a node by its configuration, which says to listen there.
fn start_by<R>(rt: R, alloc: Global, at: SocketAddr, config: Config) -> Result<Node, Fail>
where
    R: Net<Listener = TcpListener, Stream = TcpStream>
        + Threads
        + Wait
        + time::Clock
        + Copy
        + Drop
        + Send
        + 'static,
{
    let ended = Arc::new(alloc, AtomicBool::new(false))?;
    let told = Arc::try_clone(&ended)?;
    let work = move || -> Result<(), NodeFault> {
        let served = serve(rt, alloc, &config);
        told.store(true, Ordering::SeqCst);
        served
    };
    match thread::spawn(&rt, work) {
        Ok(handle) => Ok(Node { at, handle, ended }),
        Err(_) => Err(Fail::new("no thread")),
    }
}

/// Starts a node with so many workers that stops after so many connections.
pub fn start<R>(rt: R, alloc: Global, workers: u64, most: u64) -> Result<Node, Fail>
where
    R: Net<Listener = TcpListener, Stream = TcpStream>
        + Threads
        + Wait
        + time::Clock
        + Copy
        + Drop
        + Send
        + 'static,
{
    let at = free(&rt)?;
    start_by(rt, alloc, at, config(alloc, at, workers, most)?)
}

/// Starts a node whose utility listens there, and whose configuration has these members too.
pub fn start_under<R>(
    rt: R,
    alloc: Global,
    utility: SocketAddr,
    members: &str,
) -> Result<Node, Fail>
where
    R: Net<Listener = TcpListener, Stream = TcpStream>
        + Threads
        + Wait
        + time::Clock
        + Copy
        + Drop
        + Send
        + 'static,
{
    let at = free(&rt)?;
    let utility = format!(in alloc; "{utility}")?;
    let config = configured(alloc, at, utility.as_str(), members)?;
    start_by(rt, alloc, at, config)
}

/// Connects, as soon as somebody listens there.
pub fn connect<R>(rt: &R, at: SocketAddr) -> io::Result<TcpStream>
where
    R: Net<Listener = TcpListener, Stream = TcpStream> + time::Clock,
{
    for _ in 0..200u32 {
        if let Ok(stream) = TcpStream::connect(rt, at) {
            return Ok(stream);
        }
        thread::sleep(rt, Duration::from_millis(20));
    }
    TcpStream::connect(rt, at)
}

pub fn read_reply(alloc: Global, stream: &mut TcpStream) -> io::Result<String> {
    let mut reply = String::new(alloc);
    stream.read_to_string(&mut reply)?;
    Ok(reply)
}

pub fn ask<R>(rt: &R, alloc: Global, at: SocketAddr, request: &[u8]) -> io::Result<String>
where
    R: Net<Listener = TcpListener, Stream = TcpStream> + time::Clock,
{
    let mut stream = connect(rt, at)?;
    stream.write_all(request)?;
    read_reply(alloc, &mut stream)
}

/// The operator's request to post a body there.
pub fn posting(alloc: Global, path: &str, body: &str) -> Result<String, AllocError> {
    let length = body.len();
    format!(in alloc;
        "POST {path} HTTP/1.1\r\nHost: x\r\nAuthorization: Bearer t0\r\nContent-Length: {length}\r\n\r\n{body}"
    )
}

/// The operator's request to get what is there.
pub fn getting(alloc: Global, path: &str) -> Result<String, AllocError> {
    format!(in alloc; "GET {path} HTTP/1.1\r\nHost: x\r\nAuthorization: Bearer t0\r\n\r\n")
}

/// The reply of a status and its phrase with a body.
pub fn replied(alloc: Global, status: &str, body: &str) -> Result<String, AllocError> {
    let length = body.len();
    format!(in alloc;
        "HTTP/1.1 {status}\r\nContent-Type: application/json\r\nContent-Length: {length}\r\nConnection: close\r\n\r\n{body}"
    )
}
