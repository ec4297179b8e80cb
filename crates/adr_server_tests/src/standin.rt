//! A stand-in, for the tests, for the utility and for who is notified: it answers by a table, and keeps what came.
use std::alloc::{AllocError, Global};
use std::io::{Read, Write};
use std::net::{Net, Shutdown, SocketAddr, TcpListener, TcpStream};
use std::str::from_utf8;
use std::sync::Arc;
use std::sync::atomic::{AtomicBool, AtomicU64, Ordering};
use std::test::Fail;
use std::thread::{JoinHandle, Threads};
use std::time::{Clock, Duration, Instant};
use std::{io, thread};

/// What the utility is asked for: the programs, those behind the first, and the events.
pub const PROGRAMS: &str = "/openadr3/programs?skip=0&limit=50";

pub const MORE_PROGRAMS: &str = "/openadr3/programs?skip=1&limit=50";

pub const EVENTS: &str = "/openadr3/events?skip=0&limit=50";

/// How many connections it takes at most, so that it ends by itself.
const MOST_CONNECTIONS: u32 = 200;

/// How many reads of one of them there are at most.
const MOST_READS: u32 = 200;

/// What a request is answered.
#[derive(Clone, Copy)]
pub enum Answer {
    /// 200 with this body.
    Page(&'static str),
    /// 500.
    Fault,
}

/// What the requests for a target are answered: each in turn, and further ones as the last.
pub struct Answers {
    pub target: &'static str,
    pub each: &'static [Answer],
}

/// What came on a connection, and when that was accepted.
#[derive(Drop)]
pub struct Asked {
    pub at: Instant,
    pub text: String,
}

impl Asked {
    /// The target of the request line.
    pub fn target(&self) -> &str {
        target_of(self.text.as_str())
    }
}

fn target_of(text: &str) -> &str {
    match text.split(' ').nth(1) {
        Some(target) => target,
        None => "",
    }
}

/// The length that a head tells; 0 where it tells none.
fn length_in(head: &str) -> usize {
    for line in head.split("\r\n") {
        if let Some(digits) = line.strip_prefix("Content-Length: ") {
            return digits.parse().unwrap_or(0);
        }
    }
    0
}

/// Whether bytes have a whole head, and as many bytes behind it as that tells.
fn is_whole(bytes: &[u8]) -> bool {
    let Ok(text) = from_utf8(bytes) else {
        return false;
    };
    match text.split_once("\r\n\r\n") {
        Some((head, body)) => length_in(head) <= body.len(),
        None => false,
    }
}

/// Reads once more; whether anything came.
fn read_more(stream: &mut TcpStream, bytes: &mut Vec<u8>) -> io::Result<bool> {
    let mut part = [0u8; 4096];
    let count = stream.read(&mut part)?;
    for byte in part.iter().take(count) {
        bytes.push(*byte)?;
    }
    Ok(count > 0)
}

/// Reads to the end of a request, or of the stream.
fn read_request(stream: &mut TcpStream, bytes: &mut Vec<u8>) -> io::Result<()> {
    for _ in 0..MOST_READS {
        if is_whole(bytes.as_slice()) || !read_more(stream, bytes)? {
            break;
        }
    }
    Ok(())
}

/// Reads to the end of the stream.
fn read_rest(stream: &mut TcpStream, bytes: &mut Vec<u8>) -> io::Result<()> {
    for _ in 0..MOST_READS {
        if !read_more(stream, bytes)? {
            break;
        }
    }
    Ok(())
}

/// The answer to a request for a target, where so many came before it; none where the table has not the target.
fn answer_of(table: &[Answers], target: &str, before: usize) -> Option<Answer> {
    let answers = table.iter().find(|answers| answers.target == target)?;
    let last = answers.each.last()?;
    Some(*answers.each.get(before).unwrap_or(last))
}

/// The bytes of an answer; of none those of a 404.
fn reply_of(alloc: Global, answer: Option<Answer>) -> Result<String, AllocError> {
    match answer {
        Some(Answer::Page(body)) => {
            let length = body.len();
            format!(in alloc; "HTTP/1.1 200 OK\r\nContent-Length: {length}\r\n\r\n{body}")
        }
        Some(Answer::Fault) => {
            format!(in alloc; "HTTP/1.1 500 Internal Server Error\r\nContent-Length: 0\r\n\r\n")
        }
        None => format!(in alloc; "HTTP/1.1 404 Not Found\r\nContent-Length: 0\r\n\r\n"),
    }
}

/// Reads a request, answers it, and then reads on to the end, so that whatever comes behind the request is kept too.
fn answer_one(
    alloc: Global,
    stream: &mut TcpStream,
    table: &[Answers],
    asked: &[Asked],
    bytes: &mut Vec<u8>,
) -> io::Result<()> {
    stream.set_read_timeout(Some(Duration::from_secs(3)))?;
    read_request(stream, bytes)?;
    let text = String::from_utf8_lossy(alloc, bytes.as_slice())?;
    let target = target_of(text.as_str());
    let before = asked.iter().filter(|one| one.target() == target).count();
    let reply = reply_of(alloc, answer_of(table, target, before))?;
    stream.write_all(reply.as_bytes())?;
    stream.shutdown(Shutdown::Write)?;
    read_rest(stream, bytes)
}

/// What came on a connection, also where it broke.
fn asked_on<T: Clock>(
    time: &T,
    alloc: Global,
    stream: &mut TcpStream,
    table: &[Answers],
    asked: &[Asked],
) -> io::Result<Asked> {
    let at = Instant::now(time)?;
    let mut bytes = Vec::new(alloc);
    let _ = answer_one(alloc, stream, table, asked, &mut bytes);
    let text = String::from_utf8_lossy(alloc, bytes.as_slice())?;
    Ok(Asked { at, text })
}

/// Answers each connection in turn, until it is told to stop, and tells how many are done.
fn answer_each<T: Clock>(
    time: &T,
    alloc: Global,
    listener: &TcpListener,
    table: &[Answers],
    stopped: &AtomicBool,
    done: &AtomicU64,
    asked: &mut Vec<Asked>,
) -> io::Result<()> {
    for _ in 0..MOST_CONNECTIONS {
        let (mut stream, _) = listener.accept()?;
        if stopped.load(Ordering::SeqCst) {
            break;
        }
        let one = asked_on(time, alloc, &mut stream, table, asked.as_slice())?;
        asked.push(one)?;
        done.fetch_add(1, Ordering::SeqCst);
    }
    Ok(())
}

/// A stand-in at work, and where it listens.
#[derive(Drop)]
pub struct StandIn {
    pub at: SocketAddr,
    stopped: Arc<AtomicBool, Global>,
    done: Arc<AtomicU64, Global>,
    handle: JoinHandle<Vec<Asked>>,
}

impl StandIn {
    /// Answers whoever comes to a listener. Who came before waits there.
    pub fn start<R>(
        rt: R,
        alloc: Global,
        listener: TcpListener,
        table: &'static [Answers],
    ) -> Result<StandIn, Fail>
    where
        R: Threads + Clock + Copy + Drop + Send + 'static,
    {
        let at = listener.local_addr()?;
        let stopped = Arc::new(alloc, AtomicBool::new(false))?;
        let done = Arc::new(alloc, AtomicU64::new(0))?;
        let stop = Arc::try_clone(&stopped)?;
        let count = Arc::try_clone(&done)?;
        let work = move || -> Vec<Asked> {
            let mut asked = Vec::new(alloc);
            let _ = answer_each(&rt, alloc, &listener, table, &*stop, &*count, &mut asked);
            asked
        };
        match thread::spawn(&rt, work) {
            Ok(handle) => Ok(StandIn {
                at,
                stopped,
                done,
                handle,
            }),
            Err(_) => Err(Fail::new("no thread")),
        }
    }

    /// Waits until so many connections were answered, ten seconds at most; whether they were.
    pub fn wait<R: Clock>(&self, rt: &R, count: u64) -> bool {
        for _ in 0..500u32 {
            if count <= self.done.load(Ordering::SeqCst) {
                return true;
            }
            thread::sleep(rt, Duration::from_millis(20));
        }
        false
    }

    /// Ends it by a last connection; what came until then.
    pub fn stop<R>(self, rt: &R) -> io::Result<Vec<Asked>>
    where
        R: Net<Listener = TcpListener, Stream = TcpStream> + Threads,
    {
        let StandIn {
            at,
            stopped,
            done: _,
            handle,
        } = self;
        stopped.store(true, Ordering::SeqCst);
        let _last = TcpStream::connect(rt, at)?;
        Ok(handle.join(rt))
    }
}
