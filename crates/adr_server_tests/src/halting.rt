//! A node over a store that refuses what a request asks, and nothing that its other threads ask.
use crate::loopback::{CREATED, POST, Still, ask, config, free};
use adr_config::Config;
use adr_machine::PlainDesk;
use adr_server::{NodeFault, serve_over};
use adr_text::Moment;
use ailing_desk::{Ailing, Refused};
use log::sink::Discard;
use log::{LevelFilter, Logged};
use std::alloc::Global;
use std::net::{Net, TcpListener, TcpStream};
use std::sync::atomic::{AtomicBool, Ordering};
use std::sync::{Arc, Wait};
use std::test::Fail;
use std::thread::Threads;
use std::time::Duration;
use std::{thread, time};

/// Serves over such a store.
fn serve_ailing<R>(rt: R, alloc: Global, config: &Config, halts: bool) -> Result<(), NodeFault>
where
    R: Net<Listener = TcpListener, Stream = TcpStream>
        + Threads
        + Wait
        + time::Clock
        + Copy
        + Drop
        + Send
        + 'static,
{
    match Moment::read("2024-07-01T10:00:00Z") {
        Ok(at) => {
            let quiet = Logged::new(rt, LevelFilter::Off, Discard);
            let desk = PlainDesk::new(alloc, config.settings.copy()?);
            let ailing = Ailing::new(desk, Refused::Vens);
            serve_over(quiet, rt, alloc, config, Still(at), ailing, halts)
        }
        Err(_) => Err(NodeFault::Bind),
    }
}

/// What came of a request whose step the store refused: the reply, the reply to a further one where the node did not end by
/// itself, and how it ended.
#[derive(Drop)]
struct Came {
    reply: String,
    next: Option<String>,
    ended: Result<(), NodeFault>,
}

/// Asks for a new ven, which the store refuses, of a node that ends with its second connection. Where it has not ended by
/// itself after so many naps of 10 ms, it is asked once more.
fn refused<R>(rt: R, alloc: Global, halts: bool, naps: u32) -> Result<Came, Fail>
where
    R: Net<Listener = TcpListener, Stream = TcpStream>
        + Threads
        + Wait
        + time::Clock
        + Copy
        + Drop
        + Send
        + 'static,
{
    let at = free(&rt)?;
    let configuration = config(alloc, at, 2, 2)?;
    let ended = Arc::new(alloc, AtomicBool::new(false))?;
    let told = Arc::try_clone(&ended)?;
    let work = move || -> Result<(), NodeFault> {
        let served = serve_ailing(rt, alloc, &configuration, halts);
        told.store(true, Ordering::SeqCst);
        served
    };
    let handle = match thread::spawn(&rt, work) {
        Ok(handle) => handle,
        Err(_) => return Err(Fail::new("no thread")),
    };
    let reply = ask(&rt, alloc, at, POST)?;
    for _ in 0..naps {
        if ended.load(Ordering::SeqCst) {
            break;
        }
        thread::sleep(&rt, Duration::from_millis(10));
    }
    let next = if ended.load(Ordering::SeqCst) {
        None
    } else {
        Some(ask(&rt, alloc, at, POST)?)
    };
    let ended = handle.join(&rt);
    Ok(Came { reply, next, ended })
}

/// Who asked is told that the store refused, and the node ends.
#[test]
fn a_request_that_the_store_refuses(rt: HostRuntime) -> Result<(), Fail> {
    let alloc = rt.alloc();
    let Came { reply, next, ended } = refused(rt, alloc, true, 1000)?;
    assert!(rt; reply.starts_with("HTTP/1.1 500 "));
    assert!(rt; next.is_none());
    assert!(rt; matches!(ended, Err(NodeFault::Store)));
    Ok(())
}

/// Where the store's refusal is to end nothing, the next request is served.
#[test]
fn a_refusal_that_ends_nothing(rt: HostRuntime) -> Result<(), Fail> {
    let alloc = rt.alloc();
    let Came { reply, next, ended } = refused(rt, alloc, false, 0)?;
    assert!(rt; reply.starts_with("HTTP/1.1 500 "));
    assert!(rt; next.is_some_and(|next| next.as_str() == CREATED));
    assert!(rt; ended.is_ok());
    Ok(())
}
