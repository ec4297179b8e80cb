//! The threads that serve connections, each for as long as the node runs.
ghost use Rattle.std.specs.Prelude.{◌≡◌, ◌<◌, IfOk, length};
ghost use Rattle.adr_lock.specs.Outcomes.{TakesOneAtMost};
ghost use Rattle.adr_http.specs.Takers.{TakesOnce};
ghost use Rattle.adr_server.specs.Crews.{threads_of};
ghost use Rattle.adr_server.specs.Outcomes.{AsksOffice};

use crate::connection::serve_connection;
use crate::shared::Shared;
use adr_book::{Office, Pass, Trail};
use adr_http::Routes;
use adr_lock::Clock;
use adr_machine::Desk;
use crossbeam_channel::{Receiver, Sender};
use log::Log;
use std::alloc::{AllocError, Global};
use std::net::TcpStream;
use std::sync::ledger::Ledger;
use std::sync::{Arc, Wait};
use std::thread::{JoinHandle, Threads};
use std::{thread, time};

/// How many connections wait for a thread to be done; further ones wait at the listener.
const ROOM: usize = 1;

/// What a connection is served with: the office, what all threads know, and the clock.
#[derive(Drop)]
pub struct Served<D: Desk + Drop, T: Trail<D>, L: Ledger, C: Clock + Drop> {
    pub office: Arc<Office<D, T, L>, Global>,
    pub shared: Arc<Shared, Global>,
    pub clock: Arc<C, Global>,
}

impl<D: Desk + Drop, T: Trail<D>, L: Ledger, C: Clock + Drop> Served<D, T, L, C> {
    // The same for one thread more.
    fn again(&self) -> Result<Served<D, T, L, C>, AllocError> {
        Ok(Served {
            office: Arc::try_clone(&self.office)?,
            shared: Arc::try_clone(&self.shared)?,
            clock: Arc::try_clone(&self.clock)?,
        })
    }
}

// Serves a connection by the paths that the thread has made at its first one. Where memory is wanting for these, the
// connection is dropped, and the next one has them made.
fn serve_next<D: Desk + Drop, T: Trail<D>, L: Ledger, C: Clock, R: Wait + time::Clock + Log>(
    rt: &R,
    office: &Office<D, T, L>,
    shared: &Shared,
    clock: &C,
    routes: &mut Option<Routes>,
    pass: &mut Pass<L>,
    stream: &TcpStream,
)
    ensures once { TakesOnce (AsksOffice office.now (C.tells clock.now)) pass.old pass.new }
    ensures one { TakesOneAtMost pass.old pass.new }
{
    if routes.is_none() {
        *routes = Routes::new(shared.alloc).ok();
    }
    if let Some(routes) = routes {
        serve_connection(rt, office, shared, routes, clock, pass, stream);
    }
}

// Serves connections as they come, until no more can, or the store's refusal ends the node.
fn work<D: Desk + Drop, T: Trail<D>, L: Ledger, C: Clock, R: Wait + time::Clock + Log>(
    rt: &R,
    office: &Office<D, T, L>,
    shared: &Shared,
    clock: &C,
    streams: &Receiver<TcpStream, Global>,
    pass: Pass<L>,
) -> Pass<L> {
    let mut pass = pass;
    let mut routes = None;
    for stream in streams.iter(rt) {
        serve_next(rt, office, shared, clock, &mut routes, &mut pass, &stream);
        if shared.is_halted() {
            break;
        }
    }
    pass
}

// A thread that does.
fn worker<D, T, L, C, R>(
    rt: R,
    served: &Served<D, T, L, C>,
    streams: &Receiver<TcpStream, Global>,
    pass: Pass<L>,
) -> Result<JoinHandle<Pass<L>>, AllocError>
where
    D: Desk + Drop + Send + 'static,
    T: Trail<D> + Send + 'static,
    L: Ledger + Send + Sync + 'static,
    C: Clock + Drop + Send + Sync + 'static,
    R: Threads + Wait + time::Clock + Log + Copy + Send + 'static,
{
    let Served {
        office,
        shared,
        clock,
    } = served.again()?;
    let streams = streams.clone()?;
    let work = move || -> Pass<L> { work(&rt, &*office, &*shared, &*clock, &streams, pass) };
    Ok(thread::spawn(&rt, work)?)
}

/// The threads that serve connections, and where these are put for them.
#[derive(Drop)]
pub struct Crew<L: Ledger> {
    streams: Sender<TcpStream, Global>,
    threads: Vec<JoinHandle<Pass<L>>>,
}

// Joins these.
fn join_all<L: Ledger, R: Threads>(rt: &R, threads: Vec<JoinHandle<Pass<L>>>) {
    for thread in threads {
        let _pass = thread.join(rt);
    }
}

// A thread for each pass, or those that were made before one could not be.
fn threads<D, T, L, C, R>(
    rt: R,
    alloc: Global,
    served: &Served<D, T, L, C>,
    streams: &Receiver<TcpStream, Global>,
    passes: Vec<Pass<L>>,
) -> Result<Vec<JoinHandle<Pass<L>>>, Vec<JoinHandle<Pass<L>>>>
where
    D: Desk + Drop + Send + 'static,
    T: Trail<D> + Send + 'static,
    L: Ledger + Send + Sync + 'static,
    C: Clock + Drop + Send + Sync + 'static,
    R: Threads + Wait + time::Clock + Log + Copy + Send + 'static,
    ensures { IfOk result (λ made. length made.items ≡ length passes.items) }
{
    let mut passes = passes;
    let mut made = Vec::new(alloc);
    while let Some(pass) = passes.pop() {
        // There is room for the thread before it is made: one that is made is joined, come what may.
        if made.reserve(1).is_err() {
            return Err(made);
        }
        match worker(rt, served, streams, pass) {
            Ok(thread) => made.push_reserved(thread),
            Err(_) => return Err(made),
        }
    }
    Ok(made)
}

impl<L: Ledger> Crew<L> {
    /// Starts a thread for each pass. Where one can't be made, those that were made are joined.
    pub fn start<D, T, C, R>(
        rt: R,
        alloc: Global,
        served: &Served<D, T, L, C>,
        passes: Vec<Pass<L>>,
    ) -> Result<Crew<L>, AllocError>
    where
        D: Desk + Drop + Send + 'static,
        T: Trail<D> + Send + 'static,
        L: Send + Sync + 'static,
        C: Clock + Drop + Send + Sync + 'static,
        R: Threads + Wait + time::Clock + Log + Copy + Send + 'static,
        ensures { IfOk result (λ crew. threads_of crew ≡ length passes.items) }
    {
        let (streams, taken) = crossbeam_channel::bounded::<TcpStream, Global>(alloc, ROOM)?;
        match threads(rt, alloc, served, &taken, passes) {
            Ok(threads) => Ok(Crew { streams, threads }),
            Err(made) => {
                drop(streams);
                join_all(&rt, made);
                Err(AllocError)
            }
        }
    }

    /// Puts a connection there for the first thread that is done with another. It waits while there is no room. A
    /// connection that memory is wanting for is dropped.
    pub fn put<R: Wait>(&self, rt: &R, stream: TcpStream) -> bool {
        self.streams.send(rt, stream).is_ok()
    }

    /// Lets the threads serve what was put, and joins them.
    pub fn stop<R: Threads>(self, rt: &R) {
        let Crew { streams, threads } = self;
        drop(streams);
        join_all(rt, threads);
    }
}
