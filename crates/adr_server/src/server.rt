//! The node as a server.
ghost use Rattle.std.specs.Prelude.{◌≡◌, ◌+◌, ◌*◌, IfOk, length};
ghost use Rattle.adr_desk.specs.Desks.{settings_of};

use crate::caution::CautiousGate;
use crate::crew::{Crew, Served};
use crate::gate::{SocketGate, StoppedGate};
use crate::node_log::{AcceptLog, tell_bind_fault, tell_start, tell_stop};
use crate::shared::Shared;
use adr_book::{Office, Pass, Trail, UnrecordedTrail};
use adr_config::{Config, MassDeletion};
use adr_desk::MemoryDesk;
use adr_link::Upstream;
use adr_lock::{Clock, Steps};
use adr_machine::Desk;
use adr_text::Refusal;
use adr_work::{JobQueue, Peers, Polled, ROOM, poll_loop, start, stop};
use log::Log;
use std::alloc::{AllocError, AllocFailed, Global};
use std::marker::Brand;
use std::net::{Net, SocketAddr, TcpListener, TcpStream};
use std::sync::atomic::{AtomicBool, Ordering};
use std::sync::ledger::{Blank, Ledger};
use std::sync::{Arc, Wait};
use std::thread::{JoinHandle, Threads};
use std::time::Duration;
use std::{thread, time};

/// Why a node did not serve, or stopped early.
#[derive(Clone, Copy, Debug, PartialEq, Eq)]
pub enum NodeFault {
    /// The address is taken, or can't be listened at.
    Bind,
    /// Memory ran out, or a thread could not be made.
    OutOfMemory,
    /// The store could not be opened, or, over a file, refused what was asked of it.
    Store,
}

impl From<Refusal> for NodeFault {
    fn from(refusal: Refusal) -> NodeFault {
        match refusal {
            Refusal::OutOfMemory => NodeFault::OutOfMemory,
            _ => NodeFault::Store,
        }
    }
}

impl From<AllocError> for NodeFault {
    fn from(_e: AllocError) -> NodeFault {
        NodeFault::OutOfMemory
    }
}

impl<T: Drop> From<AllocFailed<T>> for NodeFault {
    fn from(_e: AllocFailed<T>) -> NodeFault {
        NodeFault::OutOfMemory
    }
}

/// How long the node rests after it could not accept or serve a connection, in milliseconds.
const REST: u64 = 10;

// Accepts connections, so many where that is said, or until the store's refusal ends the node, and puts each for the
// threads. One that memory is wanting for is dropped, and then the node rests, as where none could be accepted.
fn accept_each<L: Ledger, R: Wait + time::Clock + Log>(
    rt: &R,
    listener: &TcpListener,
    crew: &Crew<L>,
    shared: &Shared,
    most: Option<u64>,
) {
    let mut accepted = 0u64;
    let mut faults = AcceptLog::new();
    for _ in rt.forever() {
        if most == Some(accepted) {
            break;
        }
        let came = listener.accept();
        if shared.is_halted() {
            break;
        }
        let is_put = match came {
            Ok((stream, _)) => {
                accepted = accepted.saturating_add(1);
                crew.put(rt, stream)
            }
            Err(error) => {
                faults.note(rt, &error);
                false
            }
        };
        if !is_put {
            thread::sleep(rt, Duration::from_millis(REST));
        }
    }
}

// The same, and then all that were accepted are served to their end.
fn accept_all<D, T, L, C, R>(
    rt: R,
    alloc: Global,
    served: &Served<D, T, L, C>,
    listener: &TcpListener,
    passes: Vec<Pass<L>>,
    most: Option<u64>,
) -> Result<(), AllocError>
where
    D: Desk + Drop + Send + 'static,
    T: Trail<D> + Send + 'static,
    L: Ledger + Send + Sync + 'static,
    C: Clock + Drop + Send + Sync + 'static,
    R: Threads + Wait + time::Clock + Log + Copy + Send + 'static,
{
    let crew = Crew::start(rt, alloc, served, passes)?;
    accept_each(&rt, listener, &crew, &served.shared, most);
    crew.stop(&rt);
    Ok(())
}

// A gate for each sender.
fn gates<N>(
    net: N,
    alloc: Global,
    upstream: &Upstream,
    count: u64,
) -> Result<Vec<SocketGate<N>>, AllocError>
where
    N: Net<Listener = TcpListener, Stream = TcpStream> + time::Clock + Copy + Drop,
    ensures { IfOk result (λ gates. length gates.items ≡ count) }
{
    let mut gates = Vec::new(alloc);
    for _i in 0..count {
        gates.push(SocketGate::new(net, alloc, upstream)?)?;
    }
    Ok(gates)
}

/// How long the node takes at most to connect to itself.
const WAKING: u64 = 1_000;

// Connects to the node itself, so that it looks up where it waits for a connection.
fn wake<N: Net<Stream = TcpStream>>(net: &N, address: SocketAddr) {
    let _ = TcpStream::connect_timeout(net, &address, Duration::from_millis(WAKING));
}

// Starts the rounds of polling. Where the store's refusal ends the node, the listener there is woken as they end.
fn poller<D, T, L, C, R, N>(
    rt: R,
    net: N,
    alloc: Global,
    served: &Served<D, T, L, C>,
    peers: &Arc<Peers, Global>,
    stopped: &Arc<AtomicBool, Global>,
    listens: SocketAddr,
    seconds: u64,
    deletion: MassDeletion,
    pass: Pass<L>,
) -> Result<JoinHandle<Polled<L>>, AllocError>
where
    D: Desk + Drop + Send + 'static,
    T: Trail<D> + Send + 'static,
    L: Ledger + Send + Sync + 'static,
    C: Clock + Drop + Send + Sync + 'static,
    R: Threads + Wait + time::Clock + Log + Copy + Drop + Send + 'static,
    N: Net<Listener = TcpListener, Stream = TcpStream> + time::Clock + Copy + Drop + Send + 'static,
{
    let office = Arc::try_clone(&served.office)?;
    let clock = Arc::try_clone(&served.clock)?;
    let shared = Arc::try_clone(&served.shared)?;
    let stopped = Arc::try_clone(stopped)?;
    let gate = SocketGate::new(net, alloc, &peers.upstream)?;
    let gate = StoppedGate::new(gate, Arc::try_clone(&stopped)?);
    let gate = CautiousGate::new(gate, matches!(deletion, MassDeletion::Confirm));
    let peers = Arc::try_clone(peers)?;
    let work = move || -> Polled<L> {
        let mut gate = gate;
        let mut steps = Steps::new();
        let polled = poll_loop(
            &rt,
            alloc,
            &*office,
            &mut gate,
            &peers.upstream,
            &*clock,
            seconds,
            &*stopped,
            shared.halt(),
            pass,
            &mut steps,
        );
        if shared.is_halted() {
            wake(&net, listens);
        }
        polled
    };
    Ok(thread::spawn(&rt, work)?)
}

// What all threads that serve know.
fn shared(
    alloc: Global,
    config: &Config,
    halt: Option<Arc<AtomicBool, Global>>,
) -> Result<Shared, AllocError>
    ensures roles { IfOk result (λ shared. shared.roles ≡ config.now.roles) }
    ensures client { IfOk result (λ shared. shared.client ≡ config.now.settings.client) }
{
    Ok(Shared {
        alloc,
        roles: config.roles.copy(alloc)?,
        client: config.settings.client.clone()?,
        halt,
    })
}

// Whom the node calls.
fn peers(config: &Config) -> Result<Peers, AllocError>
    ensures upstream { IfOk result (λ peers. peers.upstream ≡ config.now.upstream) }
    ensures callbacks { IfOk result (λ peers. peers.callbacks ≡ config.now.callbacks) }
{
    Ok(Peers {
        upstream: config.upstream.copy()?,
        callbacks: config.callbacks.copy()?,
    })
}

// An empty desk with the limits and the name of the configuration.
fn desk(alloc: Global, config: &Config) -> Result<MemoryDesk, Refusal>
    ensures { IfOk result (λ desk. settings_of desk ≡ config.now.settings) }
{
    MemoryDesk::open_memory(alloc, config.settings.copy()?)
}

// Listens where the configuration says.
fn bind<R, N>(rt: &R, net: &N, config: &Config) -> Result<TcpListener, NodeFault>
where
    R: Log,
    N: Net<Listener = TcpListener, Stream = TcpStream>,
{
    match TcpListener::bind(net, config.listen) {
        Ok(listener) => Ok(listener),
        Err(error) => {
            tell_bind_fault(rt, config, &error);
            Err(NodeFault::Bind)
        }
    }
}

// The same flag for one more who looks at it, where the store's refusal ends the node.
fn halt_of(
    halts: bool,
    stopped: &Arc<AtomicBool, Global>,
) -> Result<Option<Arc<AtomicBool, Global>>, AllocError> {
    if halts {
        Ok(Some(Arc::try_clone(stopped)?))
    } else {
        Ok(None)
    }
}

fn serve_by<D, L, C, R, N>(
    rt: R,
    net: N,
    alloc: Global,
    blank: Blank,
    config: &Config,
    clock: C,
    desk: D,
    halts: bool,
) -> Result<(), NodeFault>
where
    D: Desk + Drop + Send + 'static,
    L: Ledger + Send + Sync + 'static,
    C: Clock + Drop + Send + Sync + 'static,
    R: Threads + Wait + time::Clock + Log + Copy + Drop + Send + 'static,
    N: Net<Listener = TcpListener, Stream = TcpStream> + time::Clock + Copy + Drop + Send + 'static,
    requires name { blank.name ≡ L.name }
    requires parts { blank.parts ≡ L.parts }
    requires count { blank.parts ≡ 2 * config.now.workers + 2 }
{
    let count = config.workers.get();
    let (office, mut passes) = Office::<D, UnrecordedTrail<D>, L>::open(
        alloc,
        blank,
        desk,
        2 * count as u32 + 2,
    )?;
    let listener = bind(&rt, &net, config)?;
    let stopped = Arc::new(alloc, AtomicBool::new(false))?;
    let shared = shared(alloc, config, halt_of(halts, &stopped)?)?;
    let served = Served {
        office: Arc::new(alloc, office)?,
        shared: Arc::new(alloc, shared)?,
        clock: Arc::new(alloc, clock)?,
    };
    let peers = Arc::new(alloc, peers(config)?)?;
    let Some(pass) = passes.pop() else {
        unreachable!()
    };
    let sending = passes.split_off(count as usize)?;
    let (queue, whole) = JobQueue::new(alloc, ROOM)?;
    let gates = gates(net, alloc, &config.upstream, count)?;
    let workers = start(
        rt,
        alloc,
        &served.office,
        queue,
        whole,
        &peers,
        &served.clock,
        sending,
        gates,
        halt_of(halts, &stopped)?,
    )?;
    tell_start(&rt, alloc, config, &listener);
    let listens = listener.local_addr().unwrap_or(config.listen);
    let seconds = config.poll.get();
    let most = config.stop_after.map(|most| most.get());
    let poller = poller(
        rt,
        net,
        alloc,
        &served,
        &peers,
        &stopped,
        listens,
        seconds,
        config.mass_deletion,
        pass,
    );
    let ended = match &poller {
        Ok(_) => accept_all(rt, alloc, &served, &listener, passes, most),
        Err(_) => Err(AllocError),
    };
    // Until here whoever the store refused set the flag, and nobody else.
    let mut is_halted = stopped.swap(true, Ordering::SeqCst);
    let left = stop(&rt, alloc, workers);
    if let Ok(poller) = poller {
        is_halted |= poller.join(&rt).halted;
    }
    if let Ok(left) = &left {
        is_halted |= left.halted;
    }
    if is_halted {
        return Err(NodeFault::Store);
    }
    left?;
    ended?;
    tell_stop(&rt);
    Ok(())
}

/// Serves by a configuration and a clock over a net: connections, on so many threads, rounds of polling the utility, and
/// the outbox, over a desk, until it has accepted as many connections as the configuration says, or for ever. Where
/// `halts` says so, as over a file, the store's refusal of anything that is asked ends it.
pub fn serve_over<D, C, R, N>(
    rt: R,
    net: N,
    alloc: Global,
    config: &Config,
    clock: C,
    desk: D,
    halts: bool,
) -> Result<(), NodeFault>
where
    D: Desk + Drop + Send + 'static,
    C: Clock + Drop + Send + Sync + 'static,
    R: Threads + Wait + time::Clock + Log + Copy + Drop + Send + 'static,
    N: Net<Listener = TcpListener, Stream = TcpStream> + time::Clock + Copy + Drop + Send + 'static,
{
    let passes = 2 * config.workers.get() + 2;
    serve_by::<D, Brand, C, R, N>(
        rt,
        net,
        alloc,
        Blank::new(passes),
        config,
        clock,
        desk,
        halts,
    )
}

/// The same over a new desk in memory.
pub fn serve_with<C, R, N>(
    rt: R,
    net: N,
    alloc: Global,
    config: &Config,
    clock: C,
) -> Result<(), NodeFault>
where
    C: Clock + Drop + Send + Sync + 'static,
    R: Threads + Wait + time::Clock + Log + Copy + Drop + Send + 'static,
    N: Net<Listener = TcpListener, Stream = TcpStream> + time::Clock + Copy + Drop + Send + 'static,
{
    let desk = desk(alloc, config)?;
    serve_over(rt, net, alloc, config, clock, desk, false)
}
