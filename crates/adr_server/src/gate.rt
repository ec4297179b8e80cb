//! The gate over sockets: what is sent to the utility and to callbacks.
ghost use Rattle.std.specs.Prelude.{◌≡◌, [], IfOk};
ghost use Rattle.std.specs.String.{string_bytes};
ghost use Rattle.adr_link.specs.Addresses.{endpoint};
ghost use Rattle.adr_server.specs.Endpoints.{endpoint_of};
ghost use Rattle.adr_server.specs.Stopping.{AsksUnless};

use crate::exchange::exchange_paced;
use crate::paced::Term;
use crate::traffic::Traffic;
use adr_link::{HttpReply, LinkFault, Upstream};
use adr_network::address_of;
use adr_work::{Account, Callee, Failure, Gate, Request, exchange as longest};
use http_server::Log;
use std::alloc::{AllocError, Global};
use std::io;
use std::io::ErrorKind;
use std::net::{Net, SocketAddr, TcpStream};
use std::sync::Arc;
use std::sync::atomic::{AtomicBool, Ordering};
use std::time::{Clock, Duration};

/// How long making the connection and each read and write wait at most, and how long an exchange takes.
fn term() -> Term {
    Term::new(Duration::from_secs(4), longest())
}

/// Sends over sockets.
#[derive(Drop)]
pub struct SocketGate<N: Net<Stream = TcpStream> + Clock + Drop> {
    net: N,
    alloc: Global,
    /// The host and the port of the utility.
    utility: String,
    log: Log<Request, Result<HttpReply, LinkFault>>,
    account: Account,
}

// Connects. The exchange's time begins here.
fn connect<N: Net<Stream = TcpStream> + Clock>(
    net: &N,
    term: &mut Term,
    address: SocketAddr,
) -> io::Result<TcpStream> {
    TcpStream::connect_timeout(net, &address, term.wait(net)?)
}

// Why no reply came, by what went over the stream.
fn fault_of(fault: LinkFault, read: &Traffic, written: &Traffic) -> Account {
    match (fault, written.fault, read.fault) {
        (LinkFault::Memory, _, _) => Account::Memory,
        (LinkFault::TooLarge, _, _) => Account::TooLarge,
        (LinkFault::BadReply, _, _) if read.is_ended => Account::Cut(read.bytes),
        (LinkFault::BadReply, _, _) => Account::NoReply(read.bytes),
        (LinkFault::Read, Some(kind), _) => Account::NotWritten(kind),
        (LinkFault::Read, None, _) if read.is_late() => Account::Late(read.bytes),
        (LinkFault::Read, None, Some(kind)) => Account::NotRead(kind, read.bytes),
        (LinkFault::Read, None, None) => Account::Untold,
    }
}

// How an exchange went, for the log.
fn account_of(came: &Result<HttpReply, LinkFault>, read: &Traffic, written: &Traffic) -> Account {
    match came {
        Ok(reply) => Account::Status(reply.status),
        Err(fault) => fault_of(*fault, read, written),
    }
}

// Sends a request over a connection, and gives the reply.
fn ask_over<T: Clock>(
    alloc: Global,
    time: &T,
    stream: &TcpStream,
    term: Term,
    request: &[u8],
    account: &mut Account,
) -> Result<HttpReply, LinkFault> {
    let (mut read, mut written) = (Traffic::none(), Traffic::none());
    let came = exchange_paced(alloc, time, stream, term, request, &mut read, &mut written);
    *account = account_of(&came, &read, &written);
    came
}

// Sends a request to an endpoint, and gives the reply; where no connection is made, none came.
fn ask_at<N: Net<Stream = TcpStream> + Clock>(
    net: &N,
    alloc: Global,
    endpoint: &str,
    request: &[u8],
    account: &mut Account,
) -> Result<HttpReply, LinkFault> {
    let Ok(Some(address)) = address_of(alloc, endpoint) else {
        *account = Account::NotConnected(Failure::unmade(ErrorKind::InvalidInput));
        return Err(LinkFault::Read);
    };
    let mut term = term();
    match connect(net, &mut term, address) {
        Ok(stream) => ask_over(alloc, net, &stream, term, request, account),
        Err(error) => {
            *account = Account::NotConnected(Failure::of(&error));
            Err(LinkFault::Read)
        }
    }
}

// The host and the port of whom a request goes to.
fn endpoint_of<'a>(utility: &'a str, callee: &'a Callee) -> &'a str
    ensures { result.now ≡ endpoint_of utility.now callee.now }
{
    match callee {
        Callee::Utility => utility,
        Callee::Callback(endpoint) => endpoint.as_str(),
    }
}

impl<N: Net<Stream = TcpStream> + Clock + Drop> SocketGate<N> {
    /// A gate to this utility, and to callbacks. Nothing was sent yet.
    pub fn new(net: N, alloc: Global, upstream: &Upstream) -> Result<SocketGate<N>, AllocError>
        ensures utility { IfOk result (λ g. string_bytes g.utility ≡ endpoint upstream.now.url) }
        ensures nothing { IfOk result (λ g. g.log.items ≡ []) }
    {
        Ok(SocketGate {
            net,
            alloc,
            utility: upstream.endpoint(alloc)?,
            log: Log::new(),
            account: Account::Untold,
        })
    }
}

impl<N: Net<Stream = TcpStream> + Clock + Drop> Gate for SocketGate<N> {
    ghost exchanges = { λ g. g.log.items };

    fn ask(&mut self, request: &Request) -> Result<HttpReply, LinkFault> {
        let endpoint = endpoint_of(self.utility.as_str(), &request.to);
        let bytes = request.bytes.as_slice();
        let mut account = Account::Untold;
        let came = ask_at(&self.net, self.alloc, endpoint, bytes, &mut account);
        self.account = account;
        self.log = self.log.and(request, &came);
        came
    }

    fn account(&self) -> Account {
        self.account
    }
}

/// A gate through which nothing goes any more once the node is to stop: what is asked then fails at once, so that a round
/// ends with the exchange that it is in.
#[derive(Drop)]
pub struct StoppedGate<G: Gate + Drop> {
    gate: G,
    stopped: Arc<AtomicBool, Global>,
    /// Whether the last request was not asked for that.
    is_stopped: bool,
    log: Log<Request, Result<HttpReply, LinkFault>>,
}

// Sends a request through a gate, unless that is stopped: then no reply comes.
pub(crate) fn ask_unless<G: Gate>(
    stopped: bool,
    gate: &mut G,
    request: &Request,
) -> Result<HttpReply, LinkFault>
    ensures { AsksUnless stopped (G.exchanges gate.old) (G.exchanges gate.new) request.now result }
{
    if stopped {
        return Err(LinkFault::Read);
    }
    gate.ask(request)
}

impl<G: Gate + Drop> StoppedGate<G> {
    pub fn new(gate: G, stopped: Arc<AtomicBool, Global>) -> StoppedGate<G>
        ensures { result.log.items ≡ [] }
    {
        StoppedGate {
            gate,
            stopped,
            is_stopped: false,
            log: Log::new(),
        }
    }
}

impl<G: Gate + Drop> Gate for StoppedGate<G> {
    ghost exchanges = { λ g. g.log.items };

    fn ask(&mut self, request: &Request) -> Result<HttpReply, LinkFault> {
        let stopped = self.stopped.load(Ordering::SeqCst);
        let came = ask_unless(stopped, &mut self.gate, request);
        self.is_stopped = stopped;
        self.log = self.log.and(request, &came);
        came
    }

    fn account(&self) -> Account {
        if self.is_stopped {
            return Account::Stopped;
        }
        self.gate.account()
    }
}
