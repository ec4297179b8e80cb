//! A node that serves over sockets.
ghost use Rattle.std.specs.Prelude.{IfOk, IfErr};
ghost use Rattle.adr_config.specs.Configs.{IsConfig};
ghost use Rattle.adr_node.specs.Endings.{IsOfReading};

use crate::beginning::tell_beginning;
use crate::ending::NodeFault;
use crate::file;
use crate::why::{Cause, Unheard, Why, line_on};
use adr_config::{Config, ConfigFault, log_of, oddities};
use adr_log::{Console, Writer};
use adr_script::ScriptFault;
use adr_server as server;
use adr_server::{HostClock, serve_over, serve_with};
use log::{Level, LevelFilter, Log, Logged, error, log_enabled, warn};
use std::fs;
use std::fs::File;
use std::io::ErrorKind;
use std::net::{Net, TcpListener, TcpStream};
use std::rt::Files;
use std::sync::Wait;
use std::thread::Threads;
use std::time::Clock;

/// The bytes of a file. One that can't be read is no configuration, and it says why.
fn bytes<R: Files + AllocGlobal>(rt: &R, name: &str, why: &mut Why) -> Result<Vec<u8>, NodeFault>
    ensures { IfErr result IsOfReading }
{
    match fs::read(rt, name) {
        Ok(bytes) => Ok(bytes),
        Err(error) if error.kind() == ErrorKind::OutOfMemory => {
            Err(NodeFault::Script(ScriptFault::OutOfMemory))
        }
        Err(error) => {
            why.say(name, &Cause::of(&error));
            Err(NodeFault::BadConfig)
        }
    }
}

/// How much is told on standard error by what the bytes say.
fn level<R: AllocGlobal>(rt: &R, bytes: &[u8]) -> Result<LevelFilter, NodeFault>
    ensures { IfErr result IsOfReading }
{
    match log_of(rt.alloc(), bytes) {
        Ok(level) => Ok(level),
        Err(_) => Err(NodeFault::Script(ScriptFault::OutOfMemory)),
    }
}

/// The configuration that the bytes of a file are; the log is told what is wrong in them, and so is whoever reads the
/// last lines.
fn config<R: AllocGlobal + Log>(
    rt: &R,
    name: &str,
    bytes: &[u8],
    why: &mut Why,
) -> Result<Config, NodeFault>
    ensures said { IfOk result (IsConfig bytes.now) }
    ensures fault { IfErr result IsOfReading }
{
    match Config::read_or_tell(rt.alloc(), bytes) {
        Ok(config) => Ok(config),
        Err(ConfigFault::OutOfMemory) => Err(NodeFault::Script(ScriptFault::OutOfMemory)),
        Err(fault) => {
            error!(rt; target: "node", "bad configuration: {fault}");
            why.say(name, &fault);
            Err(NodeFault::BadConfig)
        }
    }
}

/// Tells what in the bytes of a configuration has no effect: the log, or where it isn't told of such, standard error
/// without it, since it is hardly meant.
fn tell_oddities<R: AllocGlobal + Log>(host: &HostRuntime, rt: &R, name: &str, bytes: &[u8]) {
    let Ok(oddities) = oddities(rt.alloc(), bytes) else {
        return;
    };
    let is_logged = log_enabled!(rt; target: "node", Level::Warn);
    for oddity in &oddities {
        if is_logged {
            warn!(rt; target: "node", "configuration: {oddity}");
        } else {
            let _ = host.eprintln(line_on(name, oddity).as_str());
        }
    }
}

/// Tells the log why a node ended early, but for an address at which it can't listen, which is told where that is tried.
fn tell_end<R: Log>(rt: &R, fault: server::NodeFault) {
    match fault {
        server::NodeFault::Bind => (),
        server::NodeFault::OutOfMemory => error!(rt; target: "node", "ended: out of memory"),
        server::NodeFault::Store => error!(rt; target: "node", "ended: store refused"),
    }
}

/// Serves by a configuration over the file that it names. The log is told why serving ended early.
fn serve_file<R, N>(
    host: &HostRuntime,
    rt: R,
    net: N,
    config: &Config,
    path: &str,
    why: &mut Why,
) -> Result<(), NodeFault>
where
    R: AllocGlobal + Threads + Wait + Clock + Log + Copy + Drop + Send + Sync + 'static,
    N: Net<Listener = TcpListener, Stream = TcpStream> + Clock + Copy + Drop + Send + 'static,
{
    let Ok(settings) = config.settings.copy() else {
        return Err(NodeFault::Script(ScriptFault::OutOfMemory));
    };
    let desk = file::desk(host, &rt, rt.alloc(), settings, path, why)?;
    tell_beginning(&rt, config);
    let clock = HostClock(rt);
    told(
        &rt,
        config,
        serve_over(rt, net, rt.alloc(), config, clock, desk, true),
        why,
    )
}

/// The same where all is kept in memory.
fn serve_memory<R, N>(rt: R, net: N, config: &Config, why: &mut Why) -> Result<(), NodeFault>
where
    R: AllocGlobal + Threads + Wait + Clock + Log + Copy + Drop + Send + Sync + 'static,
    N: Net<Listener = TcpListener, Stream = TcpStream> + Clock + Copy + Drop + Send + 'static,
{
    let clock = HostClock(rt);
    tell_beginning(&rt, config);
    let served = serve_with(rt, net, rt.alloc(), config, clock);
    told(&rt, config, served, why)
}

/// How serving ended; the log is told why, where that was early, and where it didn't begin also whoever reads the last
/// lines.
fn told<R: Log>(
    rt: &R,
    config: &Config,
    served: Result<(), server::NodeFault>,
    why: &mut Why,
) -> Result<(), NodeFault> {
    if let Err(fault) = &served {
        tell_end(rt, *fault);
    }
    if let Err(server::NodeFault::Bind) = &served {
        why.say("listen", &Unheard(config.listen));
    }
    Ok(served?)
}

/// Serves by the configuration that the bytes are, over the file that it names, or else in memory. The log is told what
/// stands in it.
fn serve<R, N>(
    host: &HostRuntime,
    rt: R,
    net: N,
    name: &str,
    bytes: &[u8],
    why: &mut Why,
) -> Result<(), NodeFault>
where
    R: AllocGlobal + Threads + Wait + Clock + Log + Copy + Drop + Send + Sync + 'static,
    N: Net<Listener = TcpListener, Stream = TcpStream> + Clock + Copy + Drop + Send + 'static,
{
    let config = config(&rt, name, bytes, why)?;
    tell_oddities(host, &rt, name, bytes);
    match &config.store {
        Some(path) => serve_file(host, rt, net, &config, path.as_str(), why),
        None => serve_memory(rt, net, &config, why),
    }
}

/// Starts what writes the log, unless nothing is to be told.
fn writer<R>(rt: R, level: LevelFilter) -> Result<Option<Writer<R>>, NodeFault>
where
    R: AllocGlobal + Threads + Wait + Eprint + Clock + Copy + Drop + Send + 'static,
    ensures { IfErr result IsOfReading }
{
    if level == LevelFilter::Off {
        return Ok(None);
    }
    match Writer::start(rt, rt.alloc()) {
        Ok(writer) => Ok(Some(writer)),
        Err(_) => Err(NodeFault::Script(ScriptFault::OutOfMemory)),
    }
}

/// The least number of an open file that is free, held by a file without bytes, if there is such a file.
fn hold_number<R: Files>(rt: &R) -> Option<R::File> {
    File::open(rt, "/dev/null").ok()
}

/// Serves by the configuration in a file and the system's clock, until it is to stop. Where a file can't be used it
/// says why.
pub fn run<R>(host: &HostRuntime, rt: R, name: &str, why: &mut Why) -> Result<(), NodeFault>
where
    R: Files
        + Eprint
        + AllocGlobal
        + Threads
        + Wait
        + Clock
        + Net<Listener = TcpListener, Stream = TcpStream>
        + Copy
        + Drop
        + Send
        + Sync
        + 'static,
{
    // Where standard input, output or error is closed, no socket is to take a number of theirs, or lines would go into it.
    let _input = hold_number(&rt);
    let _output = hold_number(&rt);
    let _error = hold_number(&rt);
    let bytes = bytes(&rt, name, why)?;
    let level = level(&rt, &bytes)?;
    let writer = writer(rt, level)?;
    let console = match &writer {
        Some(writer) => writer.console(),
        None => Console::quiet(rt),
    };
    // The handle that logs passes on no connecting within a time, so the plain one goes where the net is used.
    let served = serve(host, Logged::new(rt, level, console), rt, name, &bytes, why);
    if let Some(writer) = writer {
        writer.end();
    }
    served
}
