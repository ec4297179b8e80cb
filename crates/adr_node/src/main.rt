//! The node: `adr_node script [NAME=NUMBER ..]` answers the lines of a script on standard input, `adr_node init FILE` makes
//! a file in which a node keeps its state, `adr_node serve CONFIG` serves over sockets by the configuration in that file.
#![tactic(auto)]

mod arguments;
mod beginning;
mod ending;
mod file;
mod script;
mod serve;
mod version;
mod why;

use adr_script::ScriptFault;
use ending::Ran;
use std::env;
use std::io::ErrorKind;
use std::net::{Net, TcpListener, TcpStream};
use std::process::ExitCode;
use std::rt::{Env, Files};
use std::sync::Wait;
use std::thread::Threads;
use std::time::Clock;
use why::Why;

/// The words behind the program's name, if they can be read.
fn words<R: Env + AllocGlobal>(rt: &R) -> Result<Option<Vec<String>>, ScriptFault> {
    let words = match env::args(rt) {
        Ok(words) => words,
        Err(error) if error.kind() == ErrorKind::OutOfMemory => {
            return Err(ScriptFault::OutOfMemory);
        }
        Err(_) => return Ok(None),
    };
    let mut behind = Vec::new(rt.alloc());
    for word in words.skip(1) {
        if behind.push(word).is_err() {
            return Err(ScriptFault::OutOfMemory);
        }
    }
    Ok(Some(behind))
}

/// Does what the words ask for, if they are of one of the program's forms. Where a file can't be used it says why.
fn ran<R>(host: &HostRuntime, rt: R, why: &mut Why) -> Ran
where
    R: Env
        + Files
        + Eprint
        + Input
        + Print
        + AllocGlobal
        + Threads
        + Wait
        + Clock
        + Net<Listener = TcpListener, Stream = TcpStream>
        + Copy
        + Drop
        + Send
        + Sync
        + 'static,
{
    let Some(words) = words(&rt)? else {
        return Ok(None);
    };
    if let Some(name) = arguments::named_after("init", &words) {
        file::init(host, name, why)?;
        return Ok(Some(0));
    }
    if let Some(name) = arguments::named_after("serve", &words) {
        serve::run(host, rt, name, why)?;
        return Ok(Some(0));
    }
    match arguments::limits_of(&words) {
        Some(limits) => Ok(Some(script::run(&rt, limits)?)),
        None => Ok(None),
    }
}

fn main(rt: HostRuntime) -> ExitCode {
    let mut why = Why::none();
    let ran = ran(&rt, rt, &mut why);
    why.tell(&rt);
    if let Some(line) = ending::line_of(&ran) {
        let _ = eprintln!(rt; "{line}");
    }
    ending::status_of(&ran)
}
