//! One connection, which is a source and a sink.
ghost use Rattle.std.specs.Prelude.{◌≡◌, ◌<◌};
ghost use Rattle.adr_lock.specs.Outcomes.{TakesOneAtMost};
ghost use Rattle.adr_http.specs.Takers.{TakesOnce};
ghost use Rattle.adr_server.specs.Outcomes.{AsksOffice};

use crate::office_taker::serve_shared;
use crate::paced::{Paced, Term};
use crate::request_log::{RequestLog, tell_request};
use crate::shared::Shared;
use crate::traffic::{Metered, Traffic};
use adr_book::{Office, Pass, Trail};
use adr_http::{Routes, ServeFault};
use adr_lock::Clock;
use adr_log::Stopwatch;
use adr_machine::Desk;
use adr_text::{Reader, Writer};
use log::Log;
use std::io::Read;
use std::marker::Brand;
use std::net::{Shutdown, TcpStream};
use std::sync::Wait;
use std::sync::ledger::{Blank, Ledger};
use std::time;
use std::time::Duration;

/// How long each read and write waits for the peer at most, and how long it has for its whole request, and again for the
/// whole reply.
fn term() -> Term {
    Term::new(Duration::from_secs(4), Duration::from_secs(20))
}

/// How long what is still coming is read after the reply.
fn rest() -> Term {
    Term::new(Duration::from_secs(1), Duration::from_secs(2))
}

/// How many reads of it there are at most. All of them pass over a few times the largest body that is taken.
const MOST_RESTS: u32 = 512;

/// How many bytes each of them takes at most.
const REST_BYTES: usize = 16_384;

fn paced<'a, T: time::Clock>(time: &'a T, stream: &'a TcpStream) -> Paced<'a, T> {
    Paced {
        time,
        stream,
        term: term(),
    }
}

// Reads to the end, or until a read fails, or so many times.
fn pass_over<R: Read>(reader: &mut R) {
    let mut passed = [0u8; REST_BYTES];
    for _ in 0..MOST_RESTS {
        match reader.read(&mut passed) {
            Ok(0) | Err(_) => return,
            Ok(_) => (),
        }
    }
}

// Ends this side, and reads on for a while: a close with bytes unread would be a reset, in which the reply can be lost.
fn let_go<T: time::Clock>(time: &T, stream: &TcpStream) {
    let _ = stream.shutdown(Shutdown::Write);
    pass_over(&mut Paced {
        time,
        stream,
        term: rest(),
    });
}

fn serve_over<D, T, L, C, R, K, M>(
    rt: &R,
    office: &Office<D, T, L>,
    shared: &Shared,
    routes: &Routes,
    clock: &C,
    pass: &mut Pass<L>,
    stream: &TcpStream,
    reads: Blank,
    writes: Blank,
    seen: &mut RequestLog,
    read: &mut Traffic,
    written: &mut Traffic,
) -> Result<(), ServeFault>
where
    D: Desk + Drop,
    T: Trail<D>,
    L: Ledger,
    C: Clock,
    R: Wait + time::Clock + Log,
    K: Ledger,
    M: Ledger,
    requires reads { (reads.name ≡ K.name) × (reads.parts ≡ K.parts) × (1 < reads.parts) }
    requires writes { (writes.name ≡ M.name) × (writes.parts ≡ M.parts) × (1 < writes.parts) }
    ensures once { TakesOnce (AsksOffice office.now (C.tells clock.now)) pass.old pass.new }
    ensures one { TakesOneAtMost pass.old pass.new }
{
    let reader = Metered {
        stream: paced(rt, stream),
        traffic: read,
    };
    let writer = Metered {
        stream: paced(rt, stream),
        traffic: written,
    };
    let mut source = Reader::<Metered<'_, Paced<'_, R>>, K>::new(reader, reads);
    let mut sink = Writer::<Metered<'_, Paced<'_, R>>, M>::new(writer, writes);
    serve_shared(
        rt,
        office,
        shared,
        routes,
        clock,
        pass,
        &mut source,
        &mut sink,
        seen,
    )
}

/// Serves a connection: one request, for which one turn is taken at most, and one reply. Reading and writing are outside
/// the lock; the log is told before the connection is let go.
pub fn serve_connection<
    D: Desk + Drop,
    T: Trail<D>,
    L: Ledger,
    C: Clock,
    R: Wait + time::Clock + Log,
>(
    rt: &R,
    office: &Office<D, T, L>,
    shared: &Shared,
    routes: &Routes,
    clock: &C,
    pass: &mut Pass<L>,
    stream: &TcpStream,
)
    ensures once { TakesOnce (AsksOffice office.now (C.tells clock.now)) pass.old pass.new }
    ensures one { TakesOneAtMost pass.old pass.new }
{
    let begun = Stopwatch::start(rt);
    let mut seen = RequestLog::new(rt);
    let (mut read, mut written) = (Traffic::none(), Traffic::none());
    let served = serve_over::<D, T, L, C, R, Brand, Brand>(
        rt,
        office,
        shared,
        routes,
        clock,
        pass,
        stream,
        Blank::new(2),
        Blank::new(2),
        &mut seen,
        &mut read,
        &mut written,
    );
    tell_request(rt, &seen, served, &read, &written, begun.millis(rt));
    match served {
        Ok(()) | Err(ServeFault::Write) => let_go(rt, stream),
        Err(ServeFault::Read) => (),
    }
}
