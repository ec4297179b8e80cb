//! Where lines go: to a thread of their own, which writes them to standard error.
use crate::shown::Shown;
use crossbeam_channel::{Receiver, Sender};
use jiff::Timestamp;
use log::kv::Source;
use log::span::Spans;
use log::{Line, Log, Metadata, Record};
use std::alloc::{AllocError, Global};
use std::fmt::{Display, Write};
use std::sync::Wait;
use std::sync::atomic::{AtomicU64, Ordering};
use std::thread;
use std::thread::Threads;
use std::time::{Clock, Duration, SystemTime};

/// How many lines wait for the thread at most. One more is left out, and counted.
const ROOM: usize = 256;

/// How many seconds the end waits for room, and how many for a thread that is behind.
const PATIENCE: u64 = 2;

// What is put for the thread: lines, and last that there are no more.
#[derive(Drop)]
struct Lines {
    put: Sender<Option<Shown>, Global>,
    left_out: AtomicU64,
}

/// Hands each record over as a line of at most 1,024 bytes, with the moment behind it. Nobody waits for standard error but
/// the thread that writes there: where it doesn't get on, lines are left out, and it tells how many once it does. A line
/// that can't be written is dropped.
#[derive(Clone, Copy, Drop)]
pub struct Console<R: 'static> {
    rt: R,
    lines: Option<&'static Lines>,
}

impl<R> Console<R> {
    /// Leaves out each line, and doesn't count it.
    pub fn quiet(rt: R) -> Console<R> {
        Console { rt, lines: None }
    }
}

/// The thread that writes, as long as it runs.
#[derive(Drop)]
pub struct Writer<R> {
    rt: R,
    lines: &'static Lines,
    // Nothing comes here. It is closed by the end of the thread.
    ended: Receiver<(), Global>,
}

// Behind what a line says, the moment that the clock tells, to the millisecond.
fn stamp<R: Clock>(rt: &R, line: &mut Shown) {
    let Ok(now) = SystemTime::now(rt) else {
        return;
    };
    if let Ok(now) = Timestamp::try_from(now) {
        line.open_end();
        let _ = write!(line, " time={now:.3}");
    }
}

impl<R: Wait + Clock> Log for Console<R> {
    ghost use Rattle.std.specs.Prelude.{[], Some, true};

    ghost enables = { λ _ _ _. Some true };

    ghost target_of = { λ _. Some [] };

    fn enabled(&self, _metadata: &Metadata<'_>) -> bool {
        true
    }

    fn log<D: Display, K: Source, S: Spans>(&self, record: &Record<'_, D, K, S>) {
        let Some(lines) = self.lines else {
            return;
        };
        let mut line = Shown::new();
        let _ = line.write(Line::new(record));
        stamp(&self.rt, &mut line);
        if lines.put.try_send(&self.rt, Some(line)).is_err() {
            let _ = lines.left_out.fetch_add(1, Ordering::SeqCst);
        }
    }

    fn flush(&self) {}

    fn target(&self) -> &str {
        ""
    }
}

// Tells how many lines were left out since this was told, if any.
fn tell_left_out<R: Eprint + Clock>(rt: &R, lines: &Lines) {
    let count = lines.left_out.swap(0, Ordering::SeqCst);
    if count == 0 {
        return;
    }
    let mut line = Shown::new();
    let _ = write!(line, "[WARN  log] lines were left out count={count}");
    stamp(rt, &mut line);
    let _ = rt.eprintln(line.as_str());
}

// Writes each line that is put, until there are no more.
fn write_each<R: Wait + Eprint + Clock>(
    rt: &R,
    lines: &Lines,
    taken: &Receiver<Option<Shown>, Global>,
) {
    for line in taken.iter(rt) {
        let Some(line) = line else {
            break;
        };
        let _ = rt.eprintln(line.as_str());
        tell_left_out(rt, lines);
    }
}

impl<R> Writer<R>
where
    R: Threads + Wait + Eprint + Clock + Copy + Drop + Send + 'static,
{
    /// Starts the thread. A few hundred kilobytes are kept for the lines, and never given back.
    pub fn start(rt: R, alloc: Global) -> Result<Writer<R>, AllocError> {
        let (put, taken) = crossbeam_channel::bounded::<Option<Shown>, Global>(alloc, ROOM)?;
        let (running, ended) = crossbeam_channel::bounded::<(), Global>(alloc, 1)?;
        let left_out = AtomicU64::new(0);
        let lines: &'static Lines = Box::leak(Box::new(alloc, Lines { put, left_out })?);
        let work = move || {
            write_each(&rt, lines, &taken);
            drop(running);
        };
        let _thread = thread::spawn(&rt, work)?;
        Ok(Writer { rt, lines, ended })
    }
}

impl<R: Wait + Clock + Copy> Writer<R> {
    /// What hands lines over.
    pub fn console(&self) -> Console<R> {
        Console {
            rt: self.rt,
            lines: Some(self.lines),
        }
    }

    /// Waits until the lines that were handed over are written, for some seconds at most.
    pub fn end(self) {
        let Writer { rt, lines, ended } = self;
        let patience = Duration::from_secs(PATIENCE);
        if lines.put.send_timeout(&rt, None, patience).is_ok() {
            let _ = ended.recv_timeout(&rt, patience);
        }
    }
}
