//! Four threads that take steps under the one lock, and an audit of all that they were told.
ghost use Rattle.std.specs.Prelude.{◌≡◌};

use crate::desk::{empty_desk, ten, ven};
use adr_book::{Office, Pass, Receipt, RecordedTrail};
use adr_machine::PlainDesk;
use adr_text::{Moment, Refusal};
use std::alloc::Global;
use std::marker::Brand;
use std::sync::ledger::{Blank, Ledger};
use std::sync::{Arc, Wait};
use std::test::*;
use std::thread;
use std::thread::{JoinHandle, Threads};

/// How many steps each thread takes.
const STEPS: u32 = 200;

/// What a thread hands back: its pass, and what it was told.
type Told<L> = (Pass<L>, Result<Vec<Receipt>, Refusal>);

// Enrols so many vens, each under the name of the thread and its own number.
fn enrol<L: Ledger, R: Wait>(
    rt: &R,
    alloc: Global,
    office: &Office<PlainDesk, RecordedTrail, L>,
    pass: &mut Pass<L>,
    at: Moment,
    thread: u32,
) -> Result<Vec<Receipt>, Refusal> {
    let mut receipts = Vec::new(alloc);
    for step in 0..STEPS {
        let name = format!(in alloc; "t{thread}-{step}")?;
        let command = ven(alloc, name.as_str())?;
        let receipt = office.book.lock(rt).step(pass, at, &command)?;
        receipts.push(receipt)?;
    }
    Ok(receipts)
}

fn start<L, R>(
    rt: R,
    alloc: Global,
    office: &Arc<Office<PlainDesk, RecordedTrail, L>, Global>,
    pass: Pass<L>,
    at: Moment,
    thread: u32,
) -> Result<JoinHandle<Told<L>>, Refusal>
where
    L: Ledger + Send + Sync + 'static,
    R: Threads + Wait + Copy + Send + 'static,
{
    let office = Arc::try_clone(office)?;
    let work = move || -> Told<L> {
        let mut pass = pass;
        let receipts = enrol(&rt, alloc, &*office, &mut pass, at, thread);
        (pass, receipts)
    };
    match thread::spawn(&rt, work) {
        Ok(handle) => Ok(handle),
        Err(_) => Err(Refusal::OutOfMemory),
    }
}

/// The turn, how many receipts there are, and whether an audit bears them all out.
#[derive(Drop)]
struct Shared {
    turn: u64,
    receipts: usize,
    agrees: bool,
}

fn share<L, R>(
    rt: R,
    alloc: Global,
    blank: Blank,
    desk: PlainDesk,
    at: Moment,
) -> Result<Shared, Refusal>
where
    L: Ledger + Send + Sync + 'static,
    R: Threads + Wait + Copy + Send + 'static,
    requires { (blank.name ≡ L.name) × (blank.parts ≡ L.parts) × (blank.parts ≡ 4) }
{
    let (office, mut passes) = Office::<PlainDesk, RecordedTrail, L>::open(alloc, blank, desk, 4)?;
    let office = Arc::new(alloc, office)?;
    let mut threads = Vec::with_capacity(alloc, 4)?;
    let mut number = 0;
    while let Some(pass) = passes.pop() {
        threads.push(start(rt, alloc, &office, pass, at, number)?)?;
        number += 1;
    }
    let mut receipts = Vec::new(alloc);
    while let Some(thread) = threads.pop() {
        let (pass, told) = thread.join(&rt);
        passes.push(pass)?;
        for receipt in told? {
            receipts.push(receipt)?;
        }
    }
    let agrees = office.book.lock(&rt).audit(alloc, &receipts).is_ok();
    let Some(office) = Arc::into_inner(office) else {
        return Err(Refusal::Store);
    };
    Ok(Shared {
        turn: office.gather(passes),
        receipts: receipts.len(),
        agrees,
    })
}

#[test]
fn four_threads_of_two_hundred_steps(rt: HostRuntime) -> Result<(), Fail> {
    let alloc = rt.alloc();
    let desk = empty_desk(alloc)?;
    let Ok(shared) = share::<Brand, _>(rt, alloc, Blank::new(4), desk, ten()?) else {
        panic!(rt; "a step was refused")
    };
    assert_eq!(rt; (shared.turn, shared.receipts), (800, 800));
    assert!(rt; shared.agrees);
    Ok(())
}
