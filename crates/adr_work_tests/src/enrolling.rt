//! Two threads that enrol fifty vens each: over a trail that keeps all their commands, over one that has no room for them,
//! and over one that keeps none.
ghost use Rattle.std.specs.Prelude.{◌≡◌};

use crate::clock::Still;
use crate::desk::{desk_with_trail, ten, ven};
use crate::quiet::quiet;
use adr_book::{Office, Pass, Receipt, RecordedTrail, Trail, UnrecordedTrail};
use adr_lock::{Call, Steps, take_under_lock};
use adr_machine::{Answer, Command, Object, Page, PlainDesk, Query, Role};
use adr_text::{Moment, Refusal};
use std::alloc::Global;
use std::marker::Brand;
use std::sync::Wait;
use std::sync::ledger::{Blank, Ledger};
use std::test::*;
use std::thread;
use std::thread::Threads;

/// How many vens each thread enrols.
const VENS: u32 = 50;

/// How often a step is tried: once more after a new base, and once more where the other thread has filled the trail.
const MOST_TRIES: u32 = 3;

// A step by hand, with its receipt.
fn stepped<L: Ledger, R: Wait>(
    rt: &R,
    office: &Office<PlainDesk, RecordedTrail, L>,
    pass: &mut Pass<L>,
    at: Moment,
    command: &Command,
) -> Result<Receipt, Refusal> {
    for _ in 0..MOST_TRIES {
        match office.book.lock(rt).step(pass, at, command) {
            Err(Refusal::TrailFull) => (),
            taken => return taken,
        }
        office.book.lock(rt).rebase()?;
    }
    Err(Refusal::TrailFull)
}

fn enrol_each<L: Ledger, R: Wait>(
    rt: &R,
    alloc: Global,
    office: &Office<PlainDesk, RecordedTrail, L>,
    pass: &mut Pass<L>,
    at: Moment,
    name: &str,
) -> Result<Vec<Receipt>, Refusal> {
    let mut receipts = Vec::new(alloc);
    for step in 0..VENS {
        let name = format!(in alloc; "{name}-{step}")?;
        let command = ven(alloc, name.as_str())?;
        receipts.push(stepped(rt, office, pass, at, &command)?)?;
    }
    Ok(receipts)
}

// Enrols its vens by hand; hands back the pass, and the receipts.
fn enrol_by_hand<L: Ledger, R: Wait>(
    rt: &R,
    alloc: Global,
    office: &Office<PlainDesk, RecordedTrail, L>,
    mut pass: Pass<L>,
    at: Moment,
    name: &str,
) -> (Pass<L>, Result<Vec<Receipt>, Refusal>) {
    let done = enrol_each(rt, alloc, office, &mut pass, at, name);
    (pass, done)
}

fn enrol_each_under_lock<L: Ledger, R: Wait>(
    rt: &R,
    alloc: Global,
    office: &Office<PlainDesk, UnrecordedTrail<PlainDesk>, L>,
    pass: &mut Pass<L>,
    at: Moment,
    name: &str,
) -> Result<(), Refusal> {
    let mut steps = Steps::new();
    for step in 0..VENS {
        let name = format!(in alloc; "{name}-{step}")?;
        let command = ven(alloc, name.as_str())?;
        take_under_lock(
            &quiet(rt),
            office,
            &Still(at),
            pass,
            &mut steps,
            Call::Step(&command),
        )?;
    }
    Ok(())
}

// Enrols its vens under the lock; hands back the pass.
fn enrol_under_lock<L: Ledger, R: Wait>(
    rt: &R,
    alloc: Global,
    office: &Office<PlainDesk, UnrecordedTrail<PlainDesk>, L>,
    mut pass: Pass<L>,
    at: Moment,
    name: &str,
) -> (Pass<L>, Result<(), Refusal>) {
    let done = enrol_each_under_lock(rt, alloc, office, &mut pass, at, name);
    (pass, done)
}

// The numbers of the vens on a page.
fn numbers<T: Trail<PlainDesk>, L: Ledger, R: Wait>(
    rt: &R,
    office: &Office<PlainDesk, T, L>,
    pass: &mut Pass<L>,
    skip: u32,
    numbers: &mut Vec<u64>,
) -> Result<(), Refusal> {
    let query = Query::Vens {
        role: Role::Operator,
        page: Page { skip, limit: 50 },
    };
    let (_, answer) = office.book.lock(rt).look(pass, query)?;
    if let Answer::List(objects) = &answer {
        for object in objects.as_slice() {
            if let Object::Ven(ven) = object {
                numbers.push(ven.number.get())?;
            }
        }
    }
    Ok(())
}

// Whether the vens are v1 to v100.
fn are_all_there<T: Trail<PlainDesk>, L: Ledger, R: Wait>(
    rt: &R,
    alloc: Global,
    office: &Office<PlainDesk, T, L>,
    pass: &mut Pass<L>,
) -> Result<bool, Refusal> {
    let mut found = Vec::new(alloc);
    for skip in [0, 50, 100] {
        numbers(rt, office, pass, skip, &mut found)?;
    }
    Ok(
        found.len() == 100
            && found
                .iter()
                .enumerate()
                .all(|(at, number)| *number == at as u64 + 1),
    )
}

/// What there is at the end.
#[derive(Clone, Copy)]
struct Enrolled {
    all_there: bool,
    receipts: usize,
    agrees: bool,
    turn: u64,
}

// Two threads that take their steps by hand, over a trail that is kept.
fn by_hand<L: Ledger + Send + Sync, R: Threads + Wait + Sync>(
    rt: &R,
    alloc: Global,
    blank: Blank,
    desk: PlainDesk,
    at: Moment,
) -> Result<Enrolled, Refusal>
    requires { (blank.name ≡ L.name) × (blank.parts ≡ L.parts) × (blank.parts ≡ 2) }
{
    let (office, mut passes) = Office::<PlainDesk, RecordedTrail, L>::open(alloc, blank, desk, 2)?;
    let (Some(mine), Some(yours)) = (passes.pop(), passes.pop()) else {
        unreachable!()
    };
    let shared = &office;
    let ((mut mine, first), (yours, second)) = thread::join(
        rt,
        move || -> (Pass<L>, Result<Vec<Receipt>, Refusal>) {
            enrol_by_hand(rt, alloc, shared, mine, at, "a")
        },
        move || -> (Pass<L>, Result<Vec<Receipt>, Refusal>) {
            enrol_by_hand(rt, alloc, shared, yours, at, "b")
        },
    );
    let mut receipts = first?;
    for receipt in second? {
        receipts.push(receipt)?;
    }
    let all_there = are_all_there(rt, alloc, &office, &mut mine)?;
    let agrees = office.book.lock(rt).audit(alloc, &receipts).is_ok();
    passes.push(mine)?;
    passes.push(yours)?;
    Ok(Enrolled {
        all_there,
        receipts: receipts.len(),
        agrees,
        turn: office.gather(passes),
    })
}

// Two threads that take their steps by the one place of the lock, over a trail that keeps nothing and so is never full.
fn under_lock<L: Ledger + Send + Sync, R: Threads + Wait + Sync>(
    rt: &R,
    alloc: Global,
    blank: Blank,
    desk: PlainDesk,
    at: Moment,
) -> Result<(bool, u64), Refusal>
    requires { (blank.name ≡ L.name) × (blank.parts ≡ L.parts) × (blank.parts ≡ 2) }
{
    let (office, mut passes) = Office::<PlainDesk, UnrecordedTrail<PlainDesk>, L>::open(
        alloc, blank, desk, 2,
    )?;
    let (Some(mine), Some(yours)) = (passes.pop(), passes.pop()) else {
        unreachable!()
    };
    let shared = &office;
    let ((mut mine, first), (yours, second)) = thread::join(
        rt,
        move || -> (Pass<L>, Result<(), Refusal>) {
            enrol_under_lock(rt, alloc, shared, mine, at, "a")
        },
        move || -> (Pass<L>, Result<(), Refusal>) {
            enrol_under_lock(rt, alloc, shared, yours, at, "b")
        },
    );
    first?;
    second?;
    let all_there = are_all_there(rt, alloc, &office, &mut mine)?;
    passes.push(mine)?;
    passes.push(yours)?;
    Ok((all_there, office.gather(passes)))
}

/// Row 31: two threads with a pass each enrol 50 vens: v1 to v100, the audit of the 100 receipts is Ok, `gather` is
/// 100. With `trail=40`, where a caller that is refused 5 makes a new base and tries again, the vens and `gather` are
/// the same, and so they are over a trail that keeps nothing, through `take_under_lock` with `trail=1`.
#[test]
fn fifty_vens_each(rt: HostRuntime) -> Result<(), Fail> {
    let alloc = rt.alloc();
    for trail in [1_000, 40] {
        let desk = desk_with_trail(alloc, trail)?;
        let day = by_hand::<Brand, _>(&rt, alloc, Blank::new(2), desk, ten()?)?;
        assert!(rt; day.all_there && day.agrees);
        assert_eq!(rt; (day.receipts, day.turn), (100, 100));
    }
    let desk = desk_with_trail(alloc, 1)?;
    let (all_there, turn) = under_lock::<Brand, _>(&rt, alloc, Blank::new(2), desk, ten()?)?;
    assert!(rt; all_there);
    assert_eq!(rt; turn, 100);
    Ok(())
}
