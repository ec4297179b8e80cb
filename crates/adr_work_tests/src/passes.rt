//! Two threads under the one lock; two passes over a trail that holds one command.
ghost use Rattle.std.specs.Prelude.{◌≡◌, ◌+◌, ◌≤◌, IfOk, length};
ghost use Rattle.adr_book.specs.Words.{taken_by};

use crate::desk::{desk_with_trail, ven};
use adr_book::{AuditFault, Office, Pass, RecordedTrail};
use adr_machine::{Answer, Command, Desk, Object, PlainDesk, Query, Role};
use adr_text::{Moment, ObjectId, Refusal};
use std::alloc::Global;
use std::marker::Brand;
use std::process::Abort;
use std::sync::Wait;
use std::sync::ledger::{Blank, Ledger};
use std::test::*;
use std::thread;
use std::thread::Threads;

fn ven_gone(alloc: Global, id: &str) -> Result<Command, Refusal> {
    Ok(Command::VenRemove {
        role: Role::Operator,
        id: ObjectId::new(alloc, id)?,
    })
}

// Takes a step for each command, and counts those that were accepted.
fn take_steps<D: Desk + Drop, L: Ledger, R: Wait>(
    rt: &R,
    office: &Office<D, RecordedTrail, L>,
    mut pass: Pass<L>,
    at: Moment,
    commands: &[Command],
) -> (Pass<L>, usize)
    ensures share { taken_by result.0 ≡ taken_by pass + result.1 }
    ensures most { result.1 ≤ length commands.now }
{
    let mut accepted = 0;
    for command in commands {
        let taken = office.book.lock(rt).step(&mut pass, at, command);
        if taken.is_ok() {
            accepted += 1;
        }
    }
    (pass, accepted)
}

// The turn in the end, and how many steps of each thread were accepted.
fn shared_day<D: Desk + Drop + Send, L: Ledger + Send + Sync, R: Threads + Wait + Sync>(
    rt: &R,
    alloc: Global,
    blank: Blank,
    desk: D,
    at: Moment,
    first: &[Command],
    second: &[Command],
) -> Result<(u64, usize, usize), Refusal>
    requires name { blank.name ≡ L.name }
    requires parts { (blank.parts ≡ L.parts) × (blank.parts ≡ 2) }
    ensures { IfOk result (λ r. r.0 ≡ r.1 + r.2) }
{
    let (office, mut passes) = Office::<D, RecordedTrail, L>::open(alloc, blank, desk, 2)?;
    let (Some(mine), Some(yours)) = (passes.pop(), passes.pop()) else {
        unreachable!()
    };
    let shared = &office;
    let ((mine, a), (yours, b)) = thread::join(
        rt,
        move || -> (Pass<L>, usize)
            requires { taken_by mine ≡ 0 }
            ensures { taken_by result.0 ≡ result.1 }
        { take_steps(rt, shared, mine, at, first) },
        move || -> (Pass<L>, usize)
            requires { taken_by yours ≡ 0 }
            ensures { taken_by result.0 ≡ result.1 }
        { take_steps(rt, shared, yours, at, second) },
    );
    passes.push(mine)?;
    passes.push(yours)?;
    Ok((office.gather(passes), a, b))
}

#[test]
fn two_threads_share_the_turns(rt: HostRuntime) -> Result<(), Fail> {
    let alloc = rt.alloc();
    let Ok(at) = Moment::at(7) else {
        panic!(rt; "moment")
    };
    let (Ok(desk), Ok(ada), Ok(ben), Ok(cy), Ok(gone)) = (
        desk_with_trail(alloc, 3),
        ven(alloc, "Ada"),
        ven(alloc, "Ben"),
        ven(alloc, "Cy"),
        ven_gone(alloc, "v9"),
    ) else {
        panic!(rt; "commands")
    };
    let first = [ada, ben];
    let second = [cy, gone];
    let turn = shared_day::<_, Brand, _>(&rt, alloc, Blank::new(2), desk, at, &first, &second);
    assert!(rt; matches!(turn, Ok((3, 2, 1))));
    Ok(())
}

/// Row 22: an office over an empty desk with `trail=1` and two passes. A ven is enrolled with turn 1; a look by the
/// other pass tells it at turn 1; a second ven is refused 5; after `rebase` it has turn 2; an audit of that receipt is
/// Ok, and `Mismatch(2)` with another answer; `gather` gives 2.
#[test]
fn two_passes_over_a_trail_of_one(rt: HostRuntime) -> Result<(), Fail> {
    let alloc = rt.alloc();
    by_two::<Brand, _>(&rt, alloc, Blank::new(2))
}

// Whether the answer is the ven of that number and name.
fn is_ven(answer: &Answer, number: u64, name: &str) -> bool {
    match answer {
        Answer::Object(Object::Ven(ven)) => {
            ven.number.get() == number && ven.name.as_str() == name
        }
        _ => false,
    }
}

fn by_two<L: Ledger, R: Wait + Abort>(rt: &R, alloc: Global, blank: Blank) -> Result<(), Fail>
    requires { (blank.name ≡ L.name) × (blank.parts ≡ L.parts) × (blank.parts ≡ 2) }
{
    let desk = desk_with_trail(alloc, 1).map_err(|_| "a desk")?;
    let (office, mut passes) = Office::<_, RecordedTrail, L>::open(alloc, blank, desk, 2).map_err(
        |_| "opens",
    )?;
    let (Some(mut second), Some(mut first)) = (passes.pop(), passes.pop()) else {
        unreachable!()
    };
    take_turns(rt, alloc, &office, &mut first, &mut second)?;
    let turn = gathered(office, passes, first, second).map_err(|_| "both passes")?;
    assert_eq!(rt; turn, 2);
    Ok(())
}

// What both passes have taken.
fn gathered<D: Desk + Drop, L: Ledger>(
    office: Office<D, RecordedTrail, L>,
    passes: Vec<Pass<L>>,
    first: Pass<L>,
    second: Pass<L>,
) -> Result<u64, Refusal>
    requires { (length passes.items ≡ 0) × (L.parts ≡ 2) }
{
    let mut passes = passes;
    passes.push(first)?;
    passes.push(second)?;
    Ok(office.gather(passes))
}

// What row 22 does before `gather`.
fn take_turns<L: Ledger, R: Wait + Abort>(
    rt: &R,
    alloc: Global,
    office: &Office<PlainDesk, RecordedTrail, L>,
    first: &mut Pass<L>,
    second: &mut Pass<L>,
) -> Result<(), Fail> {
    let at = Moment::at(7).map_err(|_| "a moment")?;
    let ada = ven(alloc, "Ada").map_err(|_| "a ven")?;
    let ben = ven(alloc, "Ben").map_err(|_| "a ven")?;
    let query = Query::Ven {
        role: Role::Operator,
        id: ObjectId::new(alloc, "v1").map_err(|_| "an id")?,
    };
    let mut guard = office.book.lock(rt);
    let book = &mut *guard;
    let one = book.step(first, at, &ada).map_err(|_| "first step")?;
    assert_eq!(rt; one.turn, 1);
    assert!(rt; is_ven(&one.answer, 1, "Ada"));
    let (turn, answer) = book.look(second, query).map_err(|_| "look")?;
    assert_eq!(rt; turn, 1);
    assert!(rt; is_ven(&answer, 1, "Ada"));
    let full = book.step(second, at, &ben);
    assert!(rt; matches!(full, Err(refusal) if refusal.number() == 5));
    book.rebase().map_err(|_| "rebase")?;
    let two = book.step(second, at, &ben).map_err(|_| "second step")?;
    assert_eq!(rt; two.turn, 2);
    let mut receipts = Vec::new(alloc);
    receipts.push(two)?;
    assert!(rt; book.audit(alloc, &receipts).is_ok());
    receipts[0].answer = Answer::Done;
    assert!(rt; matches!(book.audit(alloc, &receipts), Err(AuditFault::Mismatch(2))));
    Ok(())
}
