//! Edits are played one after another, each in a transaction of its own.
use crate::compared::Step;
use crate::counts::{Counts, print_counts, print_made};
use crate::held::{Held, read_held};
use crate::refreshed::Told;
use crate::step::{Ended, World, compare, step};
use crate::visited::visit_all;
use adr_db::create;
use adr_state::Limits;
use adr_text::Moment;
use anyhow::{Result, bail};
use sqlite::{Alter, Connection};
use std::alloc::Global;

/// The seeds, and how many steps are played from each.
const SEEDS: [u64; 5] = [1, 22, 333, 4_444, 55_555];

const STEPS: u64 = 300;

const NANOS_PER_SECOND: u64 = 1_000_000_000;

/// Few vens and resources, so that names are taken, and each is in many steps.
fn limits() -> Limits {
    let mut limits = Limits::largest();
    limits.set("vens", 3);
    limits.set("resources", 6);
    limits.set("reports", 12);
    limits
}

/// Makes the tables.
pub fn make_tables<S: Alter>(conn: &mut Connection<S>) -> Result<()> {
    if !conn.is_autocommit() {
        bail!("a transaction stands");
    }
    let mut tx = conn.transaction();
    create(&mut tx)?;
    tx.commit()?;
    Ok(())
}

/// An edit in a transaction: what one that is refused wrote goes with that.
fn edit_in<S: Alter>(
    alloc: Global,
    conn: &mut Connection<S>,
    world: &mut World,
    before: &Held,
    now: Moment,
) -> Result<Option<Told>> {
    if !conn.is_autocommit() {
        bail!("a transaction stands");
    }
    let mut tx = conn.transaction();
    match step(alloc, &mut tx, world, before, now)? {
        Some(told) => {
            tx.commit()?;
            Ok(Some(told))
        }
        None => Ok(None),
    }
}

/// What a step told and left is compared, in a transaction that is dropped.
fn compare_in<S: Alter>(
    alloc: Global,
    conn: &mut Connection<S>,
    world: &mut World,
    step: &Step<'_>,
    now: Moment,
) -> Result<Ended> {
    if !conn.is_autocommit() {
        bail!("a transaction stands");
    }
    let mut tx = conn.transaction();
    Ok(compare(alloc, &mut tx, world, step, now)?)
}

/// One step: the tables are read whole before it and after it.
fn step_in<S: Alter>(
    alloc: Global,
    conn: &mut Connection<S>,
    world: &mut World,
    now: Moment,
) -> Result<Ended> {
    let before = read_held(alloc, conn)?;
    let Some(told) = edit_in(alloc, conn, world, &before, now)? else {
        return Ok(Ended::Refused);
    };
    let after = read_held(alloc, conn)?;
    let step = Step {
        before: &before,
        after: &after,
        told: &told,
    };
    compare_in(alloc, conn, world, &step, now)
}

fn moment(step: u64) -> Result<Moment> {
    Ok(Moment::at(step.wrapping_mul(NANOS_PER_SECOND))?)
}

/// Prints what differs at a step, and answers whether nothing does.
fn tell<R: Print>(rt: &R, seed: u64, step: u64, ended: Ended) -> Result<bool> {
    match ended {
        Ended::Refused | Ended::Made => Ok(true),
        Ended::Differs(what, None) => {
            println!(rt; "seed {seed} step {step}: {what}")?;
            Ok(false)
        }
        Ended::Differs(what, Some(event)) => {
            println!(rt; "seed {seed} step {step}: {what}, e-{event}")?;
            Ok(false)
        }
    }
}

/// Plays the steps of a seed, up to the first at which something differs, and answers whether nothing does.
fn play_steps<S: Alter, R: Print + AllocGlobal>(
    rt: &R,
    conn: &mut Connection<S>,
    seed: u64,
    world: &mut World,
) -> Result<bool> {
    for step in 1..=STEPS {
        let ended = step_in(rt.alloc(), conn, world, moment(step)?)?;
        if !tell(rt, seed, step, ended)? {
            return Ok(false);
        }
    }
    Ok(true)
}

/// Visits all events that came, in a transaction that is dropped, and answers whether each is told and kept.
fn visit<S: Alter>(alloc: Global, conn: &mut Connection<S>, world: &World) -> Result<bool> {
    let held = read_held(alloc, conn)?;
    if !conn.is_autocommit() {
        bail!("a transaction stands");
    }
    let mut tx = conn.transaction();
    let now = moment(STEPS.wrapping_add(1))?;
    Ok(visit_all(
        alloc,
        &mut tx,
        &held,
        &Limits::largest(),
        world.events(),
        now,
    )?)
}

/// Plays a seed over tables in memory.
fn play_seed<R: Print + AllocGlobal>(rt: &R, seed: u64, sum: &mut Counts) -> Result<bool> {
    let mut conn = Connection::open_in_memory(rt.alloc())?;
    make_tables(&mut conn)?;
    let mut world = World::new(seed, limits());
    let is_same = play_steps(rt, &mut conn, seed, &mut world)?;
    print_counts(rt, seed, &world.counts)?;
    sum.add_made(&world.counts);
    let is_visited = visit(rt.alloc(), &mut conn, &world)?;
    if !is_visited {
        println!(rt; "seed {seed}: a visit differs")?;
    }
    Ok(is_same && is_visited)
}

/// Plays each seed, and answers whether nothing differed.
pub fn play<R: Print + AllocGlobal>(rt: &R) -> Result<bool> {
    let mut is_same = true;
    let mut sum = Counts::none();
    for seed in SEEDS {
        is_same &= play_seed(rt, seed, &mut sum)?;
    }
    print_made(rt, &sum)?;
    if is_same {
        println!(rt; "no difference")?;
    }
    Ok(is_same)
}
