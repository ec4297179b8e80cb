//! The upstream events of which something else may be shown after an edit of a share, a resource or a ven.
ghost use Rattle.std.specs.Prelude.{◌≡◌, ◌==◌, ◌++◌, bytes_eq, IfOk, IfErr};
ghost use Rattle.std.specs.List.{list_any};
ghost use Rattle.adr_sql.specs.Calls.{LeavesLent};
ghost use Rattle.adr_refresh.specs.Touched.{shares_in, one_shares, has_resource, not_frozen, events_frozen_in};
ghost use Rattle.adr_db.specs.Calls.{Finds, IsOfStore};
ghost use Rattle.adr_touched.specs.Answers.{HasEvents, live_events};

use crate::frozen::{events_frozen_for, events_frozen_with, without_frozen};
use crate::programs::programs_of_resource;
use adr_db_portfolio::read_resources_of;
use adr_db_shown::read_live_events;
use adr_objects::Number;
use adr_state::MirrorKey;
use adr_text::{ObjectId, Refusal, Rows};
use sqlite::{Alter, Transaction};
use std::alloc::{AllocError, Global};

/// The upstream keys of the live events of a program.
pub fn events_of_program<S: Alter>(
    alloc: Global,
    tx: &mut Transaction<'_, S>,
    program: &ObjectId,
) -> Result<Rows<MirrorKey>, Refusal>
    ensures lent { LeavesLent S.Store tx.old.conn tx.new.conn result }
    ensures finds { Finds S.Store tx.old.conn.now tx.new.conn.now (λ kept keys. HasEvents keys (live_events (λ p. bytes_eq p program.now) kept)) result }
    ensures refused { IfErr result IsOfStore }
{
    read_live_events(alloc, tx, program)
}

// The keys of the live events of each of these programs.
fn events_of_programs<S: Alter>(
    alloc: Global,
    tx: &mut Transaction<'_, S>,
    programs: Rows<ObjectId>,
) -> Result<Rows<MirrorKey>, Refusal>
    ensures lent { LeavesLent S.Store tx.old.conn tx.new.conn result }
    ensures finds { Finds S.Store tx.old.conn.now tx.new.conn.now (λ kept keys. HasEvents keys (live_events (λ p. list_any (λ program. bytes_eq p program) programs) kept)) result }
    ensures refused { IfErr result IsOfStore }
{
    let mut all = Vec::new(alloc);
    'programs: for program in programs.into_vec() {
        let mut keys = events_of_program(alloc, tx, &program)?.into_vec();
        all.append(&mut keys)?;
    }
    Ok(Rows::from_vec(all))
}

// The upstream keys of the live events of the programs in which a resource has a share.
fn events_shared_by<S: Alter>(
    alloc: Global,
    tx: &mut Transaction<'_, S>,
    resource: Number,
) -> Result<Rows<MirrorKey>, Refusal>
    ensures lent { LeavesLent S.Store tx.old.conn tx.new.conn result }
    ensures finds { Finds S.Store tx.old.conn.now tx.new.conn.now (λ kept keys. HasEvents keys (live_events (shares_in kept.portfolio resource) kept)) result }
    ensures refused { IfErr result IsOfStore }
{
    let programs = programs_of_resource(alloc, tx, resource)?;
    events_of_programs(alloc, tx, programs)
}

// The keys of the live events of the programs in which one of these resources has a share.
fn events_shared_by_each<S: Alter>(
    alloc: Global,
    tx: &mut Transaction<'_, S>,
    resources: Rows<Number>,
) -> Result<Rows<MirrorKey>, Refusal>
    ensures lent { LeavesLent S.Store tx.old.conn tx.new.conn result }
    ensures finds { Finds S.Store tx.old.conn.now tx.new.conn.now (λ kept keys. HasEvents keys (live_events (λ p. list_any (λ n. shares_in kept.portfolio n p) resources) kept)) result }
    ensures refused { IfErr result IsOfStore }
{
    let mut all = Vec::new(alloc);
    'resources: for resource in resources.into_vec() {
        let mut keys = events_shared_by(alloc, tx, resource)?.into_vec();
        all.append(&mut keys)?;
    }
    Ok(Rows::from_vec(all))
}

// The upstream keys of the live events of the programs in which a resource of a ven has a share. A key may come more than once.
fn events_shared_with<S: Alter>(
    alloc: Global,
    tx: &mut Transaction<'_, S>,
    ven: Number,
) -> Result<Rows<MirrorKey>, Refusal>
    ensures lent { LeavesLent S.Store tx.old.conn tx.new.conn result }
    ensures finds { Finds S.Store tx.old.conn.now tx.new.conn.now (λ kept keys. HasEvents keys (live_events (one_shares kept.portfolio ven) kept)) result }
    ensures refused { IfErr result IsOfStore }
{
    let resources = read_resources_of(alloc, tx, ven)?;
    events_shared_by_each(alloc, tx, resources)
}

// The first keys, and then the others.
fn both(first: Rows<MirrorKey>, others: Rows<MirrorKey>) -> Result<Rows<MirrorKey>, AllocError>
    ensures { IfOk result (λ all. all ≡ first ++ others) }
{
    let mut all = first.into_vec();
    let mut more = others.into_vec();
    all.append(&mut more)?;
    Ok(Rows::from_vec(all))
}

/// The upstream keys of the events that an edit of a resource touches: the live events of the programs in which it has a share,
/// and those in which a share of it is frozen. A key may come twice.
pub fn events_of_resource<S: Alter>(
    alloc: Global,
    tx: &mut Transaction<'_, S>,
    resource: Number,
) -> Result<Rows<MirrorKey>, Refusal>
    ensures lent { LeavesLent S.Store tx.old.conn tx.new.conn result }
    ensures finds { Finds S.Store tx.old.conn.now tx.new.conn.now (λ kept keys. HasEvents keys (live_events (shares_in kept.portfolio resource) kept ++ events_frozen_in (λ m. m == resource) kept.portfolio)) result }
    ensures refused { IfErr result IsOfStore }
{
    let shared = events_shared_by(alloc, tx, resource)?;
    let frozen = events_frozen_for(alloc, tx, resource)?;
    Ok(both(shared, frozen)?)
}

/// Those that an edit of a ven touches: so of each of its resources. A key may come more than once.
pub fn events_of_ven<S: Alter>(
    alloc: Global,
    tx: &mut Transaction<'_, S>,
    ven: Number,
) -> Result<Rows<MirrorKey>, Refusal>
    ensures lent { LeavesLent S.Store tx.old.conn tx.new.conn result }
    ensures finds { Finds S.Store tx.old.conn.now tx.new.conn.now (λ kept keys. HasEvents keys (live_events (one_shares kept.portfolio ven) kept ++ events_frozen_in (has_resource kept.portfolio ven) kept.portfolio)) result }
    ensures refused { IfErr result IsOfStore }
{
    let shared = events_shared_with(alloc, tx, ven)?;
    let frozen = events_frozen_with(alloc, tx, ven)?;
    Ok(both(shared, frozen)?)
}

/// Those that an edit of a share in a program touches: the live events of the program but those that are frozen.
pub fn events_by_share<S: Alter>(
    alloc: Global,
    tx: &mut Transaction<'_, S>,
    program: &ObjectId,
) -> Result<Rows<MirrorKey>, Refusal>
    ensures lent { LeavesLent S.Store tx.old.conn tx.new.conn result }
    ensures finds { Finds S.Store tx.old.conn.now tx.new.conn.now (λ kept keys. HasEvents keys (not_frozen kept.portfolio (live_events (λ p. bytes_eq p program.now) kept))) result }
    ensures refused { IfErr result IsOfStore }
{
    let keys = events_of_program(alloc, tx, program)?;
    without_frozen(alloc, tx, keys)
}
