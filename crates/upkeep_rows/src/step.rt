//! One step: an edit, what is refreshed then, and what whole views give.
use crate::choice::choose;
use crate::compared::{Step, Wanted, differs_kept, differs_told};
use crate::counts::Counts;
use crate::dice::Dice;
use crate::edit::Edit;
use crate::held::Held;
use crate::made::make;
use crate::pages::{EVENTS, event_text};
use crate::refreshed::{Told, refresh_touched};
use crate::scene::Scene;
use crate::touched::{Touched, add_touched};
use adr_db::{Meta, put_meta, read_meta};
use adr_objects::Kind;
use adr_state::Limits;
use adr_text::{Moment, ObjectId, Refusal};
use adr_view::{View, changes_of, restamped};
use sqlite::{Alter, Transaction};
use std::alloc::{AllocError, Global};

/// What goes on from step to step beside the tables.
#[derive(Drop)]
pub struct World {
    pub dice: Dice,
    pub limits: Limits,
    /// The number of the first event that isn't gone.
    pub first_event: u64,
    pub counts: Counts,
}

/// How a step ended.
#[derive(Clone, Copy)]
pub enum Ended {
    /// The edit was refused, or there was nothing to edit, and the transaction is to be dropped.
    Refused,
    /// All is as it has to be.
    Made,
    /// Something differs; where it is kept of one event, its number.
    Differs(&'static str, Option<u64>),
}

// Makes an edit, draws its number, and answers what it touched.
fn edited<S: Alter>(
    alloc: Global,
    tx: &mut Transaction<'_, S>,
    scene: &Scene<'_>,
    mut meta: Meta,
    edit: &Edit,
) -> Result<Touched, Refusal> {
    let mut touched = Touched::new(alloc);
    add_touched(alloc, tx, &mut touched, scene.number, edit)?;
    let risen = make(alloc, tx, scene, &mut meta, edit)?;
    touched.add_keys(risen.as_slice())?;
    meta.serial.draw(scene.limits, true)?;
    put_meta(tx, &meta)?;
    Ok(touched)
}

// What an edit touched, where it was made.
fn unless_refused(edited: Result<Touched, Refusal>) -> Result<Option<Touched>, Refusal> {
    match edited {
        Ok(touched) => Ok(Some(touched)),
        Err(Refusal::OutOfMemory) => Err(Refusal::OutOfMemory),
        Err(Refusal::Store) => Err(Refusal::Store),
        Err(_) => Ok(None),
    }
}

fn wanted(alloc: Global, before: &Held, after: &View, now: Moment) -> Result<Wanted, AllocError> {
    let changes = changes_of(alloc, &before.view, after)?;
    let stamps = restamped(alloc, &before.stamps, &before.view, after, now)?;
    Ok(Wanted { changes, stamps })
}

// What differs in what is kept of an event.
fn differs_of<S: Alter>(
    alloc: Global,
    tx: &mut Transaction<'_, S>,
    held: &Held,
    number: u64,
) -> Result<Option<&'static str>, Refusal> {
    let text = event_text(alloc, number)?;
    let event = ObjectId::new(alloc, text.as_str())?;
    differs_kept(alloc, tx, held, &event)
}

// Looks at what is kept of each event that ever came.
fn look_at_kept<S: Alter>(
    alloc: Global,
    tx: &mut Transaction<'_, S>,
    held: &Held,
    events: u64,
) -> Result<Ended, Refusal> {
    for number in 0..events {
        if let Some(what) = differs_of(alloc, tx, held, number)? {
            return Ok(Ended::Differs(what, Some(number)));
        }
    }
    Ok(Ended::Made)
}

fn look<S: Alter>(
    alloc: Global,
    tx: &mut Transaction<'_, S>,
    step: &Step<'_>,
    wanted: &Wanted,
    events: u64,
) -> Result<Ended, Refusal> {
    if let Some(what) = differs_told(alloc, step, wanted)? {
        return Ok(Ended::Differs(what, None));
    }
    let meta = read_meta(tx)?;
    if !step.after.is_counted(&meta) {
        return Ok(Ended::Differs("counts", None));
    }
    look_at_kept(alloc, tx, step.after, events)
}

impl World {
    /// A new world.
    pub fn new(seed: u64, limits: Limits) -> World {
        World {
            dice: Dice::new(seed),
            limits,
            first_event: 0,
            counts: Counts::none(),
        }
    }

    /// So many events came, or may have.
    pub fn events(&self) -> u64 {
        self.first_event.wrapping_add(EVENTS)
    }

    fn note_made(&mut self, edit: &Edit) {
        self.counts.count_made(edit.kind());
        if let Edit::Gone(Kind::Event, _) = edit {
            self.first_event = self.first_event.wrapping_add(1);
        }
    }

    fn note_told(&mut self, before: &Held, after: &Held, told: &Told) {
        self.counts.count_told(told);
        self.counts.count_gone(before, after);
    }
}

// Chooses an edit and makes it, and answers what it touched, unless it was refused.
fn edit_once<S: Alter>(
    alloc: Global,
    tx: &mut Transaction<'_, S>,
    world: &mut World,
    before: &Held,
    now: Moment,
) -> Result<Option<Touched>, Refusal> {
    let meta = read_meta(tx)?;
    let limits = world.limits;
    let scene = Scene {
        limits: &limits,
        now,
        number: meta.serial.next(),
        before,
        first_event: world.first_event,
    };
    let Some(edit) = choose(alloc, &mut world.dice, &scene)? else {
        return Ok(None);
    };
    let touched = unless_refused(edited(alloc, tx, &scene, meta, &edit))?;
    if touched.is_some() {
        world.note_made(&edit);
    }
    Ok(touched)
}

/// Makes an edit, and refreshes what it touched: what is told of that, or nothing where the edit was refused.
pub fn step<S: Alter>(
    alloc: Global,
    tx: &mut Transaction<'_, S>,
    world: &mut World,
    before: &Held,
    now: Moment,
) -> Result<Option<Told>, Refusal> {
    world.counts.count_step();
    match edit_once(alloc, tx, world, before, now)? {
        Some(touched) => Ok(Some(refresh_touched(alloc, tx, before, &touched, now)?)),
        None => {
            world.counts.count_refused();
            Ok(None)
        }
    }
}

/// Compares what a step told, and what is kept behind it, with what whole views give.
pub fn compare<S: Alter>(
    alloc: Global,
    tx: &mut Transaction<'_, S>,
    world: &mut World,
    step: &Step<'_>,
    now: Moment,
) -> Result<Ended, Refusal> {
    let wanted = wanted(alloc, step.before, &step.after.view, now)?;
    world.note_told(step.before, step.after, step.told);
    look(alloc, tx, step, &wanted, world.events())
}
