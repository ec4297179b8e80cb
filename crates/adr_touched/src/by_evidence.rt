//! What evidence touches.
ghost use Rattle.std.specs.Prelude.{◌≡◌, [], ◌∷◌, IfOk, IfErr};
ghost use Rattle.adr_sql.specs.Calls.{LeavesLent};
ghost use Rattle.adr_objects.specs.declared.kind.Kind.TheVariants as kind;
ghost use Rattle.adr_state.specs.declared.base.Mark.{Mark};
ghost use Rattle.adr_state.specs.Mirror.{evidence_of};
ghost use Rattle.adr_db.specs.BaseCalls.{FindsOn};
ghost use Rattle.adr_db.specs.Calls.{IsOfStore};
ghost use Rattle.adr_touched.specs.Touched.{ids_of, ProgramsStoodAt, ProgramsStood, CoversEvidence};

use crate::object_keys::{keys_of_founds, program_keys};
use crate::ordered::ids_of;
use crate::stood::objects_at;
use crate::touched::{Touched, with_rollups};
use adr_kept_view::OldObject;
use adr_objects::{Found, Kind};
use adr_state::MirrorKey;
use adr_text::{ObjectId, Refusal, Rows};
use sqlite::{Alter, Transaction};
use std::alloc::{AllocError, Global};

// The programs among these keys, in order, each once, and what stands there.
fn programs_at<S: Alter>(
    alloc: Global,
    tx: &mut Transaction<'_, S>,
    keys: Rows<MirrorKey>,
) -> Result<Rows<OldObject>, Refusal>
    ensures lent { LeavesLent S.Store tx.old.conn tx.new.conn result }
    ensures finds { FindsOn S.Store tx.old.conn.now tx.new.conn.now (ProgramsStoodAt keys) result }
    ensures refused { IfErr result IsOfStore }
{
    let ids = ids_of(alloc, Kind::Program, keys.as_slice())?;
    let programs = program_keys(alloc, ids)?;
    objects_at(alloc, tx, programs)
}

/// The programs among the keys of evidence, in order, each once, and what stands there.
pub fn stood_programs<S: Alter>(
    alloc: Global,
    tx: &mut Transaction<'_, S>,
    founds: &[Found],
) -> Result<Rows<OldObject>, Refusal>
    ensures lent { LeavesLent S.Store tx.old.conn tx.new.conn result }
    ensures finds { FindsOn S.Store tx.old.conn.now tx.new.conn.now (ProgramsStood (evidence_of founds.now)) result }
    ensures refused { IfErr result IsOfStore }
{
    let keys = keys_of_founds(alloc, founds)?;
    programs_at(alloc, tx, keys)
}

// One key alone.
fn one_key(alloc: Global, kind: Kind, id: &ObjectId) -> Result<Rows<MirrorKey>, AllocError>
    ensures { IfOk result (λ keys. keys ≡ record { kind = kind; id = id.now } ∷ []) }
{
    let mut keys = Rows::new(alloc);
    keys.push(MirrorKey {
        kind,
        id: id.copy(alloc)?,
    })?;
    Ok(keys)
}

/// The program at a key, where it is the key of one, and what stands there: for a mark of any kind at that key.
pub fn stood_program<S: Alter>(
    alloc: Global,
    tx: &mut Transaction<'_, S>,
    kind: Kind,
    id: &ObjectId,
) -> Result<Rows<OldObject>, Refusal>
    ensures lent { LeavesLent S.Store tx.old.conn tx.new.conn result }
    ensures finds { FindsOn S.Store tx.old.conn.now tx.new.conn.now (λ base olds. (mark : Mark) → ProgramsStood ((record { kind = kind; id = id.now }, mark) ∷ []) base olds) result }
    ensures refused { IfErr result IsOfStore }
{
    let keys = one_key(alloc, kind, id)?;
    programs_at(alloc, tx, keys)
}

/// What evidence touches, of the programs at its keys, and the keys that rose by it: these programs, and the events among
/// the keys with their roll-ups.
pub fn touched_by_evidence(
    alloc: Global,
    programs: Rows<OldObject>,
    risen: Rows<MirrorKey>,
) -> Result<Touched, AllocError>
    ensures { IfOk result (CoversEvidence programs risen) }
{
    let events = ids_of(alloc, Kind::Event, risen.as_slice())?;
    with_rollups(alloc, programs, events, Rows::new(alloc))
}
