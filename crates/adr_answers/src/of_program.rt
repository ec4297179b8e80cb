//! A program, by what is known of its upstream key, and its stamps.
ghost use Rattle.std.specs.Prelude.{◌≡◌, Some, [], ◌∷◌, option_and_then, IfOk, IfErr};
ghost use Rattle.std.specs.Option.{option_copied};
ghost use Rattle.adr_text.specs.declared.refusal.Refusal.TheVariants.{Forbidden, NotFound};
ghost use Rattle.adr_state.specs.declared.keys.ViewKey.TheVariants as key;
ghost use Rattle.adr_state.specs.Keys.{mirror_cmp, view_cmp, at};
ghost use Rattle.adr_view.specs.declared.view.Content.TheVariants as content;
ghost use Rattle.adr_queries.specs.Shown.{object_of, object_at, told, program_reply};
ghost use Rattle.adr_sql.specs.Calls.{LeavesLent};
ghost use Rattle.adr_db.specs.Calls.{Finds, IsOfStore, IsOneOf};
ghost use Rattle.adr_db.specs.BaseCalls.{Refuses};
ghost use Rattle.adr_db.specs.Images.{image_kept};
ghost use Rattle.adr_answers.specs.Calls.{FindsOr};
ghost use Rattle.adr_answers.specs.Told.{program_key, name_in, program_known};

use crate::sight::sight_in;
use crate::told::told_of;
use adr_db_mirror::read_known;
use adr_db_state::read_stamps_of;
use adr_objects::{Body, Kind, ProgramObject, Stamps};
use adr_queries::{Answer, Object, Role};
use adr_state::{Mark, MirrorKey, ViewKey};
use adr_text::{Name, ObjectId, Refusal};
use sqlite::{Alter, Transaction};
use std::alloc::{AllocError, Global};

// The same id again.
fn copy_of(id: &ObjectId) -> Result<ObjectId, AllocError>
    ensures { IfOk result (λ copy. copy ≡ id.now) }
{
    id.clone()
}

// The upstream key of a program.
fn program_key(id: &ObjectId) -> Result<MirrorKey, AllocError>
    ensures { IfOk result (λ key. key ≡ program_key id.now) }
{
    Ok(MirrorKey {
        kind: Kind::Program,
        id: copy_of(id)?,
    })
}

// The name of a program that is live, by what is known of it.
fn name_in(known: Option<&Mark>) -> Result<Option<Name>, AllocError>
    ensures { IfOk result (λ name. name ≡ name_in (option_copied known.entry)) }
{
    match known {
        Some(Mark::Live(_, Body::Program(name))) => Ok(Some(name.clone()?)),
        _ => Ok(None),
    }
}

// The name of the program of an id, where it is live.
fn program_name<S: Alter>(
    alloc: Global,
    tx: &mut Transaction<'_, S>,
    id: &ObjectId,
) -> Result<Option<Name>, Refusal>
    ensures lent { LeavesLent S.Store tx.old.conn tx.new.conn result }
    ensures finds { Finds S.Store tx.old.conn.now tx.new.conn.now (λ kept name. name ≡ name_in (at mirror_cmp (program_key id.now) kept.mirror)) result }
    ensures refused { IfErr result IsOfStore }
{
    let key = program_key(id)?;
    let known = read_known(alloc, tx, &key)?;
    Ok(name_in(known.as_ref())?)
}

/// The stamps of the program of an id, where it has some.
pub(crate) fn program_stamps<S: Alter>(
    tx: &mut Transaction<'_, S>,
    id: &ObjectId,
) -> Result<Option<Stamps>, Refusal>
    ensures lent { LeavesLent S.Store tx.old.conn tx.new.conn result }
    ensures finds { Finds S.Store tx.old.conn.now tx.new.conn.now (λ kept stamps. stamps ≡ at view_cmp (key.Program id.now) kept.stamps) result }
    ensures refused { IfErr result IsOfStore }
{
    let key = ViewKey::Program(copy_of(id)?);
    read_stamps_of(tx, &key)
}

/// A program of a name, with its stamps, where it has some.
pub(crate) fn program_object(id: ObjectId, name: Name, stamps: Option<Stamps>) -> Option<Object>
    ensures { result ≡ option_and_then (object_of (key.Program id) (content.Program name)) stamps }
{
    match stamps {
        Some(stamps) => Some(Object::Program(ProgramObject { id, name, stamps })),
        None => None,
    }
}

// A program of a name with its stamps, which are read by its key.
fn stamped<S: Alter>(
    tx: &mut Transaction<'_, S>,
    id: &ObjectId,
    name: Name,
) -> Result<Answer, Refusal>
    ensures lent { LeavesLent S.Store tx.old.conn tx.new.conn result }
    ensures finds { FindsOr S.Store tx.old.conn.now tx.new.conn.now (λ kept. told (object_at kept.stamps (key.Program id.now, content.Program name))) result }
    ensures refuses { Refuses S.Store tx.old.conn.now tx.new.conn.now (λ kept. told (object_at kept.stamps (key.Program id.now, content.Program name))) result }
    ensures listed { IfErr result (IsOneOf (Forbidden ∷ NotFound ∷ [])) }
{
    let stamps = program_stamps(tx, id)?;
    let copy = copy_of(id)?;
    told_of(program_object(copy, name, stamps))
}

// The program of an id, which whoever sees anything sees.
fn program_seen<S: Alter>(
    alloc: Global,
    tx: &mut Transaction<'_, S>,
    id: &ObjectId,
) -> Result<Answer, Refusal>
    ensures lent { LeavesLent S.Store tx.old.conn tx.new.conn result }
    ensures finds { FindsOr S.Store tx.old.conn.now tx.new.conn.now (λ kept. program_known kept.mirror kept.stamps id.now) result }
    ensures refuses { Refuses S.Store tx.old.conn.now tx.new.conn.now (λ kept. program_known kept.mirror kept.stamps id.now) result }
    ensures listed { IfErr result (IsOneOf (Forbidden ∷ NotFound ∷ [])) }
{
    let name = program_name(alloc, tx, id)?;
    match name {
        Some(name) => stamped(tx, id, name),
        None => Err(Refusal::NotFound),
    }
}

/// The program of an id; `NotFound` where none is shown: every ven sees each program. Its stamps are read only where it is
/// answered.
pub fn program<S: Alter>(
    alloc: Global,
    tx: &mut Transaction<'_, S>,
    role: &Role,
    id: &ObjectId,
) -> Result<Answer, Refusal>
    ensures lent { LeavesLent S.Store tx.old.conn tx.new.conn result }
    ensures finds { FindsOr S.Store tx.old.conn.now tx.new.conn.now (λ kept. program_reply (image_kept kept) role.now id.now) result }
    ensures refuses { Refuses S.Store tx.old.conn.now tx.new.conn.now (λ kept. program_reply (image_kept kept) role.now id.now) result }
    ensures listed { IfErr result (IsOneOf (Forbidden ∷ NotFound ∷ [])) }
{
    sight_in(alloc, tx, role)?;
    program_seen(alloc, tx, id)
}
