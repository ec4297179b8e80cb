//! The programs, by their rows of the mirror, each with its stamps.
ghost use Rattle.std.specs.Prelude.{◌≡◌, [], ◌∷◌, Ok, IfOk, IfErr};
ghost use Rattle.std.specs.List.{filter_map};
ghost use Rattle.adr_text.specs.declared.refusal.Refusal.TheVariants.{Forbidden};
ghost use Rattle.adr_objects.specs.declared.kind.Kind.TheVariants as kind;
ghost use Rattle.adr_state.specs.declared.keys.ViewKey.TheVariants as key;
ghost use Rattle.adr_view.specs.declared.sight.Sight.{Sight};
ghost use Rattle.adr_view.specs.declared.view.Content.TheVariants as content;
ghost use Rattle.adr_queries.specs.declared.answer.Answer.TheVariants as answer;
ghost use Rattle.adr_queries.specs.Listings.{page_of};
ghost use Rattle.adr_queries.specs.Shown.{object_at, objects_in_sight, programs_reply};
ghost use Rattle.adr_sql.specs.Calls.{LeavesLent};
ghost use Rattle.adr_db.specs.Calls.{Finds, IsOfStore, IsOneOf};
ghost use Rattle.adr_db.specs.BaseCalls.{Refuses};
ghost use Rattle.adr_db.specs.Images.{image_kept};
ghost use Rattle.adr_answers.specs.Calls.{FindsOr};
ghost use Rattle.adr_answers.specs.Told.{program_in};

use crate::of_program::{program_object, program_stamps};
use crate::sight::sight_in;
use crate::told::listed;
use adr_db_mirror::read_kind;
use adr_objects::{Body, Kind};
use adr_queries::{Answer, Object, Page, Role};
use adr_state::{Mark, MirrorKey, push_some};
use adr_text::{Name, ObjectId, Refusal, Rows};
use adr_view::Sight;
use sqlite::{Alter, Transaction};
use std::alloc::{AllocError, Global};

// The program of a row of the mirror, where it is one that is live.
fn program_in(key: &MirrorKey, mark: &Mark) -> Result<Option<(ObjectId, Name)>, AllocError>
    ensures { IfOk result (λ program. program ≡ program_in (key.now, mark.now)) }
{
    match (key.kind, mark) {
        (Kind::Program, Mark::Live(_, Body::Program(name))) => {
            Ok(Some((key.id.clone()?, name.clone()?)))
        }
        _ => Ok(None),
    }
}

// The programs among what is known of upstream keys that are live, in their order.
fn programs_in(
    alloc: Global,
    known: Rows<(MirrorKey, Mark)>,
) -> Result<Vec<(ObjectId, Name)>, AllocError>
    ensures { IfOk result (λ all. all.items ≡ filter_map program_in known) }
{
    let mut all = Vec::new(alloc);
    'known: for row in known.into_vec() {
        push_some(&mut all, program_in(&row.0, &row.1)?)?;
    }
    Ok(all)
}

// Each with its stamps, which are read by its key, where it has some.
fn with_stamps<S: Alter>(
    alloc: Global,
    tx: &mut Transaction<'_, S>,
    programs: Vec<(ObjectId, Name)>,
) -> Result<Vec<Object>, Refusal>
    ensures lent { LeavesLent S.Store tx.old.conn tx.new.conn result }
    ensures finds { Finds S.Store tx.old.conn.now tx.new.conn.now (λ kept all. all.items ≡ filter_map (λ p. object_at kept.stamps (key.Program p.0, content.Program p.1)) programs.items) result }
    ensures refused { IfErr result IsOfStore }
{
    let mut all = Vec::new(alloc);
    'rows: for row in programs {
        let stamps = program_stamps(tx, &row.0)?;
        push_some(&mut all, program_object(row.0, row.1, stamps))?;
    }
    Ok(all)
}

// The programs, each with its stamps, as whoever sees anything sees them.
fn objects_in_sight<S: Alter>(
    alloc: Global,
    tx: &mut Transaction<'_, S>,
) -> Result<Vec<Object>, Refusal>
    ensures lent { LeavesLent S.Store tx.old.conn tx.new.conn result }
    ensures finds { Finds S.Store tx.old.conn.now tx.new.conn.now (λ kept all. (sight : Sight) → all.items ≡ objects_in_sight (image_kept kept) kind.Program sight) result }
    ensures refused { IfErr result IsOfStore }
{
    let known = read_kind(alloc, tx, Kind::Program)?;
    let programs = programs_in(alloc, known)?;
    with_stamps(alloc, tx, programs)
}

// One page of the programs.
fn programs_seen<S: Alter>(
    alloc: Global,
    tx: &mut Transaction<'_, S>,
    sight: Sight,
    page: Page,
) -> Result<Answer, Refusal>
    ensures lent { LeavesLent S.Store tx.old.conn tx.new.conn result }
    ensures finds { FindsOr S.Store tx.old.conn.now tx.new.conn.now (λ kept. Ok (answer.List (page_of page (objects_in_sight (image_kept kept) kind.Program sight)))) result }
    ensures refuses { Refuses S.Store tx.old.conn.now tx.new.conn.now (λ kept. Ok (answer.List (page_of page (objects_in_sight (image_kept kept) kind.Program sight)))) result }
    ensures refused { IfErr result IsOfStore }
{
    let found = objects_in_sight(alloc, tx)?;
    Ok(listed(alloc, page, found)?)
}

/// One page of the programs, which whoever sees anything sees, or `Forbidden`. Of the mirror the rows of programs are read for
/// it, and of the rest the stamps of programs alone.
pub fn programs<S: Alter>(
    alloc: Global,
    tx: &mut Transaction<'_, S>,
    role: &Role,
    page: Page,
) -> Result<Answer, Refusal>
    ensures lent { LeavesLent S.Store tx.old.conn tx.new.conn result }
    ensures finds { FindsOr S.Store tx.old.conn.now tx.new.conn.now (λ kept. programs_reply (image_kept kept) role.now page) result }
    ensures refuses { Refuses S.Store tx.old.conn.now tx.new.conn.now (λ kept. programs_reply (image_kept kept) role.now page) result }
    ensures listed { IfErr result (IsOneOf (Forbidden ∷ [])) }
{
    let sight = sight_in(alloc, tx, role)?;
    programs_seen(alloc, tx, sight, page)
}
