//! The refresh of a program or of a report, of which no table keeps what is shown.
ghost use Rattle.std.specs.Prelude.{◌≡◌, Some, option_map, slice_get, IfOk, IfErr};
ghost use Rattle.std.specs.Option.{option_copied};
ghost use Rattle.adr_sql.specs.Calls.{LeavesLent};
ghost use Rattle.adr_db.specs.Calls.{Finds, LeavesKept, IsOfStore};
ghost use Rattle.adr_kept_view.specs.declared.object.ObjectKey.TheVariants as object;
ghost use Rattle.adr_kept_view.specs.Objects.{view_key, row_at, program_content, content_kept, ven_of, with_stamps_at};
ghost use Rattle.adr_kept_view.specs.Refreshed.{judged_in};
ghost use Rattle.adr_upkeep.specs.Calls.{RefreshesObject};
ghost use Rattle.adr_upkeep.specs.Turns.{turn_at, IsChangeIn};

use adr_db_mirror::read_known;
use adr_db_portfolio::{read_report, read_resource};
use adr_db_state::{put_stamps, read_stamps_of, remove_stamps};
use adr_kept_view::{ObjectChange, ObjectKey, OldObject};
use adr_objects::{Body, Kind, Number, Stamps};
use adr_state::{Mark, MirrorKey, ViewKey};
use adr_text::{Moment, ObjectId, Refusal, Table};
use adr_view::{Change, Content, Operation, View, changes_of, restamped, row_at};
use sqlite::{Alter, Transaction};
use std::alloc::{AllocError, Global};

// The key in the view.
fn view_key(alloc: Global, key: &ObjectKey) -> Result<ViewKey, AllocError>
    ensures { IfOk result (λ k. k ≡ view_key key.now) }
{
    match key {
        ObjectKey::Program(id) => Ok(ViewKey::Program(id.copy(alloc)?)),
        ObjectKey::Report(number) => Ok(ViewKey::Report(*number)),
    }
}

// What is shown of a program by what is known of it.
fn program_content(mark: Option<&Mark>) -> Result<Option<Content>, AllocError>
    ensures { IfOk result (λ content. content ≡ program_content (option_copied mark.entry)) }
{
    match mark {
        Some(Mark::Live(_, Body::Program(name))) => Ok(Some(Content::Program(name.clone()?))),
        _ => Ok(None),
    }
}

fn program_now<S: Alter>(
    alloc: Global,
    tx: &mut Transaction<'_, S>,
    id: &ObjectId,
) -> Result<Option<Content>, Refusal>
    ensures lent { LeavesLent S.Store tx.old.conn tx.new.conn result }
    ensures finds { Finds S.Store tx.old.conn.now tx.new.conn.now (λ kept content. content ≡ content_kept (object.Program id.now) kept) result }
    ensures refused { IfErr result IsOfStore }
{
    let key = MirrorKey {
        kind: Kind::Program,
        id: id.copy(alloc)?,
    };
    let known = read_known(alloc, tx, &key)?;
    Ok(program_content(known.as_ref())?)
}

fn report_now<S: Alter>(
    alloc: Global,
    tx: &mut Transaction<'_, S>,
    number: Number,
) -> Result<Option<Content>, Refusal>
    ensures lent { LeavesLent S.Store tx.old.conn tx.new.conn result }
    ensures finds { Finds S.Store tx.old.conn.now tx.new.conn.now (λ kept content. content ≡ content_kept (object.Report number) kept) result }
    ensures refused { IfErr result IsOfStore }
{
    match read_report(alloc, tx, number)? {
        Some(report) => Ok(Some(Content::Report(report.body))),
        None => Ok(None),
    }
}

/// What is shown of a program or of a report.
pub fn content_now<S: Alter>(
    alloc: Global,
    tx: &mut Transaction<'_, S>,
    key: &ObjectKey,
) -> Result<Option<Content>, Refusal>
    ensures lent { LeavesLent S.Store tx.old.conn tx.new.conn result }
    ensures finds { Finds S.Store tx.old.conn.now tx.new.conn.now (λ kept content. content ≡ content_kept key.now kept) result }
    ensures refused { IfErr result IsOfStore }
{
    match key {
        ObjectKey::Program(id) => program_now(alloc, tx, id),
        ObjectKey::Report(number) => report_now(alloc, tx, *number),
    }
}

/// The ven that owns the resource of a report, where the resource is there.
pub fn ven_now<S: Alter>(
    alloc: Global,
    tx: &mut Transaction<'_, S>,
    content: &Content,
) -> Result<Option<Number>, Refusal>
    ensures lent { LeavesLent S.Store tx.old.conn tx.new.conn result }
    ensures finds { Finds S.Store tx.old.conn.now tx.new.conn.now (λ kept ven. ven ≡ ven_of kept.portfolio content.now) result }
    ensures refused { IfErr result IsOfStore }
{
    let Content::Report(body) = content else {
        return Ok(None);
    };
    match read_resource(alloc, tx, body.head.resource)? {
        Some(resource) => Ok(Some(resource.ven)),
        None => Ok(None),
    }
}

// A map that has this at a key, or nothing.
fn map_at<V: Drop>(
    alloc: Global,
    key: &ViewKey,
    value: Option<V>,
) -> Result<Table<ViewKey, V>, AllocError>
    ensures { IfOk result (λ map. map ≡ row_at key.now value) }
{
    let mut map = Table::new(alloc);
    if let Some(value) = value {
        map.put(key.clone()?, value)?;
    }
    Ok(map)
}

// The stamps of a key are put, or go.
fn set_stamps<S: Alter>(
    tx: &mut Transaction<'_, S>,
    key: &ViewKey,
    stamps: Option<&Stamps>,
) -> Result<(), Refusal>
    ensures lent { LeavesLent S.Store tx.old.conn tx.new.conn result }
    ensures leaves { LeavesKept S.Store tx.old.conn.now tx.new.conn.now (with_stamps_at key.now (option_copied stamps.entry)) result }
    ensures refused { IfErr result IsOfStore }
{
    match stamps {
        Some(stamps) => put_stamps(tx, key, *stamps),
        None => remove_stamps(tx, key),
    }
}

// A copy of what stood there, if something did.
fn copy(content: &Option<Content>) -> Result<Option<Content>, AllocError>
    ensures { IfOk result (λ copy. copy ≡ content.now) }
{
    match content {
        Some(content) => Ok(Some(content.clone()?)),
        None => Ok(None),
    }
}

/// What a key has on both sides of a change: each map has one row at most.
#[derive(Drop)]
pub(crate) struct Turn {
    before: View,
    after: View,
    stamps: Table<ViewKey, Stamps>,
    restamped: Table<ViewKey, Stamps>,
}

// The turn from what stood at a key, with these stamps, to what stands there now.
fn turn_of(
    alloc: Global,
    key: &ViewKey,
    old: Option<Content>,
    new: Option<Content>,
    stamps: Option<Stamps>,
    now: Moment,
) -> Result<Turn, AllocError>
    ensures { IfOk result (λ turn. turn ≡ turn_at key.now old new stamps now) }
{
    let before = map_at(alloc, key, old)?;
    let after = map_at(alloc, key, new)?;
    let stamps = map_at(alloc, key, stamps)?;
    let restamped = restamped(alloc, &stamps, &before, &after, now)?;
    Ok(Turn {
        before,
        after,
        stamps,
        restamped,
    })
}

// What appears or differs as it is now, and what goes as it was. The store's refusal where there is no such thing, which a
// change rules out.
fn judged<'a, T>(
    operation: Operation,
    before: Option<&'a T>,
    after: Option<&'a T>,
) -> Result<&'a T, Refusal>
    ensures judged { IfOk result (λ it. judged_in operation (option_copied before.entry) (option_copied after.entry) ≡ Some it.now) }
    ensures refused { IfErr result IsOfStore }
{
    let it = match operation {
        Operation::Delete => before,
        _ => after,
    };
    match it {
        Some(it) => Ok(it),
        None => Err(Refusal::Store),
    }
}

// The ven of what is judged.
fn ven_judged<S: Alter>(
    alloc: Global,
    tx: &mut Transaction<'_, S>,
    operation: Operation,
    old: Option<Number>,
    content: &Content,
) -> Result<Option<Number>, Refusal>
    ensures lent { LeavesLent S.Store tx.old.conn tx.new.conn result }
    ensures finds { Finds S.Store tx.old.conn.now tx.new.conn.now (λ kept ven. judged_in operation old (ven_of kept.portfolio content.now) ≡ ven) result }
    ensures refused { IfErr result IsOfStore }
{
    match operation {
        Operation::Delete => Ok(old),
        _ => ven_now(alloc, tx, content),
    }
}

// The change, by what happened.
fn change_of<S: Alter>(
    alloc: Global,
    tx: &mut Transaction<'_, S>,
    key: &ViewKey,
    old: Option<Number>,
    operation: Operation,
    turn: &Turn,
) -> Result<ObjectChange, Refusal>
    ensures lent { LeavesLent S.Store tx.old.conn tx.new.conn result }
    ensures finds { Finds S.Store tx.old.conn.now tx.new.conn.now (λ kept c. IsChangeIn kept.portfolio key.now old operation turn.now c) result }
    ensures refused { IfErr result IsOfStore }
{
    let content = judged(
        operation,
        row_at(&turn.before, key),
        row_at(&turn.after, key),
    )?;
    let stamps = *judged(
        operation,
        row_at(&turn.stamps, key),
        row_at(&turn.restamped, key),
    )?;
    let ven = ven_judged(alloc, tx, operation, old, content)?;
    Ok(ObjectChange {
        operation,
        content: content.clone()?,
        stamps,
        ven,
    })
}

// What happened, if something did.
fn operation_of(changes: &[Change]) -> Option<Operation>
    ensures { result ≡ option_map (λ c. c.operation) (slice_get changes.now 0) }
{
    match changes.first() {
        Some(change) => Some(change.operation),
        None => None,
    }
}

/// What stood at the key of a program or of a report is compared with what stands there now: the stamps of what appears or
/// differs are put, and those of what goes are removed. Answered is exactly the change, if there is one, with what telling
/// it needs.
pub fn refresh_object<S: Alter>(
    alloc: Global,
    tx: &mut Transaction<'_, S>,
    old: &OldObject,
    now: Moment,
) -> Result<Option<ObjectChange>, Refusal>
    ensures lent { LeavesLent S.Store tx.old.conn tx.new.conn result }
    ensures refreshes { RefreshesObject S.Store tx.old.conn.now tx.new.conn.now old.now now result }
    ensures refused { IfErr result IsOfStore }
{
    let key = view_key(alloc, &old.key)?;
    let new = content_now(alloc, tx, &old.key)?;
    let stamps = read_stamps_of(tx, &key)?;
    let turn = turn_of(alloc, &key, copy(&old.content)?, new, stamps, now)?;
    set_stamps(tx, &key, row_at(&turn.restamped, &key))?;
    let changes = changes_of(alloc, &turn.before, &turn.after)?;
    match operation_of(&changes) {
        Some(operation) => Ok(Some(change_of(alloc, tx, &key, old.ven, operation, &turn)?)),
        None => Ok(None),
    }
}
