//! What stands at the keys of programs and reports, before a command changes it.
ghost use Rattle.std.specs.Prelude.{◌≡◌, map, option_and_then, IfErr};
ghost use Rattle.std.specs.Ordering.{nat_cmp};
ghost use Rattle.adr_sql.specs.Calls.{LeavesLent};
ghost use Rattle.adr_db.specs.Calls.{Finds, IsOfStore};
ghost use Rattle.adr_kept_view.specs.declared.object.ObjectKey.TheVariants as object;
ghost use Rattle.adr_kept_view.specs.Objects.{ven_of};
ghost use Rattle.adr_touched.specs.Touched.{set_of, old_object};

use crate::object_keys::report_keys;
use crate::ordered::in_order;
use adr_kept_view::{ObjectKey, OldObject};
use adr_objects::Number;
use adr_text::{Refusal, Rows};
use adr_upkeep::{content_now, ven_now};
use adr_view::Content;
use sqlite::{Alter, Transaction};
use std::alloc::Global;

// The ven that owns what is shown, where that is a report and its resource is there.
fn owner_now<S: Alter>(
    alloc: Global,
    tx: &mut Transaction<'_, S>,
    content: &Option<Content>,
) -> Result<Option<Number>, Refusal>
    ensures lent { LeavesLent S.Store tx.old.conn tx.new.conn result }
    ensures finds { Finds S.Store tx.old.conn.now tx.new.conn.now (λ kept ven. ven ≡ option_and_then (ven_of kept.portfolio) content.now) result }
    ensures refused { IfErr result IsOfStore }
{
    match content {
        Some(content) => ven_now(alloc, tx, content),
        None => Ok(None),
    }
}

/// What stands at a key, and the ven that owns it.
pub(crate) fn object_at<S: Alter>(
    alloc: Global,
    tx: &mut Transaction<'_, S>,
    key: ObjectKey,
) -> Result<OldObject, Refusal>
    ensures lent { LeavesLent S.Store tx.old.conn tx.new.conn result }
    ensures finds { Finds S.Store tx.old.conn.now tx.new.conn.now (λ kept old. old ≡ old_object kept key) result }
    ensures refused { IfErr result IsOfStore }
{
    let content = content_now(alloc, tx, &key)?;
    let ven = owner_now(alloc, tx, &content)?;
    Ok(OldObject { key, content, ven })
}

/// What stands at each of these keys, in their order.
pub(crate) fn objects_at<S: Alter>(
    alloc: Global,
    tx: &mut Transaction<'_, S>,
    keys: Rows<ObjectKey>,
) -> Result<Rows<OldObject>, Refusal>
    ensures lent { LeavesLent S.Store tx.old.conn tx.new.conn result }
    ensures finds { Finds S.Store tx.old.conn.now tx.new.conn.now (λ kept olds. olds ≡ map (old_object kept) keys) result }
    ensures refused { IfErr result IsOfStore }
{
    let mut olds = Rows::new(alloc);
    'keys: for key in keys.into_vec() {
        olds.push(object_at(alloc, tx, key)?)?;
    }
    Ok(olds)
}

/// What stands at the keys of these reports, in the order of the numbers, each once.
pub(crate) fn reports_at<S: Alter>(
    alloc: Global,
    tx: &mut Transaction<'_, S>,
    numbers: Rows<Number>,
) -> Result<Rows<OldObject>, Refusal>
    ensures lent { LeavesLent S.Store tx.old.conn tx.new.conn result }
    ensures finds { Finds S.Store tx.old.conn.now tx.new.conn.now (λ kept olds. olds ≡ map (old_object kept) (map object.Report (set_of nat_cmp numbers))) result }
    ensures refused { IfErr result IsOfStore }
{
    let numbers = in_order(alloc, numbers)?;
    let keys = report_keys(alloc, numbers)?;
    objects_at(alloc, tx, keys)
}
