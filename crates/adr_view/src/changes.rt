//! The changes between two views, and the stamps after them.
ghost use Rattle.std.specs.Prelude.{◌≡◌, IfOk};
ghost use Rattle.std.specs.Option.{option_copied};
ghost use Rattle.adr_view.specs.Changes.{both_keys, is_change_to_go, change_by, changes, stamps_by, restamped};

use crate::same::is_same_content;
use crate::view::{Content, View};
use crate::view_map::{add_key, put_row, row_at};
use adr_objects::Stamps;
use adr_state::{ViewKey, fresh, modified_at, push_some};
use adr_text::{Moment, Table};
use std::alloc::{AllocError, Global};
use std::collections::BTreeSet;

/// What happened at a key of the view.
#[derive(Clone, Copy, PartialEq, Eq)]
pub enum Operation {
    /// The key appeared.
    Post,
    /// What stands there differs.
    Put,
    /// The key went.
    Delete,
}

/// A change of the view.
pub struct Change {
    pub key: ViewKey,
    pub operation: Operation,
}

impl Drop for Change {
    fn drop(self) {
        let Change {
            key: _,
            operation: _,
        } = self;
    }
}

/// The keys of two views, in order.
fn keys_of(alloc: Global, before: &View, after: &View) -> Result<BTreeSet<ViewKey>, AllocError>
    ensures { IfOk result (λ keys. keys.keys ≡ both_keys before.now after.now) }
{
    let mut keys = BTreeSet::new(alloc);
    for (key, _) in before.iter() {
        add_key(&mut keys, key.clone()?)?;
    }
    for (key, _) in after.iter() {
        add_key(&mut keys, key.clone()?)?;
    }
    Ok(keys)
}

/// Whether it is a change where what stands at the key goes: of a roll-up it is none.
fn is_change_to_go(key: &ViewKey) -> bool
    ensures { result ≡ is_change_to_go key.now }
{
    match key {
        ViewKey::Program(_) | ViewKey::Event(_, _) | ViewKey::Report(_) => true,
        ViewKey::Rollup(_) => false,
    }
}

/// How what is shown at a key changes.
fn change_by(
    key: &ViewKey,
    old: Option<&Content>,
    new: Option<&Content>,
) -> Result<Option<Change>, AllocError>
    ensures { IfOk result (λ change. change ≡ change_by key.now (option_copied old.entry) (option_copied new.entry)) }
{
    let operation = match (old, new) {
        (None, None) => return Ok(None),
        (None, Some(_)) => Operation::Post,
        (Some(_), None) if is_change_to_go(key) => Operation::Delete,
        (Some(_), None) => return Ok(None),
        (Some(old), Some(new)) if is_same_content(old, new) => return Ok(None),
        (Some(_), Some(_)) => Operation::Put,
    };
    Ok(Some(Change {
        key: key.clone()?,
        operation,
    }))
}

/// The changes from one view to another, in the order of the keys.
#[tactic(auto, unfolding(crate::specs::Changes::changes))]
pub fn changes_of(alloc: Global, before: &View, after: &View) -> Result<Vec<Change>, AllocError>
    ensures { IfOk result (λ all. all.items ≡ changes before.now after.now) }
{
    let keys = keys_of(alloc, before, after)?;
    let mut all = Vec::new(alloc);
    for key in &keys {
        let change = change_by(key, row_at(before, key), row_at(after, key))?;
        push_some(&mut all, change)?;
    }
    Ok(all)
}

fn stamps_by(old: Option<&Content>, stamps: Option<&Stamps>, now: Moment, new: &Content) -> Stamps
    ensures { result ≡ stamps_by (option_copied old.entry) (option_copied stamps.entry) now new.now }
{
    match (old, stamps) {
        (Some(old), Some(stamps)) if is_same_content(old, new) => *stamps,
        (Some(_), Some(stamps)) => modified_at(now, *stamps),
        _ => fresh(now),
    }
}

/// The stamps after a change from one view to another.
#[tactic(auto, unfolding(crate::specs::Changes::restamped))]
pub fn restamped(
    alloc: Global,
    stamps: &Table<ViewKey, Stamps>,
    before: &View,
    after: &View,
    now: Moment,
) -> Result<Table<ViewKey, Stamps>, AllocError>
    ensures { IfOk result (λ next. next ≡ restamped stamps.now before.now after.now now) }
{
    let mut next = Table::new(alloc);
    for (key, content) in after.iter() {
        let row = stamps_by(row_at(before, key), row_at(stamps, key), now, content);
        put_row(&mut next, key.clone()?, row)?;
    }
    Ok(next)
}
