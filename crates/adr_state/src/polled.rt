//! The keys that were polled since a scan began.
ghost use Rattle.std.specs.Prelude.{◌≡◌, [], IfOk, OnOk};
ghost use Rattle.std.specs.BTreeSet.{insert_key};
ghost use Rattle.adr_state.specs.Keys.{mirror_cmp};
ghost use Rattle.adr_state.specs.Mirror.{key_of};
ghost use Rattle.adr_state.specs.Scans.{has_key, polled_with, is_live, is_probe, probes, keys_found};

use crate::base::Mark;
use crate::keys::MirrorKey;
use crate::mirror::key_of;
use adr_objects::Found;
use adr_text::{Rows, Table};
use std::alloc::{AllocError, Global};
use std::collections::BTreeSet;
use std::collections::btree_set::Iter;
use std::marker::Model;

/// A set of upstream keys, programs before events, each by id.
#[derive(Clone)]
pub struct Polled {
    keys: BTreeSet<MirrorKey>,
}

impl Drop for Polled {
    fn drop(self) {
        let Polled { keys: _ } = self;
    }
}

impl Model for Polled {
    ghost use Rattle.std.specs.Prelude.{List};
    ghost use Rattle.adr_state.specs.declared.keys.MirrorKey.{MirrorKey};

    ghost Value = { List MirrorKey };

    ghost view = { λ a. a.keys.keys };
}

impl Polled {
    /// No keys yet.
    pub fn new(alloc: Global) -> Polled
        ensures { result ≡ [] }
    {
        Polled {
            keys: BTreeSet::new(alloc),
        }
    }

    /// Adds a key, unless it is there.
    pub fn insert(&mut self, key: MirrorKey) -> Result<(), AllocError>
        ensures { OnOk result (self.new ≡ insert_key mirror_cmp self.old key) }
    {
        self.keys.insert(key)?;
        Ok(())
    }

    /// Whether the key is one of them.
    pub fn contains(&self, key: &MirrorKey) -> bool
        ensures { result ≡ has_key self.now key.now }
    {
        self.keys.contains(key)
    }

    /// The keys in order.
    pub fn iter(&self) -> Iter<'_, MirrorKey>
        ensures { result ≡ self.now }
    {
        self.keys.iter()
    }
}

fn insert_each(polled: &mut Polled, founds: &[Found]) -> Result<(), AllocError>
    ensures { OnOk result (polled.new ≡ keys_found polled.old founds.now) }
{
    for found in founds {
        polled.insert(key_of(found)?)?;
    }
    Ok(())
}

/// Adds the keys of what was found, while a scan is open. Where memory runs out the set is left anyhow.
pub fn poll(scan: &mut Option<Polled>, founds: &[Found]) -> Result<(), AllocError>
    ensures { OnOk result (scan.new ≡ polled_with scan.old founds.now) }
{
    match scan {
        Some(polled) => insert_each(polled, founds),
        None => Ok(()),
    }
}

fn is_live(mark: &Mark) -> bool
    ensures { result ≡ is_live mark.now }
{
    matches!(mark, Mark::Live(_, _))
}

fn is_probe(polled: &Polled, key: &MirrorKey, mark: &Mark) -> bool
    ensures { result ≡ is_probe polled.now (key.now, mark.now) }
{
    is_live(mark) && !polled.contains(key)
}

/// The live keys that were not polled, in order: those that a scan missed.
pub fn probes(
    alloc: Global,
    mirror: &Table<MirrorKey, Mark>,
    polled: &Polled,
) -> Result<Rows<MirrorKey>, AllocError>
    ensures { IfOk result (λ keys. keys ≡ probes mirror.now polled.now) }
{
    let mut keys = Vec::new(alloc);
    for (key, mark) in mirror.iter() {
        if is_probe(polled, key, mark) {
            keys.push(key.clone()?)?;
        }
    }
    Ok(Rows::from_vec(keys))
}
