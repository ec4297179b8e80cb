//! The resource names that an event is for.
ghost use Rattle.std.specs.Prelude.{◌≡◌, ◌≤◌, ◌<◌, [], length, OnOk, OnErr};
ghost use Rattle.std.specs.Ordering.{nat_cmp};
ghost use Rattle.std.specs.Cmp.Lexicographic.{slice_cmp};
ghost use Rattle.std.specs.BTreeSet.{insert_key};
ghost use Rattle.std.specs.List.Sorted.{IsStrictlySortedBy};
ghost use Rattle.adr_objects.specs.Limits.{most_names};
ghost use Rattle.adr_text.specs.Faults.{Finds};
ghost use Rattle.adr_objects.specs.NameSets.{has_name, name_set_of};

use adr_text::{Fault, Name};
use std::alloc::{AllocError, Global};
use std::collections::BTreeSet;
use std::collections::btree_set::Iter;
use std::marker::Model;

/// A set of at most 10,000 names, ascending by bytes. It may be empty.
#[derive(Clone)]
pub struct NameSet {
    names: BTreeSet<Name>,
}

impl Drop for NameSet {
    fn drop(self) {
        let NameSet { names: _ } = self;
    }
}

impl Model for NameSet {
    ghost use Rattle.std.specs.Prelude.{List, ℕ, length, ◌≤◌};
    ghost use Rattle.adr_objects.specs.Limits.{most_names};

    ghost Value = { List (List ℕ) };

    ghost view = { λ a. a.names.keys };

    ghost invariant = { λ a. length a.names.keys ≤ most_names };
}

impl NameSet {
    /// No names.
    pub fn new(alloc: Global) -> NameSet
        ensures { result ≡ [] }
    {
        NameSet {
            names: BTreeSet::new(alloc),
        }
    }

    /// The set of at most 10,000 names in all, each counted as often as it is listed.
    pub fn of(alloc: Global, names: Vec<Name>) -> Result<NameSet, Fault>
        ensures { Finds (λ set. set) result (name_set_of names.items) }
    {
        if names.len() > 10_000 {
            return Err(Fault::BadShape);
        }
        let mut set = NameSet::new(alloc);
        for name in names {
            set.insert(name)?;
        }
        Ok(set)
    }

    /// Adds a name, unless it is there.
    pub fn insert(&mut self, name: Name) -> Result<(), AllocError>
        requires { length self.old < most_names }
        ensures ok { OnOk result (self.new ≡ insert_key (slice_cmp nat_cmp) self.old name) }
        ensures err { OnErr result (self.new ≡ self.old) }
    {
        self.names.insert(name)?;
        Ok(())
    }

    /// Whether the name is one of them.
    pub fn contains(&self, name: &Name) -> bool
        ensures { result ≡ has_name self.now name.now }
    {
        self.names.contains(name)
    }

    /// The names, ascending by bytes.
    pub fn iter(&self) -> Iter<'_, Name>
        ensures names { result ≡ self.now }
        ensures few { length self.now ≤ most_names }
        ensures sorted { IsStrictlySortedBy (slice_cmp nat_cmp) self.now }
    {
        self.names.iter()
    }
}
