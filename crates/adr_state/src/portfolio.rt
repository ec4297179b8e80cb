//! The vens that are enrolled, their resources, the shares of those in programs, the reports on them, and
//! subscriptions.
ghost use Rattle.std.specs.Prelude.{◌≡◌, ◌≤◌, ◌<◌, ◌==◌, not, [], length, filter, IsSome, IsTrue, IfOk, OnOk, OnErr};
ghost use Rattle.std.specs.Ordering.{nat_cmp};
ghost use Rattle.std.specs.Option.{option_copied};
ghost use Rattle.std.specs.Map.{remove_entry};
ghost use Rattle.std.specs.BTreeMap.{is_at, insert_entry};
ghost use Rattle.adr_state.specs.Weights.{is_weight, weight_of, most_resources};
ghost use Rattle.adr_state.specs.Keys.{at};
ghost use Rattle.adr_state.specs.Portfolios.{nobody, is_of_ven, is_sub_of, without_ven, without_resource};

use crate::keys::{FrozenKey, ShareKey};
use adr_objects::{Number, ReportBody, ResourceName, Stamps};
use adr_subscription::Sub;
use adr_text::{Name, ObjectId, Table};
use std::alloc::{AllocError, Global};
use std::collections::btree_map::Iter;
use std::marker::Model;

/// A ven that is enrolled.
#[derive(Clone, Drop)]
pub struct Ven {
    pub name: Name,
    pub stamps: Stamps,
}

/// A resource of a ven.
#[derive(Clone, Drop)]
pub struct Resource {
    pub ven: Number,
    pub name: ResourceName,
    pub stamps: Stamps,
}

/// The weight of a share, from 1 to 1,000,000.
#[derive(Clone, Copy, PartialEq, Eq)]
pub struct Weight {
    amount: u32,
}

impl Model for Weight {
    ghost use Rattle.std.specs.Prelude.{ℕ, IsTrue};
    ghost use Rattle.adr_state.specs.Weights.{is_weight};

    ghost Value = { ℕ };

    ghost view = { λ a. a.amount };

    ghost invariant = { λ a. IsTrue (is_weight a.amount) };

    ghost inverse = { λ n. record { amount = n } };
}

impl Weight {
    /// The weight of that amount, if it is one.
    pub fn new(amount: u32) -> Option<Weight>
        ensures { result ≡ weight_of amount }
    {
        if amount < 1 || 1_000_000 < amount {
            return None;
        }
        Some(Weight { amount })
    }

    /// Its amount.
    pub fn get(self) -> u32
        ensures value { result ≡ self }
        ensures small { IsTrue (is_weight self) }
    {
        self.amount
    }
}

/// The resources by number: at most 10,000, so that a setpoint can be split over all of them.
#[derive(Clone)]
pub struct Resources {
    rows: Table<Number, Resource>,
}

impl Drop for Resources {
    fn drop(self) {
        let Resources { rows: _ } = self;
    }
}

impl Model for Resources {
    ghost use Rattle.std.specs.Prelude.{ℕ, List, length, ◌≤◌};
    ghost use Rattle.adr_state.specs.declared.portfolio.Resource.{Resource};
    ghost use Rattle.adr_state.specs.Weights.{most_resources};

    ghost Value = { List (ℕ × Resource) };

    ghost view = { λ a. a.rows };

    ghost invariant = { λ a. length a.rows ≤ most_resources };
}

impl Resources {
    /// No resources yet.
    pub fn new(alloc: Global) -> Resources
        ensures { result ≡ [] }
    {
        Resources {
            rows: Table::new(alloc),
        }
    }

    /// The resource of a number.
    pub fn get(&self, number: Number) -> Option<&Resource>
        ensures { option_copied result ≡ at nat_cmp number self.now }
    {
        self.rows.get(&number)
    }

    /// Puts a resource, in its place in the order of the numbers.
    pub fn put(&mut self, number: Number, resource: Resource) -> Result<(), AllocError>
        requires { length self.old < most_resources }
        ensures ok { OnOk result (self.new ≡ insert_entry nat_cmp self.old number resource) }
        ensures err { OnErr result (self.new ≡ self.old) }
    {
        self.rows.put(number, resource)
    }

    /// Puts a resource in the place of that of its number, which is there.
    pub fn replace(&mut self, number: Number, resource: Resource)
        requires { IsSome (at nat_cmp number self.old) }
        ensures { self.new ≡ insert_entry nat_cmp self.old number resource }
    {
        self.rows.replace(number, resource)
    }

    /// Removes the resource of a number, and answers it.
    pub fn remove(&mut self, number: Number) -> Option<Resource>
        ensures value { result ≡ at nat_cmp number self.old }
        ensures removed { self.new ≡ remove_entry (is_at (nat_cmp number)) self.old }
    {
        self.rows.remove(&number)
    }

    /// Removes the resources of a ven.
    pub fn remove_of(&mut self, ven: Number)
        ensures { self.new ≡ filter (λ r. not (r.1.ven == ven)) self.old }
    {
        self.rows.retain(|_, resource| resource.ven != ven)
    }

    /// How many there are.
    pub fn len(&self) -> usize
        ensures value { result ≡ length self.now }
        ensures few { length self.now ≤ most_resources }
    {
        self.rows.len()
    }

    /// The resources as a map.
    pub fn rows(&self) -> &Table<Number, Resource>
        ensures { result.now ≡ self.now }
    {
        &self.rows
    }

    /// The resources in the order of their numbers.
    pub fn iter(&self) -> Iter<'_, Number, Resource>
        ensures rows { result ≡ self.now }
        ensures few { length self.now ≤ most_resources }
    {
        self.rows.iter()
    }
}

/// A report on a resource, with its revision: the number that was drawn as it was posted, or as it was
/// last replaced.
#[derive(Clone, Drop)]
pub struct Report {
    pub revision: Number,
    pub body: ReportBody,
}

/// Who takes part in events, what they report of them, and of what they want to be told.
pub struct Portfolio {
    pub vens: Table<Number, Ven>,
    pub resources: Resources,
    pub shares: Table<ShareKey, Weight>,
    pub reports: Table<Number, Report>,
    pub subs: Table<Number, Sub>,
    /// The upstream events that are frozen.
    pub frozen: Table<ObjectId, ()>,
    /// The weights that are kept for them.
    pub frozen_shares: Table<FrozenKey, Weight>,
}

impl Drop for Portfolio {
    fn drop(self) {
        let Portfolio {
            vens: _,
            resources: _,
            shares: _,
            reports: _,
            subs: _,
            frozen: _,
            frozen_shares: _,
        } = self;
    }
}

/// Whether the resource is there and belongs to the ven.
fn is_of_ven(ven: Number, resources: &Resources, resource: Number) -> bool
    ensures { result ≡ is_of_ven ven resources.now resource }
{
    match resources.get(resource) {
        Some(resource) => resource.ven == ven,
        None => false,
    }
}

/// Removes the shares of the ven's resources.
fn remove_shares_of_ven(shares: &mut Table<ShareKey, Weight>, resources: &Resources, ven: Number)
    ensures { shares.new ≡ filter (λ s. not (is_of_ven ven resources.now s.0.resource)) shares.old }
{
    shares.retain(|key, _| !is_of_ven(ven, resources, key.resource))
}

/// Removes the shares of the resource.
fn remove_shares_of(shares: &mut Table<ShareKey, Weight>, resource: Number)
    ensures { shares.new ≡ filter (λ s. not (s.0.resource == resource)) shares.old }
{
    shares.retain(|key, _| key.resource != resource)
}

/// Removes the frozen shares of the ven's resources.
fn remove_frozen_of_ven(shares: &mut Table<FrozenKey, Weight>, resources: &Resources, ven: Number)
    ensures { shares.new ≡ filter (λ s. not (is_of_ven ven resources.now s.0.resource)) shares.old }
{
    shares.retain(|key, _| !is_of_ven(ven, resources, key.resource))
}

/// Removes the frozen shares of the resource.
fn remove_frozen_of(shares: &mut Table<FrozenKey, Weight>, resource: Number)
    ensures { shares.new ≡ filter (λ s. not (s.0.resource == resource)) shares.old }
{
    shares.retain(|key, _| key.resource != resource)
}

/// Removes the reports on the ven's resources.
fn remove_reports_of_ven(reports: &mut Table<Number, Report>, resources: &Resources, ven: Number)
    ensures { reports.new ≡ filter (λ r. not (is_of_ven ven resources.now r.1.body.head.resource)) reports.old }
{
    reports.retain(|_, report| !is_of_ven(ven, resources, report.body.head.resource))
}

/// Removes the reports on the resource.
fn remove_reports_of(reports: &mut Table<Number, Report>, resource: Number)
    ensures { reports.new ≡ filter (λ r. not (r.1.body.head.resource == resource)) reports.old }
{
    reports.retain(|_, report| report.body.head.resource != resource)
}

/// Whether the subscription is of the ven.
fn is_sub_of(ven: Number, sub: &Sub) -> bool
    ensures { result ≡ is_sub_of ven sub.now }
{
    match sub.owner {
        Some(owner) => owner == ven,
        None => false,
    }
}

/// Removes the subscriptions of the ven.
fn remove_subs_of(subs: &mut Table<Number, Sub>, ven: Number)
    ensures { subs.new ≡ filter (λ s. not (is_sub_of ven s.1)) subs.old }
{
    subs.retain(|_, sub| !is_sub_of(ven, sub))
}

impl Portfolio {
    /// Nobody yet.
    pub fn new(alloc: Global) -> Portfolio
        ensures { result ≡ nobody }
    {
        Portfolio {
            vens: Table::new(alloc),
            resources: Resources::new(alloc),
            shares: Table::new(alloc),
            reports: Table::new(alloc),
            subs: Table::new(alloc),
            frozen: Table::new(alloc),
            frozen_shares: Table::new(alloc),
        }
    }

    /// The same portfolio again.
    pub fn copy(&self) -> Result<Portfolio, AllocError>
        ensures { IfOk result (λ portfolio. portfolio ≡ self.now) }
    {
        Ok(Portfolio {
            vens: self.vens.clone()?,
            resources: self.resources.clone()?,
            shares: self.shares.clone()?,
            reports: self.reports.clone()?,
            subs: self.subs.clone()?,
            frozen: self.frozen.clone()?,
            frozen_shares: self.frozen_shares.clone()?,
        })
    }

    /// Removes the ven, its resources, their shares, those that are frozen too, and the reports on them, and its
    /// subscriptions.
    pub fn remove_ven(&mut self, ven: Number)
        ensures { self.new ≡ without_ven ven self.old }
    {
        remove_subs_of(&mut self.subs, ven);
        remove_reports_of_ven(&mut self.reports, &self.resources, ven);
        remove_shares_of_ven(&mut self.shares, &self.resources, ven);
        remove_frozen_of_ven(&mut self.frozen_shares, &self.resources, ven);
        self.resources.remove_of(ven);
        self.vens.remove(&ven);
    }

    /// Removes the resource, its shares, those that are frozen too, and the reports on it.
    pub fn remove_resource(&mut self, resource: Number)
        ensures { self.new ≡ without_resource resource self.old }
    {
        remove_reports_of(&mut self.reports, resource);
        remove_shares_of(&mut self.shares, resource);
        remove_frozen_of(&mut self.frozen_shares, resource);
        self.resources.remove(resource);
    }
}
