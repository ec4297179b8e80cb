//! A state as a desk tells it, and as one is made of it.
ghost use Rattle.std.specs.Prelude.{◌≡◌, ◌↔◌, nat_le, IsTrue, IfOk, IfSome, IfNone};
ghost use Rattle.std.specs.List.{list_all};
ghost use Rattle.std.specs.Map.{keys_of};
ghost use Rattle.std.specs.List.Sorted.{IsStrictlySortedBy};
ghost use Rattle.adr_state.specs.Digits.{most_number};
ghost use Rattle.adr_state.specs.Fitting.{IsMap, SitesFit, EntriesFit, Fits};

use crate::digits::MOST_NUMBER;
use crate::portfolio::Portfolio;
use crate::state::State;
use adr_delivery::Entry;
use adr_objects::Number;
use adr_text::Table;
use std::alloc::AllocError;
use std::marker::Model;

/// A state that a desk may hold, whatever it is set to: its vens, resources, shares, reports, subscriptions, frozen shares,
/// marks and entries are at most as many as the largest limits admit, and no entry was leased more often. How many stamps,
/// ids of the utility's and frozen events there are has no limit of its own.
pub struct Image {
    state: State,
}

impl Drop for Image {
    fn drop(self) {
        let Image { state: _ } = self;
    }
}

impl Model for Image {
    ghost use Rattle.adr_state.specs.declared.state.State.{State};
    ghost use Rattle.adr_state.specs.Fitting.{Fits};

    ghost Value = { State };

    ghost view = { λ a. a.state };

    ghost invariant = { λ a. Fits a.state };
}

/// Whether there are at most so many rows. They are in the order of their keys.
fn is_within<K: Ord + Drop, V: Drop>(rows: &Table<K, V>, most: usize) -> bool
    ensures { IsTrue result ↔ IsMap K.cmp most rows.now }
{
    let _ordered = rows.iter();
    rows.len() <= most
}

/// The rows are in the order of their keys.
fn are_in_order<K: Ord + Drop, V: Drop>(rows: &Table<K, V>)
    ensures { IsStrictlySortedBy K.cmp (keys_of rows.now) }
{
    let _ordered = rows.iter();
}

/// Whether the maps of a portfolio are within the largest limits.
fn sites_fit(portfolio: &Portfolio) -> bool
    ensures { IsTrue result ↔ SitesFit portfolio.now }
{
    let vens = is_within(&portfolio.vens, 1_000);
    let resources = is_within(portfolio.resources.rows(), 10_000);
    let shares = is_within(&portfolio.shares, 100_000);
    let reports = is_within(&portfolio.reports, 100_000);
    let subs = is_within(&portfolio.subs, 1_000);
    let frozen_shares = is_within(&portfolio.frozen_shares, 100_000);
    are_in_order(&portfolio.frozen);
    vens & resources & shares & reports & subs & frozen_shares
}

/// Whether each entry was leased at most as often as the largest limit admits.
fn have_few_leases(entries: &Table<Number, Entry>) -> bool
    ensures { result ≡ list_all (λ e. nat_le e.1.delivery.leases most_number) entries.now }
{
    entries
        .iter()
        .all(|(_, entry)| entry.delivery.leases <= MOST_NUMBER)
}

/// Whether the entries of an outbox are within the largest limits.
fn entries_fit(entries: &Table<Number, Entry>) -> bool
    ensures { IsTrue result ↔ EntriesFit entries.now }
{
    let few = is_within(entries, 100_000);
    let few_leases = have_few_leases(entries);
    few & few_leases
}

/// Whether the state is.
fn fits(state: &State) -> bool
    ensures { IsTrue result ↔ Fits state.now }
{
    let _drawn = state.base.serial.get();
    let sites = sites_fit(&state.base.portfolio);
    let mirror = is_within(&state.base.mirror, 100_000);
    let entries = entries_fit(&state.outbox.entries);
    sites & mirror & entries
}

impl Image {
    /// The image of a state, if it is within the largest limits.
    pub fn of(state: State) -> Option<Image>
        ensures some { IfSome result (λ image. image ≡ state) }
        ensures none { IfNone result (¬ (Fits state)) }
    {
        if !fits(&state) {
            return None;
        }
        Some(Image { state })
    }

    /// The state that it is of.
    pub fn state(&self) -> &State
        ensures value { result.now ≡ self.now }
        ensures fits { Fits self.now }
    {
        &self.state
    }

    /// The same image again.
    pub fn copy(&self) -> Result<Image, AllocError>
        ensures { IfOk result (λ image. image ≡ self.now) }
    {
        Ok(Image {
            state: self.state.copy()?,
        })
    }
}
