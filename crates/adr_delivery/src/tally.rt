//! Counts of entries.
ghost use Rattle.std.specs.Prelude.{◌≡◌, ◌≤◌};
ghost use Rattle.adr_delivery.specs.Tallies.{most_tally, tally_of, plus};

use std::marker::Model;

// More entries than numbers can be drawn for.
const MOST: u64 = 9_000_000_000_000_000;

/// A count of entries. It stops at 9,000,000,000,000,000, as many as there are numbers to draw.
#[derive(Clone, Copy, PartialEq, Eq)]
pub struct Tally {
    count: u64,
}

impl Model for Tally {
    ghost use Rattle.std.specs.Prelude.{ℕ, ◌≤◌};
    ghost use Rattle.adr_delivery.specs.Tallies.{most_tally};

    ghost Value = { ℕ };

    ghost view = { λ a. a.count };

    ghost invariant = { λ a. a.count ≤ most_tally };

    ghost inverse = { λ n. record { count = n } };
}

impl Tally {
    /// None yet.
    pub fn zero() -> Tally
        ensures { result ≡ 0 }
    {
        Tally { count: 0 }
    }

    /// So many, where a count may be that.
    pub fn new(count: u64) -> Option<Tally>
        ensures { result ≡ tally_of count }
    {
        if MOST < count {
            return None;
        }
        Some(Tally { count })
    }

    /// How many they are.
    pub fn get(self) -> u64
        ensures value { result ≡ self }
        ensures within { self ≤ most_tally }
    {
        self.count
    }

    /// So many more, or as many as it stops at.
    pub fn plus(self, more: u64) -> Tally
        ensures { result ≡ plus self more }
    {
        if MOST - self.count < more {
            return Tally { count: MOST };
        }
        Tally {
            count: self.count + more,
        }
    }
}
