//! How often the delivery of an entry failed.
ghost use Rattle.std.specs.Prelude.{◌≡◌, ◌≤◌};
ghost use Rattle.adr_delivery.specs.Failing.{most_failures, failures_of, one_more, wait_after};

use std::marker::Model;

/// How often the delivery of a waiting entry failed: 0 to 7, since the eighth failure gives it up.
#[derive(Clone, Copy, PartialEq, Eq)]
pub struct Failures {
    count: u32,
}

impl Model for Failures {
    ghost use Rattle.std.specs.Prelude.{ℕ, ◌≤◌};
    ghost use Rattle.adr_delivery.specs.Failing.{most_failures};

    ghost Value = { ℕ };

    ghost view = { λ a. a.count };

    ghost invariant = { λ a. a.count ≤ most_failures };

    ghost inverse = { λ n. record { count = n } };
}

impl Failures {
    /// It has not failed yet.
    pub fn none() -> Failures
        ensures { result ≡ 0 }
    {
        Failures { count: 0 }
    }

    /// So many failures, where an entry still waits after them.
    pub fn new(count: u32) -> Option<Failures>
        ensures { result ≡ failures_of count }
    {
        if count > 7 {
            return None;
        }
        Some(Failures { count })
    }

    /// How many they are.
    pub fn get(self) -> u32
        ensures value { result ≡ self }
        ensures few { self ≤ most_failures }
    {
        self.count
    }

    /// One more, unless it is the eighth.
    pub fn one_more(self) -> Option<Failures>
        ensures { result ≡ one_more self }
    {
        Failures::new(self.count + 1)
    }

    /// How many seconds an entry waits after one more failure: 1, 2, 4, 8, 16, 32 and then 60.
    pub fn wait(self) -> u32
        ensures { result ≡ wait_after self }
    {
        2u32.pow(self.count).min(60)
    }
}
