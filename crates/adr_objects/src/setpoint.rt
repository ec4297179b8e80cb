//! Quantities of an event.
ghost use Rattle.std.specs.Prelude.{◌≡◌, ◌≤◌, IsTrue};
ghost use Rattle.adr_objects.specs.Limits.{is_setpoint, setpoint_at, priority_at, most_priority};

use adr_text::Fault;
use std::marker::Model;

/// A `DISPATCH_SETPOINT`: a whole number in the utility's unit, of magnitude at most 10^12.
#[derive(Clone, Copy, PartialEq, Eq)]
pub struct Setpoint {
    amount: i64,
}

impl Model for Setpoint {
    ghost use Rattle.std.specs.Prelude.{ℤ, IsTrue};
    ghost use Rattle.adr_objects.specs.Limits.{is_setpoint};

    ghost Value = { ℤ };

    ghost view = { λ a. a.amount };

    ghost invariant = { λ a. IsTrue (is_setpoint a.amount) };

    ghost inverse = { λ z. record { amount = z } };
}

impl Setpoint {
    /// The setpoint of that amount.
    pub fn new(amount: i64) -> Result<Setpoint, Fault>
        ensures { result ≡ setpoint_at amount }
    {
        if amount < -1_000_000_000_000 || 1_000_000_000_000 < amount {
            return Err(Fault::OutOfRange);
        }
        Ok(Setpoint { amount })
    }

    /// Its amount, in the utility's unit.
    pub fn get(self) -> i64
        ensures value { result ≡ self }
        ensures small { IsTrue (is_setpoint self) }
    {
        self.amount
    }
}

/// The priority of an event, from 0 to 2147483647; 0 comes first (OpenADR 3.0, EVENT).
#[derive(Clone, Copy, PartialEq, Eq)]
pub struct Priority {
    rank: u32,
}

impl Model for Priority {
    ghost use Rattle.std.specs.Prelude.{ℕ, ◌≤◌};
    ghost use Rattle.adr_objects.specs.Limits.{most_priority};

    ghost Value = { ℕ };

    ghost view = { λ a. a.rank };

    ghost invariant = { λ a. a.rank ≤ most_priority };

    ghost inverse = { λ n. record { rank = n } };
}

impl Priority {
    /// The priority of that rank.
    pub fn new(rank: i64) -> Result<Priority, Fault>
        ensures { result ≡ priority_at rank }
    {
        if rank < 0 || 2_147_483_647 < rank {
            return Err(Fault::OutOfRange);
        }
        Ok(Priority { rank: rank as u32 })
    }

    /// Its rank.
    pub fn get(self) -> u32
        ensures value { result ≡ self }
        ensures small { self ≤ most_priority }
    {
        self.rank
    }
}
