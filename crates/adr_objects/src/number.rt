//! Numbers that the node draws from its serial.
ghost use Rattle.std.specs.Prelude.{◌≡◌};

use std::marker::Model;

/// The number of a ven, a resource, a report or a subscription. Its id is a letter and this number.
#[derive(Clone, Copy, PartialEq, Eq, PartialOrd, Ord)]
pub struct Number {
    value: u64,
}

impl Model for Number {
    ghost use Rattle.std.specs.Prelude.{ℕ};

    ghost Value = { ℕ };

    ghost view = { λ a. a.value };

    ghost inverse = { λ n. record { value = n } };
}

impl Number {
    /// That number.
    pub fn new(value: u64) -> Number
        ensures { result ≡ value }
    {
        Number { value }
    }

    /// Its value.
    pub fn get(self) -> u64
        ensures { result ≡ self }
    {
        self.value
    }
}
