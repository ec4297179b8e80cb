//! The serial: numbers are drawn from it one after another.
ghost use Rattle.std.specs.Prelude.{◌≡◌, ◌≤◌, ◌+◌, Ok, Err, IfErr, OnErr, OnOk};
ghost use Rattle.adr_text.specs.declared.refusal.Refusal.TheVariants.{Exhausted};
ghost use Rattle.adr_state.specs.Digits.{most_number};
ghost use Rattle.adr_state.specs.Serials.{serial_of, drawn};

use crate::digits::MOST_NUMBER;
use crate::limits::Limits;
use adr_objects::Number;
use adr_text::Refusal;
use std::marker::Model;

/// The last number that was drawn, 0 at first: at most 9,000,000,000,000,000.
#[derive(Clone, Copy, PartialEq, Eq)]
pub struct Serial {
    last: u64,
}

impl Model for Serial {
    ghost use Rattle.std.specs.Prelude.{ℕ, ◌≤◌};
    ghost use Rattle.adr_state.specs.Digits.{most_number};

    ghost Value = { ℕ };

    ghost view = { λ a. a.last };

    ghost invariant = { λ a. a.last ≤ most_number };

    ghost inverse = { λ n. record { last = n } };
}

impl Serial {
    /// No number was drawn.
    pub fn new() -> Serial
        ensures { result ≡ 0 }
    {
        Serial { last: 0 }
    }

    /// The serial whose last number is that, if it may be.
    pub fn at(last: u64) -> Option<Serial>
        ensures { result ≡ serial_of last }
    {
        if MOST_NUMBER < last {
            return None;
        }
        Some(Serial { last })
    }

    /// The last number that was drawn.
    pub fn get(self) -> u64
        ensures value { result ≡ self }
        ensures within { self ≤ most_number }
    {
        self.last
    }

    /// The number that is drawn next.
    pub fn next(self) -> Number
        ensures { result ≡ self + 1 }
    {
        Number::new(self.last + 1)
    }

    /// Draws the next number, where one is wanted. Refused with `Exhausted` where none is left.
    pub fn draw(&mut self, limits: &Limits, is_wanted: bool) -> Result<(), Refusal>
        ensures ok { OnOk result (drawn limits.now self.old is_wanted ≡ Ok self.new) }
        ensures err { IfErr result (λ refusal. drawn limits.now self.old is_wanted ≡ Err refusal) }
        ensures unchanged { OnErr result (self.new ≡ self.old) }
    {
        if !is_wanted {
            return Ok(());
        }
        if limits.serial.get() <= self.last {
            return Err(Refusal::Exhausted);
        }
        self.last += 1;
        Ok(())
    }
}
