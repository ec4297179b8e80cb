//! Lists whose length is bounded by their type.
ghost use Rattle.std.specs.Prelude.{◌≡◌, ◌≤◌, length, vec_len};
ghost use Rattle.adr_text.specs.Faults.{Finds};
ghost use Rattle.adr_subscription.specs.Bounds.{bounded};

use adr_text::Fault;
use std::marker::Model;

/// A list of at least `LEAST` and at most `MOST` items, in their order.
#[derive(Clone)]
pub struct Bounded<T, const LEAST: usize, const MOST: usize> {
    items: Vec<T>,
}

impl<T: Drop, const LEAST: usize, const MOST: usize> Drop for Bounded<T, LEAST, MOST> {
    fn drop(self) {
        let Bounded { items: _ } = self;
    }
}

impl<T, const LEAST: usize, const MOST: usize> Model for Bounded<T, LEAST, MOST> {
    ghost use Rattle.std.specs.Prelude.{List, length, ◌≤◌};
    ghost use Rattle.std.specs.Coded.{coded_list};

    ghost Value = { List T };

    ghost coded = { coded_list T.code };

    ghost view = { λ a. a.items.items };

    ghost invariant = { λ a. (LEAST ≤ length a.items.items) × (length a.items.items ≤ MOST) };
}

impl<T, const LEAST: usize, const MOST: usize> Bounded<T, LEAST, MOST> {
    /// These items, which are neither too few nor too many.
    pub fn of(items: Vec<T>) -> Self
        requires enough { LEAST ≤ vec_len items }
        requires few { vec_len items ≤ MOST }
        ensures { result ≡ items.items }
    {
        Bounded { items }
    }

    /// These items, unless they are too few or too many.
    pub fn within(items: Vec<T>) -> Result<Self, Fault>
    where
        T: Drop,
        ensures { Finds (λ is. is) result (bounded LEAST MOST items.items) }
    {
        if items.len() < LEAST || MOST < items.len() {
            return Err(Fault::BadShape);
        }
        Ok(Bounded { items })
    }

    /// All of them.
    pub fn as_slice(&self) -> &[T]
        ensures value { result.now ≡ self.now }
        ensures enough { LEAST ≤ length self.now }
        ensures few { length self.now ≤ MOST }
    {
        self.items.as_slice()
    }

    /// The items as a vector, which takes no memory.
    pub fn into_vec(self) -> Vec<T>
        ensures value { result.items ≡ self }
        ensures enough { LEAST ≤ vec_len result }
        ensures few { vec_len result ≤ MOST }
    {
        let Bounded { items } = self;
        items
    }
}
