//! Texts whose length is bounded by their type.
ghost use Rattle.std.specs.Prelude.{◌≡◌, ◌≤◌, length, IfOk};
ghost use Rattle.std.specs.Str.{bytes_eq};
ghost use Rattle.std.specs.Cmp.{partial_equiv_from_equiv};
ghost use Rattle.std.specs.Cmp.Lexicographic.{nat_list_eq_equiv};
ghost use Rattle.adr_text.specs.Faults.{Finds};
ghost use Rattle.adr_objects.specs.Limits.{text_within};

use adr_text::Fault;
use std::alloc::{AllocError, Global};
use std::marker::Model;

/// A text of at most `MOST` bytes.
#[derive(Clone)]
pub struct Text<const MOST: usize> {
    text: String,
}

impl<const MOST: usize> Drop for Text<MOST> {
    fn drop(self) {
        let Text { text: _ } = self;
    }
}

impl<const MOST: usize> Model for Text<MOST> {
    ghost use Rattle.std.specs.Prelude.{List, ℕ, ◌≤◌, length, string_bytes};

    ghost Value = { List ℕ };

    ghost view = { λ a. string_bytes a.text };

    ghost invariant = { λ a. length (string_bytes a.text) ≤ MOST };
}

/// The name of an event, which need not be there, and then may be empty.
pub type EventName = Text<256>;

/// A start or a duration, copied as it stands.
pub type PeriodText = Text<64>;

impl<const MOST: usize> Text<MOST> {
    /// The text, where it is short enough.
    pub fn new(alloc: Global, text: &str) -> Result<Text<MOST>, Fault>
        ensures { Finds (λ t. t) result (text_within MOST text.now) }
    {
        if text.len() > MOST {
            return Err(Fault::BadShape);
        }
        Ok(Text {
            text: String::from_str(alloc, text)?,
        })
    }

    /// Its bytes, as text.
    pub fn as_str(&self) -> &str
        ensures text { result.now ≡ self.now }
        ensures short { length self.now ≤ MOST }
    {
        self.text.as_str()
    }
}

impl<const MOST: usize> PartialEq for Text<MOST> {
    ghost eq = { bytes_eq };

    ghost laws = { partial_equiv_from_equiv nat_list_eq_equiv };

    fn eq(&self, other: &Text<MOST>) -> bool {
        self.text.as_str() == other.text.as_str()
    }
}

impl<const MOST: usize> Eq for Text<MOST> {
    ghost laws = { nat_list_eq_equiv };
}

// The same name again, if there is one. A caller's proof reads this clause, and not the derived ones.
pub(crate) fn same_name(name: &Option<EventName>) -> Result<Option<EventName>, AllocError>
    ensures { IfOk result (λ copy. copy ≡ name.now) }
{
    name.clone()
}
