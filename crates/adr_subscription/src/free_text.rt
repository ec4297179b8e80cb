//! Texts of any length.
ghost use Rattle.std.specs.Prelude.{◌≡◌, IfOk};
ghost use Rattle.std.specs.Str.{bytes_eq};
ghost use Rattle.std.specs.Cmp.{partial_equiv_from_equiv};
ghost use Rattle.std.specs.Cmp.Lexicographic.{nat_list_eq_equiv};

use std::alloc::{AllocError, Global};
use std::marker::Model;

/// A text, of whatever length.
#[derive(Clone)]
pub struct FreeText {
    text: String,
}

impl Drop for FreeText {
    fn drop(self) {
        let FreeText { text: _ } = self;
    }
}

impl Model for FreeText {
    ghost use Rattle.std.specs.Prelude.{List, ℕ, string_bytes};

    ghost Value = { List ℕ };

    ghost view = { λ a. string_bytes a.text };
}

impl FreeText {
    /// That text.
    pub fn new(alloc: Global, text: &str) -> Result<FreeText, AllocError>
        ensures { IfOk result (λ t. t ≡ text.now) }
    {
        Ok(FreeText {
            text: String::from_str(alloc, text)?,
        })
    }

    /// Its bytes, as text.
    pub fn as_str(&self) -> &str
        ensures { result.now ≡ self.now }
    {
        self.text.as_str()
    }
}

impl PartialEq for FreeText {
    ghost eq = { bytes_eq };

    ghost laws = { partial_equiv_from_equiv nat_list_eq_equiv };

    fn eq(&self, other: &FreeText) -> bool {
        self.text.as_str() == other.text.as_str()
    }
}

impl Eq for FreeText {
    ghost laws = { nat_list_eq_equiv };
}
