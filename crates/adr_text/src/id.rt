ghost use Rattle.std.specs.Prelude.{◌≡◌, IsTrue, IfOk, Some, refl};
ghost use Rattle.std.specs.Ordering.{nat_cmp};
ghost use Rattle.std.specs.Str.{bytes_eq};
ghost use Rattle.std.specs.List.{list_all};
ghost use Rattle.std.specs.Cmp.{partial_equiv_from_equiv};
ghost use Rattle.std.specs.Cmp.Lexicographic.{slice_cmp, nat_list_eq_equiv, nat_list_cmp_total, texts_po, texts_ties};
ghost use Rattle.adr_text.specs.Ids.{is_id_byte, is_id, id_of};
ghost use Rattle.adr_text.specs.Refusals.{Gives};

use crate::refusal::Refusal;
use std::alloc::{AllocError, Global};
use std::cmp::Ordering;
use std::marker::Model;

/// The id of an object: 1 to 128 letters, digits, `-` and `_` (OpenADR 3.0, objectID).
#[derive(Clone)]
pub struct ObjectId {
    text: String,
}

impl Drop for ObjectId {
    fn drop(self) {
        let ObjectId { text: _ } = self;
    }
}

impl Model for ObjectId {
    ghost use Rattle.std.specs.Prelude.{List, ℕ, IsTrue, string_bytes};
    ghost use Rattle.adr_text.specs.Ids.{is_id};

    ghost Value = { List ℕ };

    ghost view = { λ a. string_bytes a.text };

    ghost invariant = { λ a. IsTrue (is_id (string_bytes a.text)) };
}

fn is_id_byte(b: u8) -> bool
    ensures { result ≡ is_id_byte b }
{
    b.is_ascii_alphanumeric() || b == b'-' || b == b'_'
}

fn all_id_bytes(text: &str) -> bool
    ensures { result ≡ list_all is_id_byte text.now }
{
    text.as_bytes().iter().all(|b| is_id_byte(*b))
}

/// Whether the text is an object id.
pub(crate) fn is_id(text: &str) -> bool
    ensures { result ≡ is_id text.now }
{
    let len = text.len();
    1 <= len && len <= 128 && all_id_bytes(text)
}

impl ObjectId {
    /// The id that the text is, or `BadShape`.
    pub fn new(alloc: Global, text: &str) -> Result<ObjectId, Refusal>
        ensures { Gives (λ id. id) result (id_of text.now) }
    {
        if !is_id(text) {
            return Err(Refusal::BadShape);
        }
        Ok(ObjectId::of(alloc, text)?)
    }

    /// The id that a text is which was found to be one.
    pub(crate) fn of(alloc: Global, text: &str) -> Result<ObjectId, AllocError>
        requires { IsTrue (is_id text.now) }
        ensures { IfOk result (λ id. id ≡ text.now) }
    {
        Ok(ObjectId {
            text: String::from_str(alloc, text)?,
        })
    }

    /// Its text.
    pub fn as_str(&self) -> &str
        ensures text { result.now ≡ self.now }
        ensures valid { IsTrue (is_id self.now) }
    {
        self.text.as_str()
    }

    /// The same id again.
    pub fn copy(&self, alloc: Global) -> Result<ObjectId, AllocError>
        ensures { IfOk result (λ id. id ≡ self.now) }
    {
        ObjectId::of(alloc, self.as_str())
    }
}

impl PartialEq for ObjectId {
    ghost eq = { bytes_eq };

    ghost laws = { partial_equiv_from_equiv nat_list_eq_equiv };

    fn eq(&self, other: &ObjectId) -> bool {
        self.text.as_str() == other.text.as_str()
    }
}

impl Eq for ObjectId {
    ghost laws = { nat_list_eq_equiv };
}

impl PartialOrd for ObjectId {
    ghost partial_cmp = { λ x y. Some (slice_cmp nat_cmp x y) };

    ghost laws = { texts_po };

    fn partial_cmp(&self, other: &ObjectId) -> Option<Ordering> {
        Some(self.cmp(other))
    }
}

impl Ord for ObjectId {
    ghost cmp = { slice_cmp nat_cmp };

    ghost total = { nat_list_cmp_total };

    ghost matches_partial_cmp = { λ x y. refl };

    ghost matches_eq = { texts_ties };

    fn cmp(&self, other: &ObjectId) -> Ordering {
        self.text.as_str().cmp(other.text.as_str())
    }
}
