//! Texts and ids, from bytes.
ghost use Rattle.std.specs.Prelude.{◌≡◌, IfOk};
ghost use Rattle.std.specs.Option.{option_copied};
ghost use Rattle.adr_routes.specs.Words.{text_from, id_from};

use adr_text::{ObjectId, Refusal};
use std::alloc::{AllocError, Global};
use std::str::from_utf8;

/// The bytes, where they are text.
#[tactic(auto, using(crate::proofs::Utf8::utf8_tests), unfolding(crate::specs::Words::text_from))]
pub fn text_from(bytes: &[u8]) -> Option<&str>
    ensures { option_copied result ≡ text_from bytes.now }
{
    match from_utf8(bytes) {
        Ok(text) => Some(text),
        Err(_) => None,
    }
}

/// The object id that the bytes are.
#[tactic(auto, unfolding(crate::specs::Words::id_from))]
pub fn id_from(alloc: Global, bytes: &[u8]) -> Result<Option<ObjectId>, AllocError>
    ensures { IfOk result (λ id. id ≡ id_from bytes.now) }
{
    let Some(text) = text_from(bytes) else {
        return Ok(None);
    };
    match ObjectId::new(alloc, text) {
        Ok(id) => Ok(Some(id)),
        Err(Refusal::OutOfMemory) => Err(AllocError),
        Err(_) => Ok(None),
    }
}
