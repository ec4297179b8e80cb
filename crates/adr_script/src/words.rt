//! The words of a line: moments, numbers and roles.
ghost use Rattle.std.specs.Prelude.{◌≡◌, IfOk};
ghost use Rattle.adr_state.specs.Digits.{is_digit};
ghost use Rattle.adr_script.specs.Words.{moment_from, number_from, role_from};

use adr_machine::Role;
use adr_routes::{id_from, text_from};
use adr_text::Moment;
use adr_wire::behind;
use std::alloc::{AllocError, Global};

/// The moment that the bytes say.
#[tactic(auto, unfolding(crate::specs::Words::moment_from))]
pub(crate) fn moment_from(bytes: &[u8]) -> Option<Moment>
    ensures { result ≡ moment_from bytes.now }
{
    let text = text_from(bytes)?;
    Moment::read(text).ok()
}

fn is_digit(byte: u8) -> bool
    ensures { result ≡ is_digit byte }
{
    48 <= byte && byte <= 57
}

/// The number that 1 to 16 digits write. Leading zeros are allowed.
#[tactic(auto, using(crate::proofs::Numbers::one_more), unfolding(crate::specs::Words::number_from))]
pub(crate) fn number_from(digits: &[u8]) -> Option<u64>
    ensures { result ≡ number_from digits.now }
{
    if digits.is_empty() || 16 < digits.len() {
        return None;
    }
    let mut number = 0u64;
    for byte in digits {
        if !is_digit(*byte) {
            return None;
        }
        number = number * 10 + (*byte - 48) as u64;
    }
    Some(number)
}

/// The role that the bytes say: `operator`, `utility`, or `ven:` and an id.
#[tactic(auto, unfolding(crate::specs::Words::role_from))]
pub(crate) fn role_from(alloc: Global, bytes: &[u8]) -> Result<Option<Role>, AllocError>
    ensures { IfOk result (λ role. role ≡ role_from bytes.now) }
{
    if bytes == b"operator".as_slice() {
        return Ok(Some(Role::Operator));
    }
    if bytes == b"utility".as_slice() {
        return Ok(Some(Role::Utility));
    }
    let Some(id) = behind(b"ven:", bytes) else {
        return Ok(None);
    };
    match id_from(alloc, id)? {
        Some(id) => Ok(Some(Role::Ven(id))),
        None => Ok(None),
    }
}
