//! The token that a request shows (RFC 6750, section 2.1).
ghost use Rattle.std.specs.Prelude.{◌≡◌, length, map, All, IfOk, option_map};
ghost use Rattle.std.specs.Option.{option_copied};
ghost use Rattle.httparse.specs.Spans.{IsHeaderWithin, header_bytes};
ghost use Rattle.adr_request.specs.Tokens.{bearer, token_by, token_in};

use adr_wire::{is_same_letters, values};
use httparse::spans::HeaderSpan;
use std::alloc::{AllocError, Global};

/// `Bearer`, in any case of letters, a space, and then the token.
fn bearer(value: &[u8]) -> Option<&[u8]>
    ensures { option_copied result ≡ bearer value.now }
{
    if value.len() < 7 || !is_same_letters(&value[..7], b"bearer ") {
        return None;
    }
    Some(&value[7..])
}

/// The token of the only field.
fn token_by<'b>(values: &[&'b [u8]]) -> Option<&'b [u8]>
    ensures { option_copied result ≡ token_by (map (λ s. s.now) values.now) }
{
    match values {
        [value] => bearer(value),
        _ => None,
    }
}

/// The token that the fields of a head show: none, where `Authorization` is absent, is there twice, or is of another form.
#[tactic(auto, unfolding(crate::specs::Tokens::token_in))]
pub(crate) fn token_in(
    alloc: Global,
    buf: &[u8],
    headers: &[HeaderSpan],
) -> Result<Option<Vec<u8>>, AllocError>
    requires { All (IsHeaderWithin (length buf.now)) headers.now }
    ensures { IfOk result (λ token. option_map (λ v. v.items) token ≡ token_in (map (header_bytes buf.now) headers.now)) }
{
    let values = values(alloc, buf, headers, b"authorization")?;
    match token_by(&values) {
        Some(token) => Ok(Some(token.to_vec(alloc)?)),
        None => Ok(None),
    }
}
