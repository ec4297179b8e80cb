//! Bytes that are parted by a separator.
ghost use Rattle.std.specs.Prelude.{◌≡◌, ◌<◌, ◌==◌, length, map, IfOk, IfSome};
ghost use Rattle.std.specs.Option.{option_copied};
ghost use Rattle.std.specs.List.{position};
ghost use Rattle.adr_wire.specs.Cuts.{cut, behind, parts};

use std::alloc::{AllocError, Global};

/// Where the separator stands first.
fn place_of(separator: u8, bytes: &[u8]) -> Option<usize>
    ensures value { result ≡ position (λ b. b == separator) bytes.now }
    ensures within { IfSome result (λ i. i < length bytes.now) }
{
    bytes.iter().position(|b| *b == separator)
}

/// What stands before the first separator, and what stands behind it, where there is one.
#[tactic(auto, unfolding(crate::specs::Cuts::cut))]
pub fn cut(separator: u8, bytes: &[u8]) -> (&[u8], Option<&[u8]>)
    ensures front { result.0.now ≡ (cut separator bytes.now).0 }
    ensures back { option_copied result.1 ≡ (cut separator bytes.now).1 }
    ensures shorter { IfSome result.1 (λ rest. length rest.now < length bytes.now) }
{
    match place_of(separator, bytes) {
        Some(i) => (&bytes[..i], Some(&bytes[i + 1..])),
        None => (bytes, None),
    }
}

/// What stands behind the front that the bytes begin with.
#[tactic(auto, unfolding(crate::specs::Cuts::behind))]
pub fn behind<'b>(front: &[u8], bytes: &'b [u8]) -> Option<&'b [u8]>
    ensures { option_copied result ≡ behind front.now bytes.now }
{
    bytes.strip_prefix(front)
}

/// What stands before, between and behind the separators.
pub fn parts(alloc: Global, separator: u8, bytes: &[u8]) -> Result<Vec<&[u8]>, AllocError>
    ensures { IfOk result (λ v. map (λ s. s.now) v.items ≡ parts separator bytes.now) }
{
    let mut all = Vec::new(alloc);
    let mut rest = bytes;
    'parts: loop {
        let (part, behind) = cut(separator, rest);
        all.push(part)?;
        match behind {
            Some(behind) => rest = behind,
            None => return Ok(all),
        }
    }
}
