//! The fields of a head (RFC 9112, section 5).
ghost use Rattle.std.specs.Prelude.{◌≡◌, length, map, All, IfOk};
ghost use Rattle.httparse.specs.Spans.{IsHeaderWithin, header_bytes};
ghost use Rattle.adr_wire.specs.Fields.{same_letters, values};

use httparse::spans::HeaderSpan;
use std::alloc::{AllocError, Global};

/// Whether they are the same, in any case of letters.
pub fn is_same_letters(a: &[u8], b: &[u8]) -> bool
    ensures { result ≡ same_letters a.now b.now }
{
    a.eq_ignore_ascii_case(b)
}

/// The values of the fields of this name, in their order.
pub fn values<'b>(
    alloc: Global,
    buf: &'b [u8],
    headers: &[HeaderSpan],
    name: &[u8],
) -> Result<Vec<&'b [u8]>, AllocError>
    requires { All (IsHeaderWithin (length buf.now)) headers.now }
    ensures { IfOk result (λ v. map (λ s. s.now) v.items ≡ values name.now (map (header_bytes buf.now) headers.now)) }
{
    let mut found = Vec::new(alloc);
    for header in headers {
        if is_same_letters(header.name.of(buf), name) {
            found.push(header.value.of(buf))?;
        }
    }
    Ok(found)
}
