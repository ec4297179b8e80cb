//! Lines of a head, one after another (RFC 9112, section 5).
ghost use Rattle.std.specs.Prelude.{◌≡◌, ◌++◌, OnOk, codes, decimal};
ghost use Rattle.adr_wire.specs.Written.{line};

use itoa::Buffer;
use std::alloc::AllocError;

/// Puts a field, by its name and its value.
pub fn put_line(out: &mut Vec<u8>, name: &[u8], value: &[u8]) -> Result<(), AllocError>
    ensures { OnOk result (out.new.items ≡ out.old.items ++ line (name.now, value.now)) }
{
    out.extend_from_slice(name)?;
    out.extend_from_slice(b": ")?;
    out.extend_from_slice(value)?;
    out.extend_from_slice(b"\r\n")
}

/// Puts the length of the body.
pub fn put_length(out: &mut Vec<u8>, n: usize) -> Result<(), AllocError>
    ensures { OnOk result (out.new.items ≡ out.old.items ++ line (codes "Content-Length", decimal n)) }
{
    let mut buffer = Buffer::new();
    put_line(out, b"Content-Length", buffer.format(n).as_bytes())
}
