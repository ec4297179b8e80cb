//! Where lines end.
ghost use Rattle.std.specs.Prelude.{◌≡◌, ◌<◌, ◌≤◌, ℕ, false, length, IsFalse};
ghost use Rattle.adr_wire.specs.Lines.{has_line_end, begins_line, before_return, is_empty_line_at};

/// Whether a line ends behind the first `from` bytes.
pub fn has_line_end(bytes: &[u8], from: usize) -> bool
    ensures { result ≡ has_line_end from bytes.now }
{
    bytes.iter().skip(from).any(|b| *b == b'\n')
}

/// Whether a line begins at the place.
fn begins_line(bytes: &[u8], place: usize) -> bool
    requires { place ≤ length bytes.now }
    ensures { result ≡ begins_line place bytes.now }
{
    place == 0 || bytes[place - 1] == b'\n'
}

/// The place, or that of the carriage return before it.
fn before_return(bytes: &[u8], place: usize) -> usize
    requires { place ≤ length bytes.now }
    ensures value { result ≡ before_return place bytes.now }
    ensures within { result ≤ place }
{
    if 0 < place && bytes[place - 1] == b'\r' {
        place - 1
    } else {
        place
    }
}

/// Whether a line with nothing in it ends with the byte at the place.
fn is_empty_line_at(bytes: &[u8], place: usize) -> bool
    requires { place < length bytes.now }
    ensures { result ≡ is_empty_line_at place bytes.now }
{
    if bytes[place] != b'\n' {
        return false;
    }
    begins_line(bytes, before_return(bytes, place))
}

/// Whether a line with nothing in it ends behind the first `from` bytes. It may say so where none does.
pub fn has_empty_line(bytes: &[u8], from: usize) -> bool
    ensures { IsFalse result → (place : ℕ) → from ≤ place → place < length bytes.now → is_empty_line_at place bytes.now ≡ false }
{
    for place in from..bytes.len() {
        if is_empty_line_at(bytes, place) {
            return true;
        }
    }
    false
}
