//! How far a member of a JSON object goes.
ghost use Rattle.std.specs.Prelude.{◌≡◌, ◌+◌, ◌<◌, ◌≤◌, ◌^◌, length};
ghost use Rattle.adr_event_text.specs.Walks.{depth_of, outside_at, onward, member_len};

/// Where the next byte of a text stands, so deep in brackets: outside of strings, in one, or behind a backslash there.
#[derive(Clone, Copy)]
pub(crate) enum Place {
    Outside(usize),
    Inside(usize),
    Escaped(usize),
}

/// Where a byte leads from outside of strings. A comma or a closing bracket outside of all brackets ends the member.
fn outside_at(depth: usize, byte: u8) -> Option<Place>
    requires { depth + 1 < 2 ^ 64 }
    ensures { result ≡ outside_at depth byte }
{
    match byte {
        b'"' => Some(Place::Inside(depth)),
        b'[' | b'{' => Some(Place::Outside(depth + 1)),
        b']' | b'}' if depth == 0 => None,
        b']' | b'}' => Some(Place::Outside(depth - 1)),
        b',' if depth == 0 => None,
        _ => Some(Place::Outside(depth)),
    }
}

/// Where a byte leads, unless the member ends before it.
fn onward(place: Place, byte: u8) -> Option<Place>
    requires { depth_of place + 1 < 2 ^ 64 }
    ensures { result ≡ onward place byte }
{
    match place {
        Place::Outside(depth) => outside_at(depth, byte),
        Place::Inside(depth) => match byte {
            b'"' => Some(Place::Outside(depth)),
            b'\\' => Some(Place::Escaped(depth)),
            _ => Some(Place::Inside(depth)),
        },
        Place::Escaped(depth) => Some(Place::Inside(depth)),
    }
}

/// How many bytes the member has that a text begins with: those before the comma or the bracket that ends it.
#[tactic(auto, unfolding(crate::specs::Walks::member_len))]
pub(crate) fn member_len(text: &[u8]) -> usize
    ensures len { result ≡ member_len text.now }
    ensures within { result ≤ length text.now }
{
    let mut place = Place::Outside(0);
    let mut count = 0;
    for byte in text {
        match onward(place, *byte) {
            Some(next) => place = next,
            None => return count,
        }
        count += 1;
    }
    count
}
