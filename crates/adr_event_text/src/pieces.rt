//! The pieces of the text that is kept of a shown event, between which its id and its stamps stand when it is told.
ghost use Rattle.std.specs.Prelude.{◌≡◌, ◌≤◌, length};
ghost use Rattle.adr_event_text.specs.Pieces.{begins, named_len, members_of, middle_len, name_of, middle_of, tail_of};

use crate::walk::member_len;

const NAME: &[u8] = b"\"eventName\":";

const PERIOD: &[u8] = b"\"intervalPeriod\":";

/// The member `eventName` with the comma behind it, where there is one; the members from there to `intervals`; and what
/// stands behind those.
pub(crate) struct Pieces<'t> {
    pub name: &'t [u8],
    pub middle: &'t [u8],
    pub tail: &'t [u8],
}

/// Whether a text begins with the member of that name, which is given with its quotes and its colon.
fn begins(name: &[u8], text: &[u8]) -> bool
    ensures { result ≡ begins name.now text.now }
{
    text.starts_with(name)
}

/// How many bytes the first member and the comma behind it have, where it has that name; else none.
fn named_len(name: &[u8], text: &[u8]) -> usize
    ensures len { result ≡ named_len name.now text.now }
    ensures within { result ≤ length text.now }
{
    if !begins(name, text) {
        return 0;
    }
    let len = member_len(text);
    // (what is cut off has no comma)
    if len < text.len() { len + 1 } else { len }
}

/// The members of an object's text: what stands behind the bracket.
fn members_of(kept: &[u8]) -> &[u8]
    ensures { result.now ≡ members_of kept.now }
{
    match kept.split_first() {
        Some((_, members)) => members,
        None => kept,
    }
}

/// How many bytes `intervalPeriod`, where it is there, and `intervals` have.
fn middle_len(text: &[u8]) -> usize
    ensures len { result ≡ middle_len text.now }
    ensures within { result ≤ length text.now }
{
    let period = named_len(PERIOD, text);
    let (_, intervals) = text.split_at(period);
    period + member_len(intervals)
}

/// The pieces of a text.
#[tactic(auto, unfolding(crate::specs::Pieces::name_of, crate::specs::Pieces::middle_of, crate::specs::Pieces::tail_of))]
pub(crate) fn pieces_of(kept: &[u8]) -> Pieces<'_>
    ensures name { result.name.now ≡ name_of kept.now }
    ensures middle { result.middle.now ≡ middle_of kept.now }
    ensures tail { result.tail.now ≡ tail_of kept.now }
{
    let members = members_of(kept);
    let (name, rest) = members.split_at(named_len(NAME, members));
    let (middle, tail) = rest.split_at(middle_len(rest));
    Pieces { name, middle, tail }
}
