//! How long the poller rests behind a round.
ghost use Rattle.std.specs.Prelude.{◌≡◌, ◌+◌};
ghost use Rattle.adr_work.specs.Rests.{up_to, first, rest_behind, rests_after};

use crate::page::PollEnd;
use adr_text::Refusal;

/// The rests between rounds, in seconds. Behind a whole round it is the longest; behind rounds that broke off, one
/// after another, it is 1, 2, 4 and so on, up to the longest.
#[derive(Clone, Copy)]
pub struct Rests {
    longest: u64,
    /// That behind the next round, where it breaks off.
    again: u64,
}

/// Twice as long, or the longest.
fn doubled(rest: u64, longest: u64) -> u64
    ensures { result ≡ up_to longest (rest + rest) }
{
    match rest.checked_add(rest) {
        Some(twice) if twice <= longest => twice,
        _ => longest,
    }
}

impl Rests {
    /// No round broke off yet.
    pub fn new(longest: u64) -> Rests
        ensures { result ≡ first longest }
    {
        let again = if longest < 1 { longest } else { 1 };
        Rests { longest, again }
    }

    /// How long it rests behind a round that ended so.
    pub fn behind(&mut self, end: &Result<PollEnd, Refusal>) -> u64
        ensures rest { result ≡ rest_behind self.old end.now }
        ensures next { self.new ≡ rests_after self.old end.now }
    {
        match end {
            Ok(PollEnd::Whole) => {
                *self = Rests::new(self.longest);
                self.longest
            }
            _ => {
                let rest = self.again;
                self.again = doubled(rest, self.longest);
                rest
            }
        }
    }
}
