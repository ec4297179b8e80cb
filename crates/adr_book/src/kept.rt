//! The book and the passes. Their methods stand in other files, whose clauses cite definitions over these types.
ghost use Rattle.std.specs.Prelude.{◌≡◌, ◌+◌, ◌≤◌, IsTrue, Some, length};
ghost use Rattle.adr_book.specs.Trail.{most_turns, led};

use crate::trail::Trail;
use adr_machine::{Answer, Command, Desk};
use adr_text::Refusal;
use std::sync::ledger;
use std::sync::ledger::{Ledger, Share};

/// The last turn that a book can reach.
pub const MOST_TURNS: u64 = 9_000_000_000_000_000;

/// What one thread holds: the last turn that it was told of, and its share of all turns.
#[derive(Drop)]
pub struct Pass<L: Ledger> {
    pub(crate) turn: u64,
    pub(crate) share: Share<L>,
    ghost one_part: { share.parts ≡ 1 },
}

/// The place of a command in the trail, and what it was answered.
#[derive(Drop)]
pub struct Receipt {
    pub turn: u64,
    pub command: Command,
    pub answer: Answer,
}

/// A desk, with the trail of the commands that it accepted since a base.
#[derive(Drop)]
pub struct Book<D: Desk, T: Trail<D>, L: Ledger> {
    pub(crate) trail: T,
    pub(crate) turn: u64,
    pub(crate) desk: D,
    pub(crate) total: ledger::Book<L>,
    ghost leads: { D.is_sound desk → led (D.settings desk) (T.base trail) (T.commands trail) ≡ Some (D.state desk) },
    ghost turn_is: { turn ≡ T.since trail + length (T.commands trail) },
    ghost total_is: { total.total ≡ turn },
    ghost most: { turn ≤ most_turns },
    ghost within: { IsTrue T.keeps → length (T.commands trail) ≤ (D.settings desk).limits.trail },
}

/// Why an audit found no agreement.
#[derive(Clone, Copy, Debug, PartialEq, Eq)]
pub enum AuditFault {
    /// The first receipt that has no place in the trail is of this turn.
    Mismatch(u64),
    /// Nothing was found out.
    Refused(Refusal),
}
