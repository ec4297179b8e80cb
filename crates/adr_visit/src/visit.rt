//! Where a visit is.
ghost use Rattle.std.specs.Prelude.{◌≡◌, ◌⊎◌, ◌+◌, IfOk, IfErr};
ghost use Rattle.adr_text.specs.declared.refusal.Refusal.TheVariants.{Exhausted, OutboxFull};
ghost use Rattle.adr_db.specs.Kept.{Kept};
ghost use Rattle.adr_db.specs.Calls.{IsOfStore};
ghost use Rattle.adr_room.specs.Rooms.{EndsWith, RefusesAll};
ghost use Rattle.adr_visit.specs.Visits.{Begins};

use adr_db::Meta;
use adr_db_portfolio::Sharers;
use adr_listeners::Listeners;
use adr_room::Room;
use adr_state::Limits;
use adr_text::Refusal;
use std::alloc::Global;

/// How far a visit is: the room that is left for entries, what was read for the items so far and serves the next ones, and
/// how many changes there were.
pub struct Visit {
    pub(crate) room: Room,
    pub(crate) sharers: Sharers,
    pub(crate) listeners: Listeners,
    pub(crate) many: u64,
}

impl Drop for Visit {
    fn drop(self) {
        let Visit {
            room: _,
            sharers: _,
            listeners: _,
            many: _,
        } = self;
    }
}

impl Visit {
    /// Nothing was visited.
    pub fn new(alloc: Global, limits: &Limits, meta: &Meta) -> Visit
        ensures { (kept : Kept) → Begins limits.now meta.now kept result }
    {
        Visit {
            room: Room::new(limits, meta),
            sharers: Sharers::none(alloc),
            listeners: Listeners::unread(alloc),
            many: 0,
        }
    }

    /// How many changes there were.
    pub fn changes(&self) -> u64
        ensures { result ≡ self.now.many }
    {
        self.many
    }

    /// Whether all that was told is appended: refused with `Exhausted` where there were no numbers for all of it, and then
    /// with `OutboxFull` where all of it was more than may wait.
    pub fn close(&self) -> Result<(), Refusal>
        ensures ends { EndsWith self.now.room result }
        ensures refuses { RefusesAll self.now.room result }
        ensures listed { IfErr result (λ refusal. (refusal ≡ Exhausted) ⊎ (refusal ≡ OutboxFull)) }
    {
        self.room.close()
    }
}

/// So many changes more. More than a number holds could not be held either.
pub(crate) fn with_more(many: u64, more: usize) -> Result<u64, Refusal>
    ensures sum { IfOk result (λ all. all ≡ many + more) }
    ensures refused { IfErr result IsOfStore }
{
    match many.checked_add(more as u64) {
        Some(all) => Ok(all),
        None => Err(Refusal::OutOfMemory),
    }
}
