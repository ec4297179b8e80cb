//! Room for entries as they come.
ghost use Rattle.std.specs.Prelude.{◌≡◌, ◌⊎◌, [], Ok, IfErr, OnOk};
ghost use Rattle.adr_text.specs.declared.refusal.Refusal.TheVariants.{Exhausted, OutboxFull};
ghost use Rattle.adr_sql.specs.Calls.{LeavesLent};
ghost use Rattle.adr_db.specs.Kept.{Kept};
ghost use Rattle.adr_db.specs.Calls.{IsOfStore};
ghost use Rattle.adr_room.specs.Rooms.{HaveCome, took, AddsTo, EndsWith, RefusesAll, Writes};

use adr_db::Meta;
use adr_delivery::{Entry, check_room};
use adr_outbox::append;
use adr_state::Limits;
use adr_text::Refusal;
use sqlite::{Alter, Transaction};
use std::alloc::Global;

/// How much room there is for further entries.
pub struct Room {
    /// How many numbers there are left.
    left: u64,
    /// Whether entries came for which no number was left.
    is_short: bool,
    /// Whether entries came that were more than may wait.
    is_full: bool,
}

impl Drop for Room {
    fn drop(self) {
        let Room {
            left: _,
            is_short: _,
            is_full: _,
        } = self;
    }
}

// A refusal where there is room is want of memory or the store's.
fn of_store(appended: Result<(), Refusal>) -> Result<(), Refusal>
    ensures same { OnOk result (appended ≡ Ok tt) }
    ensures refused { IfErr result IsOfStore }
{
    match appended {
        Ok(()) => Ok(()),
        Err(Refusal::OutOfMemory) => Err(Refusal::OutOfMemory),
        Err(_) => Err(Refusal::Store),
    }
}

impl Room {
    /// All that is left, before an entry comes.
    pub fn new(limits: &Limits, meta: &Meta) -> Room
        ensures { (kept : Kept) → HaveCome limits.now meta.now kept [] result }
    {
        let most = limits.serial.get();
        let last = meta.serial.get();
        Room {
            left: if most < last { 0 } else { most - last },
            is_short: false,
            is_full: false,
        }
    }

    // So many come.
    fn take(&mut self, many: u64)
        ensures { self.new ≡ took many self.old }
    {
        if self.left < many {
            self.is_short = true;
            self.left = 0;
        } else {
            self.left -= many;
        }
    }

    // Appends entries for which there are numbers, unless they are more than may wait.
    fn write<S: Alter>(
        &mut self,
        alloc: Global,
        tx: &mut Transaction<'_, S>,
        limits: &Limits,
        meta: &mut Meta,
        entries: &[Entry],
    ) -> Result<(), Refusal>
        ensures lent { LeavesLent S.Store tx.old.conn tx.new.conn result }
        ensures writes { Writes S.Store tx.old.conn.now tx.new.conn.now limits.now entries.now self.old self.new meta.old meta.new result }
        ensures refused { IfErr result IsOfStore }
    {
        let room = check_room(
            limits.serial.get(),
            limits.pending.get(),
            meta.serial.get(),
            meta.pending as usize,
            entries.len(),
        );
        match room {
            Ok(()) => of_store(append(alloc, tx, limits, meta, entries)),
            Err(Refusal::OutboxFull) => {
                self.is_full = true;
                Ok(())
            }
            Err(_) => {
                self.is_short = true;
                Ok(())
            }
        }
    }

    /// Further entries, behind those that came so far. They are appended while there are numbers and room for all that
    /// came; from the first on that lacks one they are only counted. The numbers of the node are handed in, and are left
    /// as the caller has to put them.
    pub fn add<S: Alter>(
        &mut self,
        alloc: Global,
        tx: &mut Transaction<'_, S>,
        limits: &Limits,
        meta: &mut Meta,
        entries: &[Entry],
    ) -> Result<(), Refusal>
        ensures lent { LeavesLent S.Store tx.old.conn tx.new.conn result }
        ensures adds { AddsTo S.Store tx.old.conn.now tx.new.conn.now limits.now entries.now self.old self.new meta.old meta.new result }
        ensures refused { IfErr result IsOfStore }
    {
        if entries.is_empty() {
            return Ok(());
        }
        self.take(entries.len() as u64);
        if self.is_short || self.is_full {
            return Ok(());
        }
        self.write(alloc, tx, limits, meta, entries)
    }

    /// Whether all that came is appended: refused with `Exhausted` where there were no numbers for all of them, and then
    /// with `OutboxFull` where all of them were more than may wait.
    pub fn close(&self) -> Result<(), Refusal>
        ensures ends { EndsWith self.now result }
        ensures refuses { RefusesAll self.now result }
        ensures listed { IfErr result (λ refusal. (refusal ≡ Exhausted) ⊎ (refusal ≡ OutboxFull)) }
    {
        if self.is_short {
            return Err(Refusal::Exhausted);
        }
        if self.is_full {
            return Err(Refusal::OutboxFull);
        }
        Ok(())
    }
}
