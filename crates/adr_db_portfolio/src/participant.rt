//! Who takes part in an event, from the tables.
ghost use Rattle.std.specs.Prelude.{◌≡◌, ◌≤◌, None, Some, IfOk, IfErr, length, if◌then◌else◌, bytes_eq, false};
ghost use Rattle.std.specs.Option.{option_map_or};
ghost use Rattle.adr_state.specs.Participants.{is_for, participants};
ghost use Rattle.adr_state.specs.Weights.{most_resources};
ghost use Rattle.adr_db.specs.Sharing.{sharers, those_for};

use crate::frozen::is_frozen;
use crate::sharers::{read_frozen_sharers, read_sharers};
use adr_objects::{EventBody, NameSet};
use adr_state::{Participant, is_for, push_some};
use adr_text::{ObjectId, Refusal, Rows};
use sqlite::{Alter, Transaction};
use std::alloc::{AllocError, Global};

/// Those who share in the program of the event that was looked at last, so that of the events of one program, one after
/// another, they are read once. They are at most as many as a node has resources.
pub struct Sharers {
    program: Option<ObjectId>,
    those: Rows<Participant>,
    ghost few: { length those ≤ most_resources },
}

impl Drop for Sharers {
    fn drop(self) {
        let Sharers {
            program: _,
            those: _,
        } = self;
    }
}

// One of them, where the event is for that name.
fn one_for(
    alloc: Global,
    names: &Option<NameSet>,
    one: &Participant,
) -> Result<Option<Participant>, AllocError>
    ensures { IfOk result (λ those. those ≡ (if is_for names.now one.now.name then Some one.now else None)) }
{
    if !is_for(names, &one.name) {
        return Ok(None);
    }
    Ok(Some(Participant {
        resource: one.resource,
        weight: one.weight,
        name: one.name.copy(alloc)?,
        ven_name: one.ven_name.copy(alloc)?,
    }))
}

// Those for whose names an event is.
fn those_for(
    alloc: Global,
    names: &Option<NameSet>,
    sharers: &[Participant],
) -> Result<Vec<Participant>, AllocError>
    ensures { IfOk result (λ those. those.items ≡ those_for names.now sharers.now) }
{
    let mut those = Vec::new(alloc);
    for one in sharers {
        push_some(&mut those, one_for(alloc, names, one)?)?;
    }
    Ok(those)
}

impl Sharers {
    ghost use Rattle.sqlite.specs.Held.{state};
    ghost use Rattle.sqlite.specs.State.{HasCleanDisk};
    ghost use Rattle.adr_sql.specs.Calls.{LeavesLent};
    ghost use Rattle.adr_db.specs.Calls.{IsOfStore};
    ghost use Rattle.adr_db.specs.Kept.{Kept};
    ghost use Rattle.adr_db_portfolio.specs.Participants.{IsFindRefusal, IsReadRefusal};
    ghost use Rattle.adr_db_portfolio.specs.KnownSharers.{AreThoseOf, FindsThose, FindsOf};

    /// Those of no program.
    pub fn none(alloc: Global) -> Sharers
        ensures { (kept : Kept) → AreThoseOf kept result }
    {
        Sharers {
            program: None,
            those: Rows::new(alloc),
        }
    }

    // Whether they are those of this program.
    fn is_of(&self, program: &ObjectId) -> bool
        ensures { result ≡ option_map_or (λ p. bytes_eq p program.now) self.now.program false }
    {
        match &self.program {
            Some(its) => *its == *program,
            None => false,
        }
    }

    // Those who share in a program, which are read unless they were before.
    fn read<S: Alter>(
        &mut self,
        alloc: Global,
        tx: &mut Transaction<'_, S>,
        program: &ObjectId,
    ) -> Result<(), Refusal>
        ensures lent { LeavesLent S.Store tx.old.conn tx.new.conn result }
        ensures finds { FindsThose S.Store tx.old.conn.now tx.new.conn.now program.now self.old self.new result }
        ensures refused { IfErr result IsOfStore }
        ensures fails { HasCleanDisk (state S.Store tx.new.conn.now) → IfErr result (IsReadRefusal S.Store tx.old.conn.now tx.new.conn.now program.now) }
    {
        if self.is_of(program) {
            return Ok(());
        }
        let those = read_sharers(alloc, tx, program)?;
        self.program = Some(program.copy(alloc)?);
        self.those = those;
        Ok(())
    }

    // Those who share in the program of an event and for whose names it is. They are read unless they are known.
    fn sharing<S: Alter>(
        &mut self,
        alloc: Global,
        tx: &mut Transaction<'_, S>,
        event: &EventBody,
    ) -> Result<Rows<Participant>, Refusal>
        ensures lent { LeavesLent S.Store tx.old.conn tx.new.conn result }
        ensures finds { FindsOf S.Store tx.old.conn.now tx.new.conn.now self.old self.new (λ kept ps. ps ≡ those_for event.now.resource_names (sharers event.now.program kept)) result }
        ensures few { IfOk result (λ ps. length ps ≤ most_resources) }
        ensures refused { IfErr result IsOfStore }
        ensures fails { HasCleanDisk (state S.Store tx.new.conn.now) → IfErr result (IsReadRefusal S.Store tx.old.conn.now tx.new.conn.now event.now.program) }
    {
        self.read(alloc, tx, &event.program)?;
        let ps = those_for(alloc, &event.resource_names, self.those.as_slice())?;
        Ok(Rows::from_vec(ps))
    }

    /// Who takes part in the event of an id, in the order of the resources' numbers, each with its weight, its name and its
    /// ven's: of an event that is frozen the resources for which a weight is kept, and else those with a share in its program,
    /// those of its names where it has such names; at most as many as a node has resources. It costs a look-up of a resource
    /// and a ven for each of these shares; those who share in the program are read unless they are known.
    pub fn participants<S: Alter>(
        &mut self,
        alloc: Global,
        tx: &mut Transaction<'_, S>,
        id: &ObjectId,
        event: &EventBody,
    ) -> Result<Rows<Participant>, Refusal>
        ensures lent { LeavesLent S.Store tx.old.conn tx.new.conn result }
        ensures finds { FindsOf S.Store tx.old.conn.now tx.new.conn.now self.old self.new (λ kept all. all ≡ participants kept.portfolio id.now event.now) result }
        ensures few { IfOk result (λ all. length all ≤ most_resources) }
        ensures refused { IfErr result IsOfStore }
        ensures fails { HasCleanDisk (state S.Store tx.new.conn.now) → IfErr result (IsFindRefusal S.Store tx.old.conn.now tx.new.conn.now id.now event.now.program) }
    {
        if is_frozen(alloc, tx, id)? {
            return read_frozen_sharers(alloc, tx, id);
        }
        self.sharing(alloc, tx, event)
    }
}
