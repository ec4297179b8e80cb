//! The subscriptions that were read.
ghost use Rattle.std.specs.Prelude.{◌≡◌, OnOk, IfErr};
ghost use Rattle.std.specs.Ordering.{nat_cmp};
ghost use Rattle.adr_sql.specs.Calls.{LeavesLent};
ghost use Rattle.adr_state.specs.Keys.{with_rows};
ghost use Rattle.adr_state.specs.Portfolios.{is_sub_of};
ghost use Rattle.adr_db.specs.Calls.{IsOfStore};
ghost use Rattle.adr_db.specs.Kept.{Kept};
ghost use Rattle.adr_listeners.specs.declared.hearers.Hearers.TheVariants.{Of, Everyone};
ghost use Rattle.adr_listeners.specs.Hearers.{is_operators, hears};
ghost use Rattle.adr_listeners.specs.Listeners.{AreThose, FindsThose, ReadsMore};

use crate::hearers::Hearers;
use crate::read::{read_of_ven, read_operators};
use adr_db_portfolio::read_subs;
use adr_objects::Number;
use adr_subscription::Sub;
use adr_text::{Refusal, Rows, Table};
use sqlite::{Alter, Transaction};
use std::alloc::{AllocError, Global};

/// The subscriptions that were read for changes so far, since they may hear of them: those of the operator, of some vens, or
/// all.
pub struct Listeners {
    all: bool,
    operator: bool,
    vens: Rows<Number>,
    pub subs: Table<Number, Sub>,
}

impl Drop for Listeners {
    fn drop(self) {
        let Listeners {
            all: _,
            operator: _,
            vens: _,
            subs: _,
        } = self;
    }
}

// Puts subscriptions among others, each in its place in their order.
fn put_subs(subs: &mut Table<Number, Sub>, more: Rows<(Number, Sub)>) -> Result<(), AllocError>
    ensures { OnOk result (subs.new ≡ with_rows nat_cmp subs.old more) }
{
    'subs: for sub in more.into_vec() {
        subs.put(sub.0, sub.1)?;
    }
    Ok(())
}

impl Listeners {
    /// None were read.
    pub fn unread(alloc: Global) -> Listeners
        ensures { (kept : Kept) → AreThose kept result }
    {
        Listeners {
            all: false,
            operator: false,
            vens: Rows::new(alloc),
            subs: Table::new(alloc),
        }
    }

    // Those of the operator are read, unless they were before.
    fn read_operator<S: Alter>(
        &mut self,
        alloc: Global,
        tx: &mut Transaction<'_, S>,
    ) -> Result<(), Refusal>
        ensures lent { LeavesLent S.Store tx.old.conn tx.new.conn result }
        ensures finds { FindsThose S.Store tx.old.conn.now tx.new.conn.now self.old self.new result }
        ensures reads { OnOk result (ReadsMore is_operators self.old self.new) }
        ensures refused { IfErr result IsOfStore }
    {
        if self.operator {
            return Ok(());
        }
        let more = read_operators(alloc, tx)?;
        put_subs(&mut self.subs, more)?;
        self.operator = true;
        Ok(())
    }

    // Those of a ven are read.
    fn read_ven<S: Alter>(
        &mut self,
        alloc: Global,
        tx: &mut Transaction<'_, S>,
        ven: Number,
    ) -> Result<(), Refusal>
        ensures lent { LeavesLent S.Store tx.old.conn tx.new.conn result }
        ensures finds { FindsThose S.Store tx.old.conn.now tx.new.conn.now self.old self.new result }
        ensures reads { OnOk result (ReadsMore (is_sub_of ven) self.old self.new) }
        ensures refused { IfErr result IsOfStore }
    {
        let more = read_of_ven(alloc, tx, ven)?;
        put_subs(&mut self.subs, more)?;
        self.vens.push(ven)?;
        Ok(())
    }

    // Those of the operator and those of a ven are read, unless they were before.
    fn read_for<S: Alter>(
        &mut self,
        alloc: Global,
        tx: &mut Transaction<'_, S>,
        ven: Number,
    ) -> Result<(), Refusal>
        ensures lent { LeavesLent S.Store tx.old.conn tx.new.conn result }
        ensures finds { FindsThose S.Store tx.old.conn.now tx.new.conn.now self.old self.new result }
        ensures reads { OnOk result (ReadsMore (hears (Of ven)) self.old self.new) }
        ensures refused { IfErr result IsOfStore }
    {
        if self.all {
            return Ok(());
        }
        self.read_operator(alloc, tx)?;
        if self.vens.as_slice().contains(&ven) {
            return Ok(());
        }
        self.read_ven(alloc, tx, ven)
    }

    // All are read, unless they were before.
    fn read_all<S: Alter>(
        &mut self,
        alloc: Global,
        tx: &mut Transaction<'_, S>,
    ) -> Result<(), Refusal>
        ensures lent { LeavesLent S.Store tx.old.conn tx.new.conn result }
        ensures finds { FindsThose S.Store tx.old.conn.now tx.new.conn.now self.old self.new result }
        ensures reads { OnOk result (ReadsMore (hears Everyone) self.old self.new) }
        ensures refused { IfErr result IsOfStore }
    {
        if self.all {
            return Ok(());
        }
        self.subs = read_subs(alloc, tx)?;
        self.all = true;
        Ok(())
    }

    /// Those that may hear of a change are read, unless they were before.
    pub fn read<S: Alter>(
        &mut self,
        alloc: Global,
        tx: &mut Transaction<'_, S>,
        hearers: Hearers,
    ) -> Result<(), Refusal>
        ensures lent { LeavesLent S.Store tx.old.conn tx.new.conn result }
        ensures finds { FindsThose S.Store tx.old.conn.now tx.new.conn.now self.old self.new result }
        ensures reads { OnOk result (ReadsMore (hears hearers) self.old self.new) }
        ensures refused { IfErr result IsOfStore }
    {
        match hearers {
            Hearers::Nobody => Ok(()),
            Hearers::Of(ven) => self.read_for(alloc, tx, ven),
            Hearers::Everyone => self.read_all(alloc, tx),
        }
    }
}
