//! The end of a scan, whose keys are read before the transaction begins.
ghost use Rattle.std.specs.Prelude.{◌≡◌, false, IsTrue, IfErr, OnErr};
ghost use Rattle.sqlite.specs.Held.{state};
ghost use Rattle.sqlite.specs.State.{HasCleanDisk};
ghost use Rattle.adr_state.specs.declared.state.State.{State};
ghost use Rattle.adr_held.specs.Held.{HoldsState};
ghost use Rattle.adr_sql.specs.Calls.{LeavesLent, Commits};
ghost use Rattle.adr_queries.specs.Listed.{IsListed};
ghost use Rattle.adr_machine.specs.Listed.{listed};
ghost use Rattle.adr_machine.specs.declared.command.Command.TheVariants as command;
ghost use Rattle.adr_desk.specs.Steps.{step_by, StepsTables, RefusesAs, HoldsStepped, LeftStepped};
ghost use Rattle.adr_desk.specs.Ends.{HasMissed, CommitsMissed, RefusesMissed, StepsMissed, RefusesSteps};

use crate::frame::{begin, commit};
use crate::scans::all_missed;
use crate::step::put_changed;
use crate::told::tell;
use adr_db::{Meta, read_meta};
use adr_machine::told::after;
use adr_machine::{Answer, Command, Settings};
use adr_missed::scan_shut;
use adr_state::MirrorKey;
use adr_text::{Moment, Refusal, Rows};
use adr_touched::Touched;
use sqlite::{Alter, Connection, Transaction};
use std::alloc::Global;

// The end of a scan that missed these keys, but for the numbers of the node, which are handed in, and are left as they have to
// be put.
fn shut<S: Alter>(
    alloc: Global,
    tx: &mut Transaction<'_, S>,
    settings: &Settings,
    now: Moment,
    meta: &mut Meta,
    keys: Rows<MirrorKey>,
) -> Result<Answer, Refusal>
    ensures lent { LeavesLent S.Store tx.old.conn tx.new.conn result }
    ensures makes { CommitsMissed keys (step_by settings.now now command.ScanEnd) meta.old meta.new (state S.Store tx.old.conn.now) (state S.Store tx.new.conn.now) result }
    ensures refuses { RefusesMissed keys (step_by settings.now now command.ScanEnd) meta.old (state S.Store tx.old.conn.now) (state S.Store tx.new.conn.now) result }
    ensures listed { IfErr result (IsListed (Unit {0}) (listed command.ScanEnd)) }
{
    let found = scan_shut(tx, meta, keys)?;
    let nothing = Touched::none(alloc);
    let _many = tell(alloc, tx, settings, now, meta, &Command::ScanEnd, &nothing)?;
    Ok(Answer::Probes(found))
}

// The same on a lent transaction. The numbers of the node are read once, and put at most once.
fn ended<S: Alter>(
    alloc: Global,
    tx: &mut Transaction<'_, S>,
    settings: &Settings,
    now: Moment,
    keys: Rows<MirrorKey>,
) -> Result<Answer, Refusal>
    ensures lent { LeavesLent S.Store tx.old.conn tx.new.conn result }
    ensures makes { StepsMissed keys (step_by settings.now now command.ScanEnd) (state S.Store tx.old.conn.now) (state S.Store tx.new.conn.now) result }
    ensures refuses { RefusesSteps keys (step_by settings.now now command.ScanEnd) (state S.Store tx.old.conn.now) (state S.Store tx.new.conn.now) result }
    ensures listed { IfErr result (IsListed (Unit {0}) (listed command.ScanEnd)) }
{
    let before = read_meta(tx)?;
    let mut meta = before;
    let answer = shut(alloc, tx, settings, now, &mut meta, keys)?;
    after(put_changed(tx, &before, &meta), answer)
}

// The same in a transaction of its own: all of it is committed, or nothing is left of it.
fn shut_in<S: Alter>(
    alloc: Global,
    conn: &mut Connection<S>,
    settings: &Settings,
    now: Moment,
    keys: Rows<MirrorKey>,
) -> Result<Answer, Refusal>
    requires { conn.old.in_transaction ≡ false }
    ensures whole { Commits S.Store conn.old conn.new
        (λ s. (held : State) → HoldsState held (state S.Store conn.old) → HasMissed keys held → HoldsStepped (step_by settings.now now command.ScanEnd) held s)
        (λ trees. (held : State) → HoldsState held (state S.Store conn.old) → HasMissed keys held → LeftStepped (step_by settings.now now command.ScanEnd) held trees)
        result }
    ensures makes { StepsMissed keys (step_by settings.now now command.ScanEnd) (state S.Store conn.old) (state S.Store conn.new) result }
    ensures refuses { RefusesSteps keys (step_by settings.now now command.ScanEnd) (state S.Store conn.old) (state S.Store conn.new) result }
    ensures listed { IfErr result (IsListed (Unit {0}) (listed command.ScanEnd)) }
    ensures unchanged { HasCleanDisk (state S.Store conn.new) → IsTrue (state S.Store conn.new).is_open → OnErr result ((state S.Store conn.new).now ≡ (state S.Store conn.old).now) }
{
    let mut tx = begin(conn);
    let answer = ended(alloc, &mut tx, settings, now, keys)?;
    let ended = commit(tx);
    after(ended, answer)
}

/// The end of a scan. What it missed is read row by row before the transaction begins in which it is closed: all of that is
/// committed, or nothing is left of it.
pub(crate) fn end_scan<S: Alter>(
    alloc: Global,
    conn: &mut Connection<S>,
    settings: &Settings,
    now: Moment,
) -> Result<Answer, Refusal>
    requires { conn.old.in_transaction ≡ false }
    ensures whole { Commits S.Store conn.old conn.new
        (λ s. (held : State) → HoldsState held (state S.Store conn.old) → HoldsStepped (step_by settings.now now command.ScanEnd) held s)
        (λ trees. (held : State) → HoldsState held (state S.Store conn.old) → LeftStepped (step_by settings.now now command.ScanEnd) held trees)
        result }
    ensures makes { StepsTables (step_by settings.now now command.ScanEnd) (state S.Store conn.old) (state S.Store conn.new) result }
    ensures refuses { RefusesAs (step_by settings.now now command.ScanEnd) (state S.Store conn.old) (state S.Store conn.new) result }
    ensures listed { IfErr result (IsListed (Unit {0}) (listed command.ScanEnd)) }
    ensures unchanged { HasCleanDisk (state S.Store conn.new) → IsTrue (state S.Store conn.new).is_open → OnErr result ((state S.Store conn.new).now ≡ (state S.Store conn.old).now) }
{
    let is_settled = conn.is_autocommit();
    prove!(is_settled);
    let keys = all_missed(alloc, conn)?;
    shut_in(alloc, conn, settings, now, keys)
}
