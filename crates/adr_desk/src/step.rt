//! A command on the tables, in one transaction.
ghost use Rattle.std.specs.Prelude.{◌≡◌, false, IsTrue, IfOk, IfErr, OnOk, OnErr};
ghost use Rattle.sqlite.specs.Held.{state};
ghost use Rattle.sqlite.specs.State.{HasCleanDisk};
ghost use Rattle.adr_state.specs.declared.state.State.{State};
ghost use Rattle.adr_sql.specs.Calls.{LeavesLent, Commits};
ghost use Rattle.adr_db.specs.Kept.{Kept, Keeps, with_meta};
ghost use Rattle.adr_held.specs.Held.{HoldsState};
ghost use Rattle.adr_db.specs.BaseCalls.{RefusesOn};
ghost use Rattle.adr_db.specs.Calls.{IsOfStore};
ghost use Rattle.adr_machine.specs.Edits.{edit_of};
ghost use Rattle.adr_queries.specs.Listed.{IsListed};
ghost use Rattle.adr_machine.specs.Listed.{listed};
ghost use Rattle.adr_desk.specs.Asking.{ends_scan};
ghost use Rattle.adr_desk.specs.Decisions.{IsAnswered};
ghost use Rattle.adr_desk.specs.Steps.{step_of, step_by, EditsTables, CommitsTables, RefusesToCommit, StepsTables, RefusesAs, HoldsStepped, LeftStepped};

use crate::answered::{answered, stamps_of};
use crate::decided::carry_out;
use crate::deliver::delivered;
use crate::ended::end_scan;
use crate::frame::{begin, commit};
use crate::told::tell;
use adr_db::{Meta, put_meta, read_meta};
use adr_machine::told::after;
use adr_machine::{Answer, Command, Outcome, Settings};
use adr_state::Limits;
use adr_text::{Moment, Refusal};
use adr_touched::Touched;
use sqlite::{Alter, Connection, Transaction};
use std::alloc::Global;

// The numbers of the node are put, where they differ from those that are kept.
pub(crate) fn put_changed<S: Alter>(
    tx: &mut Transaction<'_, S>,
    before: &Meta,
    after: &Meta,
) -> Result<(), Refusal>
    ensures lent { LeavesLent S.Store tx.old.conn tx.new.conn result }
    ensures leaves { HasCleanDisk (state S.Store tx.new.conn.now) → OnOk result ((kept : Kept) → Keeps kept (state S.Store tx.old.conn.now) → kept.meta ≡ before.now → Keeps (with_meta after.now kept) (state S.Store tx.new.conn.now)) }
    ensures refused { IfErr result IsOfStore }
{
    if before == after {
        return Ok(());
    }
    put_meta(tx, after)
}

/// What the command decides is carried out, and a number drawn where one is wanted; with what it touched. The numbers of the
/// node are handed in, and are left as they have to be put.
fn numbered<S: Alter>(
    alloc: Global,
    tx: &mut Transaction<'_, S>,
    limits: &Limits,
    now: Moment,
    meta: &mut Meta,
    command: &Command,
) -> Result<(Outcome, Touched), Refusal>
    requires { ends_scan command.now ≡ false }
    ensures lent { LeavesLent S.Store tx.old.conn tx.new.conn result }
    ensures makes { EditsTables (λ base. edit_of limits.now now base command.now) meta.old meta.new (state S.Store tx.old.conn.now) (state S.Store tx.new.conn.now) result }
    ensures refuses { RefusesOn S.Store tx.old.conn.now tx.new.conn.now (λ base. edit_of limits.now now base command.now) meta.old result }
    ensures answered { IfOk result (λ r. IsAnswered command.now r.0) }
    ensures listed { IfErr result (IsListed (Unit {0}) (listed command.now)) }
{
    let number = meta.serial.next();
    let said = carry_out(alloc, tx, limits, now, number, meta, command)?;
    let drawn = meta.serial.draw(limits, command.draws_number());
    after(drawn, said)
}

/// The command of one who may give it: its edit, and then what it touched is visited, stamped and told; nothing else of what
/// is shown is looked at. The numbers of the node are handed in, and are left as they
/// have to be put.
fn committed<S: Alter>(
    alloc: Global,
    tx: &mut Transaction<'_, S>,
    settings: &Settings,
    now: Moment,
    meta: &mut Meta,
    command: &Command,
) -> Result<Answer, Refusal>
    requires { ends_scan command.now ≡ false }
    ensures lent { LeavesLent S.Store tx.old.conn tx.new.conn result }
    ensures makes { CommitsTables (step_of settings.now (λ base. edit_of settings.now.limits now base command.now) now) meta.old meta.new (state S.Store tx.old.conn.now) (state S.Store tx.new.conn.now) result }
    ensures refuses { RefusesToCommit (step_of settings.now (λ base. edit_of settings.now.limits now base command.now) now) meta.old (state S.Store tx.old.conn.now) (state S.Store tx.new.conn.now) result }
    ensures listed { IfErr result (IsListed (Unit {0}) (listed command.now)) }
{
    let (said, touched) = numbered(alloc, tx, &settings.limits, now, meta, command)?;
    let before = stamps_of(tx, &said)?;
    let many = tell(alloc, tx, settings, now, meta, command, &touched)?;
    let after = stamps_of(tx, &said)?;
    answered(said, before, many, after)
}

/// What the command makes of the tables, but for the numbers of the node, which are handed in.
fn acted<S: Alter>(
    alloc: Global,
    tx: &mut Transaction<'_, S>,
    settings: &Settings,
    now: Moment,
    meta: &mut Meta,
    command: &Command,
) -> Result<Answer, Refusal>
    requires { ends_scan command.now ≡ false }
    ensures lent { LeavesLent S.Store tx.old.conn tx.new.conn result }
    ensures makes { CommitsTables (step_by settings.now now command.now) meta.old meta.new (state S.Store tx.old.conn.now) (state S.Store tx.new.conn.now) result }
    ensures refuses { RefusesToCommit (step_by settings.now now command.now) meta.old (state S.Store tx.old.conn.now) (state S.Store tx.new.conn.now) result }
    ensures listed { IfErr result (IsListed (Unit {0}) (listed command.now)) }
{
    if command.is_delivery() {
        return delivered(alloc, tx, &settings.limits, now, meta, command);
    }
    Refusal::Forbidden.unless(command.is_allowed())?;
    committed(alloc, tx, settings, now, meta, command)
}

/// The command on a lent transaction. The numbers of the node are read once, and put at most once.
fn stepped<S: Alter>(
    alloc: Global,
    tx: &mut Transaction<'_, S>,
    settings: &Settings,
    now: Moment,
    command: &Command,
) -> Result<Answer, Refusal>
    requires { ends_scan command.now ≡ false }
    ensures lent { LeavesLent S.Store tx.old.conn tx.new.conn result }
    ensures makes { StepsTables (step_by settings.now now command.now) (state S.Store tx.old.conn.now) (state S.Store tx.new.conn.now) result }
    ensures refuses { RefusesAs (step_by settings.now now command.now) (state S.Store tx.old.conn.now) (state S.Store tx.new.conn.now) result }
    ensures listed { IfErr result (IsListed (Unit {0}) (listed command.now)) }
{
    let before = read_meta(tx)?;
    let mut meta = before;
    let answer = acted(alloc, tx, settings, now, &mut meta, command)?;
    after(put_changed(tx, &before, &meta), answer)
}

// The command in a transaction of its own: all of it is committed, or nothing is left of it.
fn apply_at_once<S: Alter>(
    alloc: Global,
    conn: &mut Connection<S>,
    settings: &Settings,
    now: Moment,
    command: &Command,
) -> Result<Answer, Refusal>
    requires settled { conn.old.in_transaction ≡ false }
    requires at_once { ends_scan command.now ≡ false }
    ensures whole { Commits S.Store conn.old conn.new
        (λ s. (held : State) → HoldsState held (state S.Store conn.old) → HoldsStepped (step_by settings.now now command.now) held s)
        (λ trees. (held : State) → HoldsState held (state S.Store conn.old) → LeftStepped (step_by settings.now now command.now) held trees)
        result }
    ensures makes { StepsTables (step_by settings.now now command.now) (state S.Store conn.old) (state S.Store conn.new) result }
    ensures refuses { RefusesAs (step_by settings.now now command.now) (state S.Store conn.old) (state S.Store conn.new) result }
    ensures listed { IfErr result (IsListed (Unit {0}) (listed command.now)) }
    ensures unchanged { HasCleanDisk (state S.Store conn.new) → IsTrue (state S.Store conn.new).is_open → OnErr result ((state S.Store conn.new).now ≡ (state S.Store conn.old).now) }
{
    let mut tx = begin(conn);
    let answer = stepped(alloc, &mut tx, settings, now, command)?;
    let ended = commit(tx);
    after(ended, answer)
}

/// The command: all of it is committed, or nothing is left of it. What a scan missed is read row by row, before the transaction
/// begins in which the scan is closed.
pub(crate) fn apply_in<S: Alter>(
    alloc: Global,
    conn: &mut Connection<S>,
    settings: &Settings,
    now: Moment,
    command: &Command,
) -> Result<Answer, Refusal>
    requires { conn.old.in_transaction ≡ false }
    ensures whole { Commits S.Store conn.old conn.new
        (λ s. (held : State) → HoldsState held (state S.Store conn.old) → HoldsStepped (step_by settings.now now command.now) held s)
        (λ trees. (held : State) → HoldsState held (state S.Store conn.old) → LeftStepped (step_by settings.now now command.now) held trees)
        result }
    ensures makes { StepsTables (step_by settings.now now command.now) (state S.Store conn.old) (state S.Store conn.new) result }
    ensures refuses { RefusesAs (step_by settings.now now command.now) (state S.Store conn.old) (state S.Store conn.new) result }
    ensures listed { IfErr result (IsListed (Unit {0}) (listed command.now)) }
    ensures unchanged { HasCleanDisk (state S.Store conn.new) → IsTrue (state S.Store conn.new).is_open → OnErr result ((state S.Store conn.new).now ≡ (state S.Store conn.old).now) }
{
    match command {
        Command::ScanEnd => end_scan(alloc, conn, settings, now),
        _ => apply_at_once(alloc, conn, settings, now, command),
    }
}
