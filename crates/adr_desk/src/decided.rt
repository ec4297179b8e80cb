//! What a command decides, carried out on the tables, on a lent transaction.
ghost use Rattle.std.specs.Prelude.{◌≡◌, false, IfOk, IfErr};
ghost use Rattle.adr_sql.specs.Calls.{LeavesLent};
ghost use Rattle.adr_machine.specs.Edits.{decided};
ghost use Rattle.adr_queries.specs.Listed.{IsListed};
ghost use Rattle.adr_machine.specs.Listed.{listed};
ghost use Rattle.adr_desk.specs.Asking.{ends_scan};
ghost use Rattle.adr_desk.specs.Decisions.{CarriesOut, IsAnswered};

use crate::evidence;
use crate::reports::{report_delete, report_post, report_put};
use crate::sites::{self, along};
use crate::subs::{sub_delete, sub_post, sub_put};
use adr_db::Meta;
use adr_machine::told::done;
use adr_machine::{Command, Outcome};
use adr_mirror::scan_begin;
use adr_objects::Number;
use adr_state::Limits;
use adr_text::{Moment, Refusal};
use adr_touched::Touched;
use sqlite::{Alter, Transaction};
use std::alloc::Global;

/// What the command decides, where that is the next number, what comes of it, and what it touched. The numbers of the node are
/// handed in, and are left as they have to be put; a number that is drawn is not drawn yet. The end of a scan is decided by what
/// was read before its transaction, and not here.
pub(crate) fn carry_out<S: Alter>(
    alloc: Global,
    tx: &mut Transaction<'_, S>,
    limits: &Limits,
    now: Moment,
    number: Number,
    meta: &mut Meta,
    command: &Command,
) -> Result<(Outcome, Touched), Refusal>
    requires { ends_scan command.now ≡ false }
    ensures lent { LeavesLent S.Store tx.old.conn tx.new.conn result }
    ensures carries { CarriesOut S.Store tx.old.conn.now tx.new.conn.now (λ base. decided limits.now now number base command.now) meta.old meta.new result }
    ensures answered { IfOk result (λ r. IsAnswered command.now r.0) }
    ensures listed { IfErr result (IsListed (Unit {0}) (listed command.now)) }
{
    match command {
        Command::Evidence { found, polled } => evidence::found(
            alloc,
            tx,
            limits,
            meta,
            found.as_slice(),
            *polled,
        ),
        Command::Gone { kind, id } => evidence::deleted(alloc, tx, limits, meta, *kind, id),
        Command::ScanBegin => along(done(scan_begin(tx, meta)), Touched::none(alloc)),
        Command::ScanEnd => unreachable!(),
        Command::VenAdd { ven, .. } => sites::ven_add(alloc, tx, limits, meta, now, number, ven),
        Command::VenPut { id, ven, .. } => sites::ven_put(alloc, tx, meta, now, id, ven),
        Command::VenRemove { id, .. } => sites::ven_remove(alloc, tx, meta, id),
        Command::ResourceAdd { ven, resource, .. } => {
            sites::resource_add(alloc, tx, limits, meta, now, number, ven, resource)
        }
        Command::ResourcePut {
            ven,
            id,
            resource,
            ..
        } => sites::resource_put(alloc, tx, meta, now, ven, id, resource),
        Command::ResourceRemove { ven, id, .. } => sites::resource_remove(alloc, tx, meta, ven, id),
        Command::ShareSet {
            program,
            resource,
            share,
            ..
        } => sites::share_set(alloc, tx, limits, meta, program, resource, share),
        Command::Freeze { event, .. } => sites::freeze(alloc, tx, limits, meta, event),
        Command::ReportPost { role, report } => {
            report_post(alloc, tx, limits, meta, number, role, report)
        }
        Command::ReportPut { role, id, report } => report_put(
            alloc, tx, meta, number, role, id, report,
        ),
        Command::ReportDelete { role, id } => report_delete(alloc, tx, meta, role, id),
        Command::SubPost { role, sub } => sub_post(alloc, tx, limits, meta, now, number, role, sub),
        Command::SubPut { role, id, sub } => sub_put(alloc, tx, meta, now, role, id, sub),
        Command::SubDelete { role, id } => sub_delete(alloc, tx, meta, role, id),
        // what is about an entry leaves the base
        Command::Lease | Command::Sent { .. } | Command::Failed { .. } => {
            along(done(Ok(())), Touched::none(alloc))
        }
    }
}
