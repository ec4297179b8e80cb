//! What a command decides, carried out on the base. After a refusal the base is left anyhow.
ghost use Rattle.std.specs.Prelude.{◌≡◌, ◌≢◌, Ok, Err, IfOk, IfErr};
ghost use Rattle.adr_text.specs.declared.refusal.Refusal.TheVariants.{Store};
ghost use Rattle.adr_text.specs.Refusals.{IsRefusalOf};
ghost use Rattle.adr_queries.specs.declared.answer.Answer.TheVariants as answer;
ghost use Rattle.adr_state.specs.Evidence.{scan_begin};
ghost use Rattle.adr_view.specs.Frozen.{freeze};
ghost use Rattle.adr_machine.specs.Edits.{answered, of_portfolio, frozen_outcome, post_decided, put_decided, delete_decided, decided, carried_out_on};

use crate::command::Command;
use crate::outcome::Outcome;
use crate::subscribe::{resubscribed, subscribed, unsubscribed};
use crate::told::{counted, of_report, of_report_gone, of_resource, of_scan, of_share, of_ven};
use adr_edits::{
    begin_scan, end_scan, freeze, report_delete, report_post, report_put, resource_add,
    resource_put, resource_remove, share_set, take_deletion, take_evidence, ven_add, ven_put,
    ven_remove,
};
use adr_objects::{Number, ReportIn};
use adr_queries::{Answer, Role, frozen_object, sight_of};
use adr_state::{Base, Limits};
use adr_text::{Moment, ObjectId, Refusal};
use std::alloc::Global;

fn begun(alloc: Global, base: &mut Base) -> Outcome
    ensures { carried_out_on base.old (Ok (answered answer.Done scan_begin)) ≡ Ok (result, base.new) }
{
    begin_scan(alloc, base);
    Outcome::Told(Answer::Done)
}

/// The event of an id is frozen.
fn frozen(
    alloc: Global,
    limits: &Limits,
    base: &mut Base,
    event: &ObjectId,
) -> Result<Outcome, Refusal>
    ensures ok { IfOk result (λ comes. carried_out_on base.old (of_portfolio (frozen_outcome event.now) (freeze limits.now event.now base.old.mirror base.old.portfolio)) ≡ Ok (comes, base.new)) }
    ensures refused { IfErr result (λ refusal. IsRefusalOf refusal (of_portfolio (frozen_outcome event.now) (freeze limits.now event.now base.old.mirror base.old.portfolio))) }
    ensures no_store { result ≢ Err Store }
{
    let pairs = freeze(alloc, limits, &base.mirror, &mut base.portfolio, event)?;
    let object = frozen_object(alloc, event, pairs.as_slice())?;
    Ok(Outcome::Told(Answer::Frozen(object)))
}

/// A new report of who has the role.
fn posted(
    alloc: Global,
    limits: &Limits,
    number: Number,
    base: &mut Base,
    role: &Role,
    report: &ReportIn,
) -> Result<Outcome, Refusal>
    ensures ok { IfOk result (λ comes. carried_out_on base.old (post_decided limits.now number role.now report.now base.old) ≡ Ok (comes, base.new)) }
    ensures refused { IfErr result (λ refusal. IsRefusalOf refusal (post_decided limits.now number role.now report.now base.old)) }
    ensures no_store { result ≢ Err Store }
{
    let sight = sight_of(base, role)?;
    of_report(report_post(
        alloc,
        limits,
        sight,
        number,
        &base.mirror,
        &mut base.portfolio,
        report,
    ))
}

/// The report of an id is replaced by who has the role.
fn put_again(
    alloc: Global,
    revision: Number,
    base: &mut Base,
    role: &Role,
    id: &ObjectId,
    report: &ReportIn,
) -> Result<Outcome, Refusal>
    ensures ok { IfOk result (λ comes. carried_out_on base.old (put_decided revision role.now id.now report.now base.old) ≡ Ok (comes, base.new)) }
    ensures refused { IfErr result (λ refusal. IsRefusalOf refusal (put_decided revision role.now id.now report.now base.old)) }
    ensures no_store { result ≢ Err Store }
{
    let sight = sight_of(base, role)?;
    of_report(report_put(
        alloc,
        sight,
        revision,
        id,
        &base.mirror,
        &mut base.portfolio,
        report,
    ))
}

/// The report of an id is removed by who has the role.
fn removed(base: &mut Base, role: &Role, id: &ObjectId) -> Result<Outcome, Refusal>
    ensures ok { IfOk result (λ comes. carried_out_on base.old (delete_decided role.now id.now base.old) ≡ Ok (comes, base.new)) }
    ensures refused { IfErr result (λ refusal. IsRefusalOf refusal (delete_decided role.now id.now base.old)) }
    ensures no_store { result ≢ Err Store }
{
    let sight = sight_of(base, role)?;
    of_report_gone(report_delete(sight, id, &mut base.portfolio))
}

/// What the command decides, where that is the next number, and what comes of it.
pub(crate) fn carry_out(
    alloc: Global,
    limits: &Limits,
    now: Moment,
    number: Number,
    base: &mut Base,
    command: &Command,
) -> Result<Outcome, Refusal>
    ensures ok { IfOk result (λ comes. carried_out_on base.old (decided limits.now now number base.old command.now) ≡ Ok (comes, base.new)) }
    ensures refused { IfErr result (λ refusal. IsRefusalOf refusal (decided limits.now now number base.old command.now)) }
    ensures no_store { result ≢ Err Store }
{
    // Each arm ends in the call that carries its clauses, so each has goals of its own.
    match command {
        Command::Evidence { found, polled } => {
            counted(take_evidence(alloc, limits, base, found.as_slice(), *polled))
        }
        Command::Gone { kind, id } => counted(take_deletion(alloc, limits, base, *kind, id)),
        Command::ScanBegin => Ok(begun(alloc, base)),
        Command::ScanEnd => of_scan(end_scan(alloc, base)),
        Command::VenAdd { ven, .. } => {
            of_ven(ven_add(limits, now, number, &mut base.portfolio, &ven.name))
        }
        Command::VenPut { id, ven, .. } => {
            of_ven(ven_put(now, &mut base.portfolio, id, &ven.name))
        }
        Command::VenRemove { id, .. } => of_ven(ven_remove(&mut base.portfolio, id)),
        Command::ResourceAdd { ven, resource, .. } => of_resource(resource_add(
            limits,
            now,
            number,
            &mut base.portfolio,
            ven,
            &resource.name,
        )),
        Command::ResourcePut {
            ven,
            id,
            resource,
            ..
        } => of_resource(resource_put(now, &mut base.portfolio, ven, id, &resource.name)),
        Command::ResourceRemove { ven, id, .. } => {
            of_resource(resource_remove(&mut base.portfolio, ven, id))
        }
        Command::ShareSet {
            program,
            resource,
            share,
            ..
        } => of_share(share_set(limits, &mut base.portfolio, program, resource, share.share)),
        Command::Freeze { event, .. } => frozen(alloc, limits, base, event),
        Command::ReportPost { role, report } => posted(alloc, limits, number, base, role, report),
        Command::ReportPut { role, id, report } => put_again(alloc, number, base, role, id, report),
        Command::ReportDelete { role, id } => removed(base, role, id),
        Command::SubPost { role, sub } => subscribed(alloc, limits, now, number, base, role, sub),
        Command::SubPut { role, id, sub } => resubscribed(alloc, now, base, role, id, sub),
        Command::SubDelete { role, id } => unsubscribed(base, role, id),
        Command::Lease | Command::Sent { .. } | Command::Failed { .. } => {
            Ok(Outcome::Told(Answer::Done))
        }
    }
}
