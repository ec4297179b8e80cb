//! A job of the outbox: it is sent, outside the lock, and settled under it.
ghost use Rattle.std.specs.Prelude.{◌≡◌, ◌↔◌, [], ◌∷◌, IfOk, IfErr, IsTrue};
ghost use Rattle.adr_text.specs.Refusals.{Fails};
ghost use Rattle.adr_link.specs.Targets.{job_bytes};
ghost use Rattle.adr_lock.specs.Halting.{by_store, EndsByStore};
ghost use Rattle.adr_work.specs.Rounds.{Asks};
ghost use Rattle.adr_work.specs.Deliveries.{IsCalleeOf, IsRequestOf, MayCall, IsSent, Delivers, outcome_in};

use crate::gate::Gate;
use crate::message_log::tell_message;
use crate::peers::Peers;
use crate::request::{Callee, Request};
use crate::send_fault::SendFault;
use crate::settlement::settlement_of;
use adr_book::{Office, Pass, Trail};
use adr_delivery::Job;
use adr_link::{Outcome, Upstream, is_for_utility, outcome_of};
use adr_lock::{Call, Clock, Steps, take_under_lock};
use adr_log::Stopwatch;
use adr_machine::{Answer, Desk};
use adr_network::Networks;
use adr_text::{Refusal, Rows};
use log::Log;
use std::alloc::{AllocError, Global};
use std::sync::Wait;
use std::sync::ledger::Ledger;
use std::time;

/// Whom a job goes to: a report to the utility, and a notification to the endpoint of its address.
#[tactic(auto, using(crate::proofs::Delivering::endpoint_fails))]
fn callee_of(alloc: Global, upstream: &Upstream, job: &Job) -> Result<Callee, Refusal>
    ensures callee { IfOk result (IsCalleeOf upstream.now job.now) }
    ensures refused { IfErr result (λ refusal. Fails refusal (job_bytes upstream.now job.now)) }
{
    if is_for_utility(job) {
        return Ok(Callee::Utility);
    }
    Ok(Callee::Callback(upstream.job_endpoint(alloc, job)?))
}

/// The request of a job, where it has one.
fn request_of(alloc: Global, upstream: &Upstream, job: &Job) -> Result<Request, Refusal>
    ensures request { IfOk result (IsRequestOf upstream.now job.now) }
    ensures refused { IfErr result (λ refusal. Fails refusal (job_bytes upstream.now job.now)) }
{
    let to = callee_of(alloc, upstream, job)?;
    let bytes = Rows::from_vec(upstream.job_request(alloc, job)?);
    Ok(Request { to, bytes })
}

/// Whether the node may call: the utility in any case, and else an endpoint in these networks.
fn may_call(alloc: Global, networks: &Networks, callee: &Callee) -> Result<bool, AllocError>
    ensures { IfOk result (λ may. IsTrue may ↔ MayCall networks.now callee.now) }
{
    match callee {
        Callee::Utility => Ok(true),
        Callee::Callback(endpoint) => networks.allow_endpoint(alloc, endpoint.as_str()),
    }
}

/// Sends a job by its request, once, where that may be, and tells what came of it. It is refused where it has no request,
/// where its address may not be called, and where memory is wanting.
#[tactic(auto, using(crate::proofs::Delivering::sent_not, crate::proofs::Delivering::sent_once))]
pub fn send<G: Gate>(
    alloc: Global,
    gate: &mut G,
    peers: &Peers,
    job: &Job,
) -> Result<Outcome, SendFault>
    ensures { Asks (G.exchanges gate.old) (G.exchanges gate.new) (IsSent peers.now job.now result) }
{
    let request = request_of(alloc, &peers.upstream, job)?;
    if !may_call(alloc, &peers.callbacks, &request.to)? {
        return Err(SendFault::NotAllowed);
    }
    let came = gate.ask(&request);
    Ok(outcome_of(alloc, job, &came)?)
}

/// What a job is settled by: it failed where nothing is told of it, and the next lease sends it again.
fn outcome_in(sent: Result<Outcome, SendFault>) -> Outcome
    ensures { result ≡ outcome_in sent }
{
    match sent {
        Ok(outcome) => outcome,
        Err(_) => Outcome::Failed { forget: false },
    }
}

/// Sends a job outside the lock, and then settles it by one step under it; and hands back what came of that. Where the
/// settlement is refused, the lease expires.
pub(crate) fn deliver<
    D: Desk + Drop,
    T: Trail<D>,
    L: Ledger,
    G: Gate,
    C: Clock,
    R: Wait + time::Clock + Log,
>(
    rt: &R,
    alloc: Global,
    office: &Office<D, T, L>,
    gate: &mut G,
    peers: &Peers,
    clock: &C,
    pass: &mut Pass<L>,
    steps: &mut Steps,
    job: &Job,
) -> Result<Answer, Refusal>
    ensures delivers { Delivers peers.now (job.now ∷ []) (G.exchanges gate.old) (G.exchanges gate.new) steps.old.items steps.new.items }
    ensures ends { EndsByStore (by_store result) steps.old.items steps.new.items }
{
    let begun = Stopwatch::start(rt);
    let sent = send(alloc, gate, peers, job);
    tell_message(rt, job, gate.account(), &sent, begun);
    let outcome = outcome_in(sent);
    let command = settlement_of(job, outcome);
    take_under_lock(rt, office, clock, pass, steps, Call::Step(&command))
}
