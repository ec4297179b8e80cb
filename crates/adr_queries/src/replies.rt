//! Replies to queries.
ghost use Rattle.std.specs.Prelude.{◌≡◌, ◌≢◌, Ok, Err, IfOk, IfErr};
ghost use Rattle.adr_text.specs.declared.refusal.Refusal.TheVariants.{Store};
ghost use Rattle.adr_text.specs.Refusals.{IsRefusalOf};
ghost use Rattle.adr_queries.specs.Replies.{reply};

use crate::answer::Answer;
use crate::event::{event_reply, events_reply};
use crate::frozen::frozen_reply;
use crate::program::{program_reply, programs_reply};
use crate::query::Query;
use crate::reported::{report_reply, reports_reply, rollup_reply};
use crate::resource::{resource_reply, resources_reply};
use crate::scan::probes_reply;
use crate::share::shares_reply;
use crate::subscribed::{outbox_reply, sub_reply, subs_reply};
use crate::ven::{ven_reply, vens_reply};
use adr_state::State;
use adr_text::Refusal;
use std::alloc::Global;

/// The reply to a query.
#[tactic(auto, unfolding(crate::specs::Replies::reply))]
pub fn reply(alloc: Global, state: &State, query: &Query) -> Result<Answer, Refusal>
    ensures ok { IfOk result (λ answer. reply state.now query.now ≡ Ok answer) }
    ensures refused { IfErr result (λ refusal. IsRefusalOf refusal (reply state.now query.now)) }
    ensures no_store { result ≢ Err Store }
{
    match query {
        Query::Programs { role, page } => programs_reply(alloc, state, role, *page),
        Query::Program { role, id } => program_reply(alloc, state, role, id),
        Query::Events { role, filter, page } => events_reply(alloc, state, role, filter, *page),
        Query::Event { role, id } => event_reply(alloc, state, role, id),
        Query::Vens { role, page } => vens_reply(alloc, &state.base, role, *page),
        Query::Ven { role, id } => ven_reply(&state.base, role, id),
        Query::Resources { role, ven, page } => {
            resources_reply(alloc, &state.base, role, ven, *page)
        }
        Query::Resource { role, ven, id } => resource_reply(&state.base, role, ven, id),
        Query::Shares { role, program } => shares_reply(alloc, &state.base, role, program),
        Query::Frozen { role, event } => frozen_reply(alloc, &state.base, role, event),
        Query::Reports { role, filter, page } => reports_reply(alloc, state, role, filter, *page),
        Query::Report { role, id } => report_reply(state, role, id),
        Query::Rollup { role, event } => rollup_reply(alloc, &state.base, role, event),
        Query::Subs { role, filter, page } => {
            subs_reply(alloc, &state.base, role, filter, *page)
        }
        Query::Sub { role, id } => sub_reply(&state.base, role, id),
        Query::Outbox { role } => outbox_reply(&state.outbox, role),
        Query::Probes { limit } => probes_reply(alloc, &state.base, *limit),
    }
}
