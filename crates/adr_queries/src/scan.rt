//! What an open scan missed so far.
ghost use Rattle.std.specs.Prelude.{◌≡◌, ◌≢◌, Ok, Err, IfOk, IfErr};
ghost use Rattle.adr_text.specs.declared.refusal.Refusal.TheVariants.{Store};
ghost use Rattle.adr_text.specs.Refusals.{IsRefusalOf};
ghost use Rattle.adr_queries.specs.Replies.{probes_reply};

use crate::answer::Answer;
use adr_state::{Base, probes};
use adr_text::{Refusal, Rows};
use std::alloc::Global;

/// The first live keys that an open scan missed, or `NoScan`.
pub(crate) fn probes_reply(alloc: Global, base: &Base, limit: u32) -> Result<Answer, Refusal>
    ensures ok { IfOk result (λ answer. probes_reply limit base.now base.now.scan ≡ Ok answer) }
    ensures refused { IfErr result (λ refusal. IsRefusalOf refusal (probes_reply limit base.now base.now.scan)) }
    ensures no_store { result ≢ Err Store }
{
    let Some(polled) = &base.scan else {
        return Err(Refusal::NoScan);
    };
    let mut missed = probes(alloc, &base.mirror, polled)?.into_vec();
    missed.truncate(limit as usize);
    Ok(Answer::Probes(Rows::from_vec(missed)))
}
