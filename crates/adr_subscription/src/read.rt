//! Subscriptions, read from JSON.
ghost use Rattle.std.specs.Prelude.{◌≡◌};
ghost use Rattle.adr_text.specs.Fields.{text_of};
ghost use Rattle.adr_text.specs.Refusals.{Gives};
ghost use Rattle.adr_subscription.specs.Bounds.{bounded_in};
ghost use Rattle.adr_subscription.specs.Words.{kind_in, operation_in};
ghost use Rattle.adr_subscription.specs.Tokens.{token_in};
ghost use Rattle.adr_subscription.specs.Subscriptions.{item_in, target_in, sub_in, sub_of};

use crate::bounded::Bounded;
use crate::free_text::FreeText;
use crate::item::SubscriptionItem;
use crate::subscription::SubIn;
use crate::target::Target;
use crate::token::BearerToken;
use crate::words::{ObjectKind, OperationKind};
use adr_text::{Fault, FromJson, Refusal, all, list, maybe, needed, read_value, text};
use serde_json::Value;
use std::alloc::Global;

impl<T: FromJson, const LEAST: usize, const MOST: usize> FromJson for Bounded<T, LEAST, MOST> {
    ghost of = { bounded_in LEAST MOST T.of };

    #[tactic(auto, unfolding(crate::specs::Bounds::bounded_in))]
    fn from_json(alloc: Global, value: &Value) -> Result<Self, Fault> {
        Bounded::within(all(alloc, list(value)?)?)
    }
}

impl FromJson for FreeText {
    ghost of = { text_of };

    fn from_json(alloc: Global, value: &Value) -> Result<FreeText, Fault> {
        Ok(FreeText::new(alloc, text(value)?)?)
    }
}

impl FromJson for BearerToken {
    ghost of = { token_in };

    #[tactic(auto, unfolding(crate::specs::Tokens::token_in))]
    fn from_json(alloc: Global, value: &Value) -> Result<BearerToken, Fault> {
        BearerToken::new(alloc, text(value)?)
    }
}

impl FromJson for ObjectKind {
    ghost of = { kind_in };

    #[tactic(auto, unfolding(crate::specs::Words::kind_in))]
    fn from_json(_alloc: Global, value: &Value) -> Result<ObjectKind, Fault> {
        ObjectKind::named(text(value)?)
    }
}

impl FromJson for OperationKind {
    ghost of = { operation_in };

    #[tactic(auto, unfolding(crate::specs::Words::operation_in))]
    fn from_json(_alloc: Global, value: &Value) -> Result<OperationKind, Fault> {
        OperationKind::named(text(value)?)
    }
}

impl FromJson for SubscriptionItem {
    ghost of = { item_in };

    #[tactic(auto, unfolding(crate::specs::Subscriptions::item_in))]
    fn from_json(alloc: Global, value: &Value) -> Result<SubscriptionItem, Fault> {
        let objects = needed(alloc, value, "objects")?;
        let operations = needed(alloc, value, "operations")?;
        let callback_url = needed(alloc, value, "callbackUrl")?;
        let bearer_token = maybe(alloc, value, "bearerToken")?;
        Ok(SubscriptionItem {
            objects,
            operations,
            callback_url,
            bearer_token,
        })
    }
}

impl FromJson for Target {
    ghost of = { target_in };

    #[tactic(auto, unfolding(crate::specs::Subscriptions::target_in))]
    fn from_json(alloc: Global, value: &Value) -> Result<Target, Fault> {
        let kind = needed(alloc, value, "type")?;
        let values = needed(alloc, value, "values")?;
        Ok(Target { kind, values })
    }
}

impl FromJson for SubIn {
    ghost of = { sub_in };

    #[tactic(auto, unfolding(crate::specs::Subscriptions::sub_in))]
    fn from_json(alloc: Global, value: &Value) -> Result<SubIn, Fault> {
        let client_name = needed(alloc, value, "clientName")?;
        let program = maybe(alloc, value, "programID")?;
        let items = needed(alloc, value, "objectOperations")?;
        let targets = maybe(alloc, value, "targets")?;
        Ok(SubIn {
            client_name,
            program,
            items,
            targets,
        })
    }
}

/// The subscription that the bytes are (OpenADR 3.0, SUBSCRIPTION); `BadShape` where they are none.
#[tactic(auto, unfolding(crate::specs::Subscriptions::sub_of))]
pub fn read_sub(alloc: Global, bytes: &[u8]) -> Result<SubIn, Refusal>
    ensures { Gives (λ sub. sub) result (sub_of bytes.now) }
{
    match read_value(alloc, bytes).and_then(|value| SubIn::from_json(alloc, &value)) {
        Ok(sub) => Ok(sub),
        Err(Fault::OutOfMemory) => Err(Refusal::OutOfMemory),
        Err(_) => Err(Refusal::BadShape),
    }
}
