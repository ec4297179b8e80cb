//! Subscriptions, written as the JSON that is kept.
ghost use Rattle.std.specs.Prelude.{map, ⊤, IsTrue};
ghost use Rattle.serde_json.specs.Data.{string};
ghost use Rattle.adr_text.specs.Objects.{array_of};
ghost use Rattle.adr_subscription.specs.Words.{kind_word, operation_word};
ghost use Rattle.adr_subscription.specs.Tokens.{is_token};
ghost use Rattle.adr_subscription.specs.Types.{AreWithin, IsItem, IsTarget, IsSub};
ghost use Rattle.adr_subscription.specs.Kept.{item_data, target_data, sub_data};

use crate::bounded::Bounded;
use crate::free_text::FreeText;
use crate::item::SubscriptionItem;
use crate::subscription::SubIn;
use crate::target::Target;
use crate::token::BearerToken;
use crate::words::{ObjectKind, OperationKind};
use adr_text::{ToJson, array, put, put_maybe};
use serde_json::{Map, Value};
use std::alloc::{AllocError, Global};

impl<T: ToJson, const LEAST: usize, const MOST: usize> ToJson for Bounded<T, LEAST, MOST> {
    ghost json = { λ items. array_of (map T.json items) };

    ghost keeps = { AreWithin LEAST MOST T.keeps };

    fn to_json(&self, alloc: Global) -> Result<Value, AllocError> {
        array(alloc, self.as_slice())
    }
}

impl ToJson for FreeText {
    ghost json = { string };

    ghost keeps = { λ _. ⊤ };

    fn to_json(&self, alloc: Global) -> Result<Value, AllocError> {
        Value::try_from_str(alloc, self.as_str())
    }
}

impl ToJson for BearerToken {
    ghost json = { string };

    ghost keeps = { λ text. IsTrue (is_token text) };

    fn to_json(&self, alloc: Global) -> Result<Value, AllocError> {
        Value::try_from_str(alloc, self.as_str())
    }
}

impl ToJson for ObjectKind {
    ghost json = { λ kind. string (kind_word kind) };

    ghost keeps = { λ _. ⊤ };

    fn to_json(&self, alloc: Global) -> Result<Value, AllocError> {
        Value::try_from_str(alloc, self.word())
    }
}

impl ToJson for OperationKind {
    ghost json = { λ operation. string (operation_word operation) };

    ghost keeps = { λ _. ⊤ };

    fn to_json(&self, alloc: Global) -> Result<Value, AllocError> {
        Value::try_from_str(alloc, self.word())
    }
}

impl ToJson for SubscriptionItem {
    ghost json = { item_data };

    ghost keeps = { IsItem };

    #[tactic(auto, unfolding(crate::specs::Kept::item_data))]
    fn to_json(&self, alloc: Global) -> Result<Value, AllocError> {
        let mut members = Map::new(alloc);
        put_maybe(&mut members, alloc, "bearerToken", &self.bearer_token)?;
        put(&mut members, alloc, "callbackUrl", &self.callback_url)?;
        put(&mut members, alloc, "objects", &self.objects)?;
        put(&mut members, alloc, "operations", &self.operations)?;
        Ok(Value::Object(members))
    }
}

impl ToJson for Target {
    ghost json = { target_data };

    ghost keeps = { IsTarget };

    #[tactic(auto, unfolding(crate::specs::Kept::target_data))]
    fn to_json(&self, alloc: Global) -> Result<Value, AllocError> {
        let mut members = Map::new(alloc);
        put(&mut members, alloc, "type", &self.kind)?;
        put(&mut members, alloc, "values", &self.values)?;
        Ok(Value::Object(members))
    }
}

impl ToJson for SubIn {
    ghost json = { sub_data };

    ghost keeps = { IsSub };

    #[tactic(auto, unfolding(crate::specs::Kept::sub_data))]
    fn to_json(&self, alloc: Global) -> Result<Value, AllocError> {
        let mut members = Map::new(alloc);
        put(&mut members, alloc, "clientName", &self.client_name)?;
        put(&mut members, alloc, "objectOperations", &self.items)?;
        put_maybe(&mut members, alloc, "programID", &self.program)?;
        put_maybe(&mut members, alloc, "targets", &self.targets)?;
        Ok(Value::Object(members))
    }
}
