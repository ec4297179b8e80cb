//! Subscriptions, written as JSON. A token is never written.
ghost use Rattle.std.specs.Prelude.{◌≡◌, IfOk, OnOk, string_bytes};
ghost use Rattle.serde_json.specs.View.{view, members_view};
ghost use Rattle.adr_text.specs.Objects.{add_all};
ghost use Rattle.adr_written.specs.WrittenSubs.{shown_item_data, sub_object_head, sub_object_tail, sub_object_data, sub_text};

use crate::ids::sub_id;
use crate::write_fields::{Written, compact, list_of, put_text};
use adr_subscription::{SubObject, SubscriptionItem};
use adr_text::{put, put_maybe};
use serde_json::{Map, Value};
use std::alloc::{AllocError, Global};

// What is to be told, and where it is sent.
impl Written for SubscriptionItem {
    ghost json = { shown_item_data };

    #[tactic(auto, unfolding(crate::specs::WrittenSubs::shown_item_data))]
    fn written(&self, alloc: Global) -> Result<Value, AllocError> {
        let mut members = Map::new(alloc);
        put(&mut members, alloc, "callbackUrl", &self.callback_url)?;
        put(&mut members, alloc, "objects", &self.objects)?;
        put(&mut members, alloc, "operations", &self.operations)?;
        Ok(Value::Object(members))
    }
}

// The first four members of a subscription.
fn put_head(
    members: &mut Map<String, Value>,
    alloc: Global,
    sub: &SubObject,
) -> Result<(), AllocError>
    ensures { OnOk result (members_view members.new.entries
        ≡ add_all (members_view members.old.entries) (sub_object_head sub.now)) }
{
    let id = sub_id(alloc, sub.number)?;
    put(members, alloc, "clientName", &sub.sub.client_name)?;
    put(members, alloc, "createdDateTime", &sub.stamps.created)?;
    put_text(members, alloc, "id", id.as_str())?;
    put(members, alloc, "modificationDateTime", &sub.stamps.modified)
}

// Its other members.
fn put_tail(
    members: &mut Map<String, Value>,
    alloc: Global,
    sub: &SubObject,
) -> Result<(), AllocError>
    ensures { OnOk result (members_view members.new.entries
        ≡ add_all (members_view members.old.entries) (sub_object_tail sub.now)) }
{
    let items = list_of(alloc, sub.sub.items.as_slice())?;
    serde_json::put(members, alloc, "objectOperations", items)?;
    put_text(members, alloc, "objectType", "SUBSCRIPTION")?;
    put_maybe(members, alloc, "programID", &sub.sub.program)?;
    put_maybe(members, alloc, "targets", &sub.sub.targets)
}

#[tactic(auto, unfolding(crate::specs::WrittenSubs::sub_object_data))]
fn sub_object(alloc: Global, sub: &SubObject) -> Result<Value, AllocError>
    ensures { IfOk result (λ v. view v ≡ sub_object_data sub.now) }
{
    let mut members = Map::new(alloc);
    put_head(&mut members, alloc, sub)?;
    put_tail(&mut members, alloc, sub)?;
    Ok(Value::Object(members))
}

/// The text of a subscription (OpenADR 3.0, SUBSCRIPTION), without its tokens.
#[tactic(auto, using(crate::proofs::NoFloats::sub_object_whole), unfolding(crate::specs::WrittenSubs::sub_text))]
pub fn write_sub(alloc: Global, sub: &SubObject) -> Result<String, AllocError>
    ensures { IfOk result (λ s. string_bytes s ≡ sub_text sub.now) }
{
    compact(alloc, sub_object(alloc, sub)?)
}
