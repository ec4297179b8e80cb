//! Notifications of the utility, read from JSON.
ghost use Rattle.std.specs.Prelude.{◌≡◌};
ghost use Rattle.serde_json.specs.View.{view};
ghost use Rattle.adr_text.specs.Faults.{Finds};
ghost use Rattle.adr_text.specs.Refusals.{Gives};
ghost use Rattle.adr_schema.specs.Notices.{is_operation, operation_in, object_in, kind_named, gone_in, version_in, told_of, notice_in, notice_of};

use crate::notice::NoticeIn;
use crate::read_site::told;
use crate::read_typed::text_at;
use crate::read_version::{found, upstream_id};
use adr_objects::Kind;
use adr_text::{Fault, Refusal, member, read_value};
use serde_json::Value;
use std::alloc::Global;

fn is_operation(text: &str) -> bool
    ensures { result ≡ is_operation text.now }
{
    text == "GET" || text == "POST" || text == "PUT" || text == "DELETE"
}

// The word for what was done to the object.
fn operation(value: &Value) -> Result<&str, Fault>
    ensures { Finds (λ t. t.now) result (operation_in (view value.now)) }
{
    let text = text_at(value, "operation")?;
    if !is_operation(text) {
        return Err(Fault::BadShape);
    }
    Ok(text)
}

// The object that it is about.
fn object(value: &Value) -> Result<&Value, Fault>
    ensures { Finds (λ v. view v.now) result (object_in (view value.now)) }
{
    match member(value, "object") {
        Some(found) => if found.is_object() {
            Ok(found)
        } else {
            Err(Fault::BadShape)
        },
        None => Err(Fault::BadShape),
    }
}

// The kind that an `objectType` names, of those that are mirrored.
fn kind_named(text: &str) -> Option<Kind>
    ensures { result ≡ kind_named text.now }
{
    if text == "PROGRAM" {
        Some(Kind::Program)
    } else if text == "EVENT" {
        Some(Kind::Event)
    } else {
        None
    }
}

fn gone(alloc: Global, kind: Kind, object: &Value) -> Result<NoticeIn, Fault>
    ensures { Finds (λ n. n) result (gone_in kind (view object.now)) }
{
    let id = upstream_id(alloc, object)?;
    Ok(NoticeIn::Gone { kind, id })
}

fn version(alloc: Global, kind: Kind, object: &Value) -> Result<NoticeIn, Fault>
    ensures { Finds (λ n. n) result (version_in kind (view object.now)) }
{
    Ok(NoticeIn::Found(found(alloc, kind, object)?))
}

// What it tells of the object.
fn told_of(
    alloc: Global,
    kind: Option<Kind>,
    operation: &str,
    object: &Value,
) -> Result<NoticeIn, Fault>
    ensures { Finds (λ n. n) result (told_of kind operation.now (view object.now)) }
{
    match kind {
        Some(kind) => if operation == "DELETE" {
            gone(alloc, kind, object)
        } else {
            version(alloc, kind, object)
        },
        None => Ok(NoticeIn::Ignored),
    }
}

#[tactic(auto, unfolding(crate::specs::Notices::notice_in))]
fn notice(alloc: Global, value: &Value) -> Result<NoticeIn, Fault>
    ensures { Finds (λ n. n) result (notice_in (view value.now)) }
{
    let kind = kind_named(text_at(value, "objectType")?);
    let operation = operation(value)?;
    told_of(alloc, kind, operation, object(value)?)
}

/// What the notification that the bytes are tells (OpenADR 3.0, notification): for a program or an
/// event, that it is gone (`DELETE`) or a version of it (`GET`, `POST`, `PUT`); of another kind of
/// object nothing. `BadShape` where the bytes are no notification, or its object has no id of at most
/// 100 bytes or, unless it is gone, no moment.
#[tactic(auto, using(crate::proofs::Refusals::told_gives), unfolding(crate::specs::Notices::notice_of))]
pub fn read_notice(alloc: Global, bytes: &[u8]) -> Result<NoticeIn, Refusal>
    ensures { Gives (λ n. n) result (notice_of bytes.now) }
{
    told(read_value(alloc, bytes).and_then(|value| notice(alloc, &value)))
}
