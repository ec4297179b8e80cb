//! Programs and events, as they are listed.
ghost use Rattle.std.specs.Prelude.{◌≡◌, IfOk};
ghost use Rattle.adr_queries.specs.Shown.{is_of, object_of, object_at, objects_seen, objects_in_sight, object_shown, told};

use crate::answer::{Answer, Object};
use crate::sight::sees;
use adr_event_text::KeptEvent;
use adr_objects::{Kind, ProgramObject, ReportObject, Stamps};
use adr_state::{Base, State, ViewKey, push_some};
use adr_text::{Refusal, Table};
use adr_view::{Content, Sight, View, row_at, view_of};
use std::alloc::{AllocError, Global};

/// Whether something of the kind stands at the key.
fn is_of(kind: Kind, key: &ViewKey) -> bool
    ensures { result ≡ is_of kind key.now }
{
    match (kind, key) {
        (Kind::Program, ViewKey::Program(_)) | (Kind::Event, ViewKey::Event(_, _)) => true,
        _ => false,
    }
}

/// What is shown at a key, as an object. A roll-up is none.
fn object_of(
    alloc: Global,
    key: &ViewKey,
    content: &Content,
    stamps: Stamps,
) -> Result<Option<Object>, AllocError>
    ensures { IfOk result (λ object. object ≡ object_of key.now content.now stamps) }
{
    match (key, content) {
        (ViewKey::Program(id), Content::Program(name)) => {
            Ok(Some(Object::Program(ProgramObject {
                id: id.clone()?,
                name: name.clone()?,
                stamps,
            })))
        }
        (ViewKey::Event(event, resource), Content::Event(shown)) => {
            let event = KeptEvent::of(alloc, *resource, event, shown, stamps)?;
            Ok(Some(Object::Event(event)))
        }
        (ViewKey::Report(number), Content::Report(body)) => {
            Ok(Some(Object::Report(ReportObject {
                number: *number,
                body: body.clone()?,
                stamps,
            })))
        }
        _ => Ok(None),
    }
}

/// The object at a key with its stamps, if it has some.
pub fn object_at(
    alloc: Global,
    stamps: &Table<ViewKey, Stamps>,
    key: &ViewKey,
    content: &Content,
) -> Result<Option<Object>, AllocError>
    ensures { IfOk result (λ object. object ≡ object_at stamps.now (key.now, content.now)) }
{
    match row_at(stamps, key) {
        Some(stamps) => object_of(alloc, key, content, *stamps),
        None => Ok(None),
    }
}

/// Of what is shown, the objects of a kind that are in sight, in the order of the keys, each with its stamps. Of
/// the base only the resources are looked at, for whose they are.
pub fn objects_seen(
    alloc: Global,
    base: &Base,
    view: &View,
    stamps: &Table<ViewKey, Stamps>,
    kind: Kind,
    sight: Sight,
) -> Result<Vec<Object>, AllocError>
    ensures { IfOk result (λ all. all.items ≡ objects_seen base.now view.now stamps.now kind sight) }
{
    let mut all = Vec::new(alloc);
    for (key, content) in view.iter() {
        if is_of(kind, key) && sees(base, sight, key) {
            push_some(&mut all, object_at(alloc, stamps, key, content)?)?;
        }
    }
    Ok(all)
}

/// The objects of a kind that are in sight, in the order of the keys.
pub(crate) fn objects_in_sight(
    alloc: Global,
    state: &State,
    kind: Kind,
    sight: Sight,
) -> Result<Vec<Object>, AllocError>
    ensures { IfOk result (λ all. all.items ≡ objects_in_sight state.now kind sight) }
{
    let view = view_of(alloc, &state.base)?;
    objects_seen(alloc, &state.base, &view, &state.stamps, kind, sight)
}

/// The object that is shown at a key, if there is one.
pub(crate) fn object_shown(
    alloc: Global,
    state: &State,
    key: &ViewKey,
) -> Result<Option<Object>, AllocError>
    ensures { IfOk result (λ object. object ≡ object_shown state.now key.now) }
{
    let view = view_of(alloc, &state.base)?;
    match row_at(&view, key) {
        Some(content) => object_at(alloc, &state.stamps, key, content),
        None => Ok(None),
    }
}

/// The answer of an object; `NotFound` where it isn't there.
pub fn told(object: Option<Object>) -> Result<Answer, Refusal>
    ensures { result ≡ told object }
{
    match object {
        Some(object) => Ok(Answer::Object(object)),
        None => Err(Refusal::NotFound),
    }
}
