//! The text of a shown event, made of what is kept of it.
ghost use Rattle.std.specs.Prelude.{◌≡◌, ◌++◌, IfOk, string_bytes};
ghost use Rattle.adr_event_text.specs.Pieces.{member_text, spliced, told_text, notice_text};

use crate::pieces::{Pieces, pieces_of};
use adr_objects::{Number, Stamps};
use adr_subscription::OperationKind;
use adr_text::ObjectId;
use adr_written::shown_id;
use json::Writer;
use std::alloc::{AllocError, Global};

// How many bytes an id, two stamps and their names have beside what is kept, at most, where the event's id has 128.
const MORE: usize = 320;

/// The bytes with one member more, whose name is given with what stands before it, its quotes and its colon.
fn with_member(bytes: Vec<u8>, name: &[u8], text: &str) -> Result<Vec<u8>, AllocError>
    ensures { IfOk result (λ all. all.items ≡ bytes.items ++ member_text name.now text.now) }
{
    let mut bytes = bytes;
    bytes.extend_from_slice(name)?;
    let mut writer = Writer::new(bytes);
    writer.string(text)?;
    Ok(writer.into_inner())
}

/// The pieces with the members that stand between them.
#[tactic(auto, unfolding(crate::specs::Pieces::spliced))]
fn spliced(
    alloc: Global,
    created: &str,
    id: &str,
    modified: &str,
    kept: &[u8],
) -> Result<Vec<u8>, AllocError>
    ensures { IfOk result (λ all. all.items ≡ spliced created.now id.now modified.now kept.now) }
{
    let Pieces { name, middle, tail } = pieces_of(kept);
    let bytes = Vec::with_capacity(alloc, kept.len().saturating_add(MORE))?;
    let mut bytes = with_member(bytes, b"{\"createdDateTime\":", created)?;
    bytes.extend_from_slice(b",")?;
    bytes.extend_from_slice(name)?;
    let mut bytes = with_member(bytes, b"\"id\":", id)?;
    bytes.extend_from_slice(b",")?;
    bytes.extend_from_slice(middle)?;
    let mut bytes = with_member(bytes, b",\"modificationDateTime\":", modified)?;
    bytes.extend_from_slice(tail)?;
    Ok(bytes)
}

/// The bytes as a text. No clause says that pieces of a text are UTF-8, so they are looked at once more. Those of what
/// is kept of an event are (`kept_events_are_told_as_written`), so what stands here for others is never told.
fn text_of(bytes: Vec<u8>) -> Result<String, AllocError>
    ensures { IfOk result (λ text. string_bytes text ≡ bytes.items) }
{
    match String::from_utf8(bytes) {
        Ok(text) => Ok(text),
        Err(_) => Err(AllocError),
    }
}

/// The text of a shown event, of the one that is kept of it, with its id and its stamps.
pub(crate) fn event_text(
    alloc: Global,
    resource: Number,
    event: &ObjectId,
    stamps: &Stamps,
    kept: &str,
) -> Result<String, AllocError>
    ensures { IfOk result (λ text. string_bytes text ≡ told_text resource event.now stamps.now kept.now) }
{
    let id = shown_id(alloc, resource, event)?;
    let created = stamps.created.text(alloc)?;
    let modified = stamps.modified.text(alloc)?;
    let bytes = spliced(
        alloc,
        created.as_str(),
        id.as_str(),
        modified.as_str(),
        kept.as_bytes(),
    )?;
    text_of(bytes)
}

/// What was done to an event of that text, in bytes.
#[tactic(auto, unfolding(crate::specs::Pieces::notice_text))]
fn notice_bytes(alloc: Global, operation: OperationKind, event: &str) -> Result<Vec<u8>, AllocError>
    ensures { IfOk result (λ all. all.items ≡ notice_text operation event.now) }
{
    let mut bytes = Vec::with_capacity(alloc, event.len().saturating_add(MORE))?;
    bytes.extend_from_slice(b"{\"object\":")?;
    bytes.extend_from_slice(event.as_bytes())?;
    bytes.extend_from_slice(b",\"objectType\":\"EVENT\"")?;
    let mut bytes = with_member(bytes, b",\"operation\":", operation.word())?;
    bytes.extend_from_slice(b"}")?;
    Ok(bytes)
}

/// The text of what was done to an event of that text.
pub(crate) fn notice_text(
    alloc: Global,
    operation: OperationKind,
    event: &str,
) -> Result<String, AllocError>
    ensures { IfOk result (λ text. string_bytes text ≡ notice_text operation event.now) }
{
    text_of(notice_bytes(alloc, operation, event)?)
}
