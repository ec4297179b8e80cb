//! A shown event as it is told, by the text that is kept of it.
ghost use Rattle.std.specs.Prelude.{◌≡◌, IfOk, string_bytes};
ghost use Rattle.adr_event_text.specs.Kept.{kept_as, kept_event_text, kept_notice_text};

use crate::spliced::{event_text, notice_text};
use adr_objects::{Number, ShownEvent, Stamps};
use adr_shown::write_shown;
use adr_subscription::{FreeText, OperationKind};
use adr_text::{Name, ObjectId};
use std::alloc::{AllocError, Global};

/// A shown event with its id's two parts and its stamps, and the text that is kept of it, which is told as it is; what it is
/// looked for by stands beside that.
pub struct KeptEvent {
    pub resource: Number,
    /// The id of the upstream event.
    pub event: ObjectId,
    pub program: ObjectId,
    pub ven_name: Name,
    pub resource_name: Name,
    pub stamps: Stamps,
    /// The event as it is written, without its id and its stamps.
    pub body: FreeText,
}

impl Drop for KeptEvent {
    fn drop(self) {
        let KeptEvent {
            resource: _,
            event: _,
            program: _,
            ven_name: _,
            resource_name: _,
            stamps: _,
            body: _,
        } = self;
    }
}

impl KeptEvent {
    /// What is shown of an event, as it is kept.
    pub fn of(
        alloc: Global,
        resource: Number,
        event: &ObjectId,
        shown: &ShownEvent,
        stamps: Stamps,
    ) -> Result<KeptEvent, AllocError>
        ensures { IfOk result (λ kept. kept ≡ kept_as resource event.now shown.now stamps) }
    {
        let body = write_shown(alloc, shown)?;
        Ok(KeptEvent {
            resource,
            event: event.copy(alloc)?,
            program: shown.program.copy(alloc)?,
            ven_name: shown.ven_name.clone()?,
            resource_name: shown.resource_name.clone()?,
            stamps,
            body: FreeText::new(alloc, body.as_str())?,
        })
    }

    /// The text of the event (OpenADR 3.0, EVENT).
    pub fn text(&self, alloc: Global) -> Result<String, AllocError>
        ensures { IfOk result (λ text. string_bytes text ≡ kept_event_text self.now) }
    {
        let body = self.body.as_str();
        event_text(alloc, self.resource, &self.event, &self.stamps, body)
    }

    /// The text of what was done to the event (OpenADR 3.0, notification).
    pub fn notice_text(&self, alloc: Global, operation: OperationKind) -> Result<String, AllocError>
        ensures { IfOk result (λ text. string_bytes text ≡ kept_notice_text operation self.now) }
    {
        notice_text(alloc, operation, self.text(alloc)?.as_str())
    }
}
