//! Who tells changes: to the subscriptions that match, and to the utility.
ghost use Rattle.std.specs.Prelude.{◌≡◌, Some, IfOk};
ghost use Rattle.adr_view.specs.declared.view.Content.TheVariants as content;
ghost use Rattle.adr_event_text.specs.Kept.{kept_as};
ghost use Rattle.adr_notices.specs.Notices.{operation_kind, program_notice};
ghost use Rattle.adr_kept_view.specs.declared.object.ObjectKey.TheVariants as object;
ghost use Rattle.adr_told.specs.Told.{shown_notice, shown_entries, rollup_entries, noticed, object_entries};

use adr_delivery::Entry;
use adr_event_text::KeptEvent;
use adr_kept_view::{ObjectChange, ObjectKey, OldObject, RollupChange, ShownChange};
use adr_listeners::Hearers;
use adr_notices::{EventNames, Notice, entries_of, operation_kind, rollup_entry};
use adr_objects::{Number, ProgramObject, ReportBody, ReportObject};
use adr_subscription::{FreeText, ObjectKind, Sub};
use adr_text::{Name, ObjectId, Table};
use adr_view::Content;
use adr_visit::Tells;
use adr_written::{write_program_notice, write_report_notice};
use std::alloc::{AllocError, Global};
use std::marker::Model;

/// The node's name, under which a roll-up is told to the utility.
#[derive(Drop)]
pub struct Teller<'t> {
    client: &'t Name,
}

impl<'t> Model for Teller<'t> {
    ghost use Rattle.std.specs.Prelude.{ℕ, List};

    ghost Value = { List ℕ };

    ghost view = { λ t. t.client.now };
}

impl<'t> Teller<'t> {
    /// Who tells under that name.
    pub fn new(client: &'t Name) -> Teller<'t>
        ensures { result ≡ client.now }
    {
        Teller { client }
    }
}

// What a resource is shown, or was where it goes, as it is kept.
fn kept_of(alloc: Global, event: &ObjectId, change: &ShownChange) -> Result<KeptEvent, AllocError>
    ensures { IfOk result (λ kept. kept ≡ kept_as change.now.resource event.now change.now.shown change.now.stamps) }
{
    KeptEvent::of(alloc, change.resource, event, &change.shown, change.stamps)
}

// What is told of a change of what a resource is shown.
fn notice_of(alloc: Global, event: &ObjectId, change: &ShownChange) -> Result<Notice, AllocError>
    ensures { IfOk result (λ notice. notice ≡ shown_notice event.now change.now) }
{
    let operation = operation_kind(change.operation);
    let text = kept_of(alloc, event, change)?.notice_text(alloc, operation)?;
    Ok(Notice {
        kind: ObjectKind::Event,
        operation,
        program: change.shown.program.copy(alloc)?,
        ven: Some(change.ven),
        names: Some(EventNames {
            ven_name: change.shown.ven_name.copy(alloc)?,
            resource_name: change.shown.resource_name.copy(alloc)?,
        }),
        body: FreeText::new(alloc, text.as_str())?,
    })
}

impl Tells<ObjectId, ShownChange> for Teller<'_> {
    ghost told = { λ client subs id c. shown_entries subs id c };

    fn hearers(&self, change: &ShownChange) -> Hearers {
        Hearers::Of(change.ven)
    }

    fn entries(
        &self,
        alloc: Global,
        subs: &Table<Number, Sub>,
        event: &ObjectId,
        change: &ShownChange,
    ) -> Result<Vec<Entry>, AllocError> {
        let notice = notice_of(alloc, event, change)?;
        entries_of(alloc, subs, &notice)
    }
}

impl Tells<ObjectId, RollupChange> for Teller<'_> {
    ghost told = { λ client subs id c. rollup_entries client id c };

    fn hearers(&self, _change: &RollupChange) -> Hearers {
        Hearers::Nobody
    }

    fn entries(
        &self,
        alloc: Global,
        _subs: &Table<Number, Sub>,
        event: &ObjectId,
        change: &RollupChange,
    ) -> Result<Vec<Entry>, AllocError> {
        let entry = rollup_entry(alloc, self.client, change.operation, event, &change.rollup)?;
        Ok(vec![in alloc; entry]?)
    }
}

// What is told of a program.
fn program_notice(
    alloc: Global,
    id: &ObjectId,
    name: &Name,
    change: &ObjectChange,
) -> Result<Notice, AllocError>
    ensures { IfOk result (λ notice. notice ≡ program_notice (operation_kind change.now.operation) (record { id = id.now; name = name.now; stamps = change.now.stamps })) }
{
    let operation = operation_kind(change.operation);
    let object = ProgramObject {
        id: id.copy(alloc)?,
        name: name.clone()?,
        stamps: change.stamps,
    };
    let text = write_program_notice(alloc, operation, &object)?;
    Ok(Notice {
        kind: ObjectKind::Program,
        operation,
        program: id.copy(alloc)?,
        ven: None,
        names: None,
        body: FreeText::new(alloc, text.as_str())?,
    })
}

// What is told of a report, which is of the ven of the change.
fn report_notice(
    alloc: Global,
    number: Number,
    body: &ReportBody,
    change: &ObjectChange,
) -> Result<Notice, AllocError>
    ensures { IfOk result (λ notice. Some notice ≡ noticed (object.Report number) (operation_kind change.now.operation) change.now.ven change.now.stamps (content.Report body.now)) }
{
    let operation = operation_kind(change.operation);
    let object = ReportObject {
        number,
        body: body.clone()?,
        stamps: change.stamps,
    };
    let text = write_report_notice(alloc, operation, &object)?;
    Ok(Notice {
        kind: ObjectKind::Report,
        operation,
        program: body.head.program.copy(alloc)?,
        ven: change.ven,
        names: None,
        body: FreeText::new(alloc, text.as_str())?,
    })
}

// What is told of a change of a program or of a report.
fn object_notice(
    alloc: Global,
    key: &ObjectKey,
    change: &ObjectChange,
) -> Result<Option<Notice>, AllocError>
    ensures { IfOk result (λ notice. notice ≡ noticed key.now (operation_kind change.now.operation) change.now.ven change.now.stamps change.now.content) }
{
    match (key, &change.content) {
        (ObjectKey::Program(id), Content::Program(name)) => {
            Ok(Some(program_notice(alloc, id, name, change)?))
        }
        (ObjectKey::Report(number), Content::Report(body)) => {
            Ok(Some(report_notice(alloc, *number, body, change)?))
        }
        _ => Ok(None),
    }
}

impl Tells<OldObject, ObjectChange> for Teller<'_> {
    ghost told = { λ client subs old c. object_entries subs old c };

    fn hearers(&self, change: &ObjectChange) -> Hearers {
        match (&change.content, change.ven) {
            (Content::Report(_), Some(ven)) => Hearers::Of(ven),
            _ => Hearers::Everyone,
        }
    }

    fn entries(
        &self,
        alloc: Global,
        subs: &Table<Number, Sub>,
        old: &OldObject,
        change: &ObjectChange,
    ) -> Result<Vec<Entry>, AllocError> {
        match object_notice(alloc, &old.key, change)? {
            Some(notice) => entries_of(alloc, subs, &notice),
            None => Ok(Vec::new(alloc)),
        }
    }
}
