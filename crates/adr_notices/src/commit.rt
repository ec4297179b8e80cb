//! What becomes of the outbox as a command is committed.
ghost use Rattle.std.specs.Prelude.{◌≡◌, ◌≢◌, ◌≤◌, ◌+◌, Ok, Err, length, IfOk, IfErr};
ghost use Rattle.adr_text.specs.declared.refusal.Refusal.TheVariants.{Store};
ghost use Rattle.adr_text.specs.Refusals.{IsRefusalOf};
ghost use Rattle.adr_state.specs.Digits.{most_number};
ghost use Rattle.adr_notices.specs.Committed.{numbered, with_further, outbox_after};

use adr_delivery::{Entry, Outbox, check_room};
use adr_objects::Number;
use adr_state::{Limits, Serial};
use adr_subscription::Sub;
use adr_text::{Refusal, Rows, Table};
use std::alloc::{AllocError, Global};

/// Each entry with the number that is drawn for it, where this was drawn last.
fn numbered(
    alloc: Global,
    last: u64,
    entries: Rows<Entry>,
) -> Result<Rows<(Number, Entry)>, AllocError>
    requires { last + length entries ≤ most_number }
    ensures { IfOk result (λ rows. rows ≡ numbered last entries) }
{
    let mut rows = Vec::new(alloc);
    let mut number = last;
    for entry in entries.into_vec() {
        number += 1;
        rows.push((Number::new(number), entry))?;
    }
    Ok(Rows::from_vec(rows))
}

/// The serial after so many numbers were drawn.
fn serial_after(serial: Serial, further: usize) -> Serial
    requires { serial + further ≤ most_number }
    ensures { result ≡ serial + further }
{
    let Some(serial) = Serial::at(serial.get() + further as u64) else {
        unreachable!()
    };
    serial
}

/// The outbox with further entries, and the serial from which their numbers were drawn.
fn with_further(
    alloc: Global,
    serial: Serial,
    mut outbox: Outbox,
    entries: Rows<Entry>,
) -> Result<(Outbox, Serial), AllocError>
    requires { serial + length entries ≤ most_number }
    ensures { IfOk result (λ next. next ≡ with_further serial entries outbox) }
{
    let after = serial_after(serial, entries.len());
    outbox.append(numbered(alloc, serial.get(), entries)?)?;
    Ok((outbox, after))
}

/// The outbox as a command is committed, and the serial then: the entries of subscriptions that are not there any more
/// are dropped, and each further one is appended at the number that is drawn next. Refused with `Exhausted` where there
/// are no numbers for all of them, and then with `OutboxFull` where all of them are more than may wait.
pub fn outbox_after(
    alloc: Global,
    limits: &Limits,
    serial: Serial,
    outbox: &Outbox,
    subs: &Table<Number, Sub>,
    entries: Rows<Entry>,
) -> Result<(Outbox, Serial), Refusal>
    ensures ok { IfOk result (λ next. outbox_after limits.now serial outbox.now subs.now entries ≡ Ok next) }
    ensures refused { IfErr result (λ refusal. IsRefusalOf refusal (outbox_after limits.now serial outbox.now subs.now entries)) }
    ensures no_store { result ≢ Err Store }
{
    let mut kept = outbox.copy()?;
    kept.keep_for(subs);
    check_room(
        limits.serial.get(),
        limits.pending.get(),
        serial.get(),
        kept.entries.len(),
        entries.len(),
    )?;
    Ok(with_further(alloc, serial, kept, entries)?)
}
