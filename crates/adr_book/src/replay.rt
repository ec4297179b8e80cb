//! What the machine answers along a trail, and whether receipts agree with it.
ghost use Rattle.std.specs.Prelude.{◌≡◌, ◌≢◌, ◌↔◌, IsTrue, All, Ok, None, IfOk, IfSome, IfNone, IfErr, OnOk};
ghost use Rattle.adr_text.specs.declared.refusal.Refusal.TheVariants.{OutOfMemory};
ghost use Rattle.adr_machine.specs.Runs.{step_at};
ghost use Rattle.adr_book.specs.Trail.{left_by, answers_along};
ghost use Rattle.adr_book.specs.Same.{IsUntouched};
ghost use Rattle.adr_book.specs.Receipts.{HasPlace, IsFirstWithout, IsOf, AuditFails};

use crate::kept::{AuditFault, Book, Receipt};
use crate::recorded::RecordedTrail;
use adr_machine::{Answer, Command, Desk, Image, PlainDesk, Settings};
use adr_same::Same;
use adr_text::{Moment, Refusal};
use std::alloc::{AllocError, Global};
use std::sync::ledger::Ledger;

/// That a refusal is none for want of memory.
fn not_for_memory(refusal: Refusal) -> Result<(), AllocError>
    ensures { OnOk result (refusal ≢ OutOfMemory) }
{
    match refusal {
        Refusal::OutOfMemory => Err(AllocError),
        _ => Ok(()),
    }
}

/// The machine's answer to one command more, none where it refuses that.
#[tactic(auto, using(crate::proofs::Leading::leaves_none))]
fn taken(desk: &mut PlainDesk, now: Moment, command: &Command) -> Result<Option<Answer>, AllocError>
    ensures answer { IfOk result (λ told. IfSome told (λ answer. step_at (⟦<PlainDesk as Desk>⟧.settings desk.old) (⟦<PlainDesk as Desk>⟧.state desk.old) (now, command.now) ≡ Ok (answer, ⟦<PlainDesk as Desk>⟧.state desk.new))) }
    ensures refused { IfOk result (λ told. IfNone told (left_by (step_at (⟦<PlainDesk as Desk>⟧.settings desk.old) (⟦<PlainDesk as Desk>⟧.state desk.old) (now, command.now)) ≡ None)) }
    ensures same_settings { ⟦<PlainDesk as Desk>⟧.settings desk.new ≡ ⟦<PlainDesk as Desk>⟧.settings desk.old }
{
    match desk.apply(now, command) {
        Ok(answer) => Ok(Some(answer)),
        Err(refusal) => {
            not_for_memory(refusal)?;
            Ok(None)
        }
    }
}

/// The machine's answers along a trail, up to the first refusal.
pub fn replay(
    alloc: Global,
    settings: &Settings,
    base: &Image,
    trail: &[(Moment, Command)],
) -> Result<Vec<Answer>, AllocError>
    ensures { IfOk result (λ answers. answers.items ≡ answers_along settings.now base.now trail.now) }
{
    let mut desk = PlainDesk::of(alloc, settings.copy()?, base.copy()?);
    let mut answers = Vec::new(alloc);
    for (now, command) in trail {
        match taken(&mut desk, *now, command)? {
            Some(answer) => answers.push(answer)?,
            None => return Ok(answers),
        }
    }
    Ok(answers)
}

/// Whether the receipt agrees with a trail since that turn, and with the answers along it.
pub fn has_place(
    since: u64,
    trail: &[(Moment, Command)],
    answers: &[Answer],
    receipt: &Receipt,
) -> bool
    ensures { IsTrue result ↔ HasPlace since trail.now answers.now receipt.now }
{
    if receipt.turn <= since {
        return true;
    }
    let place = (receipt.turn - since - 1) as usize;
    let Some((_, command)) = trail.get(place) else {
        return false;
    };
    let Some(answer) = answers.get(place) else {
        return false;
    };
    command.is_same(&receipt.command) && answer.is_same(&receipt.answer)
}

/// The turn of the first receipt that has no place.
fn first_misplaced(
    since: u64,
    trail: &[(Moment, Command)],
    answers: &[Answer],
    receipts: &[Receipt],
) -> Option<u64>
    ensures none { IfNone result (All (HasPlace since trail.now answers.now) receipts.now) }
    ensures some { IfSome result (λ turn. IsFirstWithout (HasPlace since trail.now answers.now) receipts.now turn) }
{
    for receipt in receipts {
        if !has_place(since, trail, answers, receipt) {
            return Some(receipt.turn);
        }
    }
    None
}

impl<D: Desk, L: Ledger> Book<D, RecordedTrail, L> {
    /// Whether each receipt past the base has its command in the trail at its turn, and the machine's answer there.
    pub fn audit(&mut self, alloc: Global, receipts: &[Receipt]) -> Result<(), AuditFault>
        ensures ok { OnOk result (All (IsOf self.old) receipts.now) }
        ensures fault { IfErr result (λ fault. AuditFails self.old receipts.now fault) }
        ensures unchanged { IsUntouched self.old self.new }
    {
        let settings = self.desk.settings();
        let trail = &self.trail;
        let Ok(answers) = replay(alloc, settings, &trail.base, &trail.commands) else {
            return Err(AuditFault::Refused(Refusal::OutOfMemory));
        };
        match first_misplaced(trail.since, &trail.commands, &answers, receipts) {
            Some(turn) => Err(AuditFault::Mismatch(turn)),
            None => Ok(()),
        }
    }
}
