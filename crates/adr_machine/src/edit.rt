//! An edit: what a command makes of the base. After a refusal the base is left anyhow.
ghost use Rattle.std.specs.Prelude.{◌≡◌, ◌≢◌, Ok, Err, IfOk, IfErr};
ghost use Rattle.adr_text.specs.declared.refusal.Refusal.TheVariants.{Store};
ghost use Rattle.adr_text.specs.Refusals.{IsRefusalOf};
ghost use Rattle.adr_machine.specs.Edits.{edit_of, edit};

use crate::command::Command;
use crate::decided::carry_out;
use crate::outcome::Outcome;
use crate::told::after;
use adr_state::{Base, Limits};
use adr_text::{Moment, Refusal};
use std::alloc::Global;

/// What is decided is carried out, and a number drawn where one is wanted.
fn numbered(
    alloc: Global,
    limits: &Limits,
    now: Moment,
    base: &mut Base,
    command: &Command,
) -> Result<Outcome, Refusal>
    ensures ok { IfOk result (λ comes. edit_of limits.now now base.old command.now ≡ Ok (comes, base.new)) }
    ensures refused { IfErr result (λ refusal. IsRefusalOf refusal (edit_of limits.now now base.old command.now)) }
    ensures no_store { result ≢ Err Store }
{
    let number = base.serial.next();
    let comes = carry_out(alloc, limits, now, number, base, command)?;
    after(base.serial.draw(limits, command.draws_number()), comes)
}

/// What the command makes of the base, and what comes of it.
#[tactic(auto, unfolding(crate::specs::Edits::edit))]
pub(crate) fn edited(
    alloc: Global,
    limits: &Limits,
    now: Moment,
    base: &mut Base,
    command: &Command,
) -> Result<Outcome, Refusal>
    ensures ok { IfOk result (λ comes. edit limits.now now base.old command.now ≡ Ok (comes, base.new)) }
    ensures refused { IfErr result (λ refusal. IsRefusalOf refusal (edit limits.now now base.old command.now)) }
    ensures no_store { result ≢ Err Store }
{
    if !command.is_allowed() {
        return Err(Refusal::Forbidden);
    }
    numbered(alloc, limits, now, base, command)
}
