//! What was asked for under the lock.
ghost use Rattle.std.specs.Prelude.{◌≡◌};
ghost use Rattle.adr_lock.specs.Steps.{with_call};

use crate::call::Call;
use adr_machine::{Answer, Command};
use adr_text::Refusal;
use http_server::Log;

/// The steps that somebody asked for under the lock so far, and what came of each, which contracts alone see.
pub type Steps = Log<Command, Result<Answer, Refusal>>;

/// The same with a call more.
pub(crate) fn note(steps: &mut Steps, call: Call<'_>, outcome: &Result<Answer, Refusal>)
    ensures { steps.new.items ≡ with_call steps.old.items call.entry outcome.now }
{
    if let Call::Step(command) = call {
        *steps = steps.and(command, outcome);
    }
}
