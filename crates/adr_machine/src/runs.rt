//! Whole runs, proved once for any desk.
ghost use Rattle.std.specs.Prelude.{◌≡◌, length, IfOk, OnErr};
ghost use Rattle.adr_machine.specs.Runs.{IsRun, AreListed, step_at};

use crate::command::Command;
use crate::desk::Desk;
use adr_queries::Answer;
use adr_text::{Moment, Refusal};
use std::alloc::{AllocError, Global};

/// Takes the steps in turn. It makes room for all answers first, so its own want of memory leaves
/// the state.
pub fn run<D: Desk>(
    alloc: Global,
    desk: &mut D,
    steps: &[(Moment, Command)],
) -> Result<Vec<Result<Answer, Refusal>>, AllocError>
    ensures run { IfOk result (λ answers. D.is_sound desk.new → IsRun (step_at (D.settings desk.old)) (D.state desk.old) steps.now answers.items (D.state desk.new)) }
    ensures listed { IfOk result (λ answers. AreListed D.may_refuse steps.now answers.items) }
    ensures each { IfOk result (λ answers. length answers.items ≡ length steps.now) }
    ensures err { OnErr result (D.is_sound desk.new → D.state desk.new ≡ D.state desk.old) }
    ensures was_sound { D.is_sound desk.new → D.is_sound desk.old }
    ensures same_settings { D.settings desk.new ≡ D.settings desk.old }
{
    let mut answers = Vec::with_capacity(alloc, steps.len())?;
    for (now, command) in steps {
        let answer = desk.apply(*now, command);
        let Ok(()) = answers.push(answer) else {
            unreachable!()
        };
    }
    Ok(answers)
}
