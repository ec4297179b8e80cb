//! What is asked, taken on a desk.
ghost use Rattle.std.specs.Prelude.{◌≡◌};
ghost use Rattle.adr_asked.specs.Turns.{asked_step, asks_desk, Outcome};

use crate::asked::Asked;
use adr_machine::{Answer, Desk};
use adr_text::{Moment, Refusal};

/// Takes the step that is asked for.
pub fn take_asked<D: Desk>(desk: &mut D, now: Moment, asked: &Asked) -> Result<Answer, Refusal>
    ensures outcome { D.is_sound desk.new → Outcome D.may_refuse (asks_desk asked.now) (D.state desk.old) (asked_step (D.settings desk.old) (D.state desk.old) now asked.now) result (D.state desk.new) }
    ensures was_sound { D.is_sound desk.new → D.is_sound desk.old }
    ensures stays_sound { D.is_sound desk.old → D.stands desk.new → D.is_sound desk.new }
    ensures stood { D.stands desk.new → D.stands desk.old }
    ensures same_settings { D.settings desk.new ≡ D.settings desk.old }
{
    match asked {
        Asked::Command(command) | Asked::Page(command, _) => desk.apply(now, command),
        Asked::Query(query) => desk.ask(query),
        Asked::Nothing => Ok(Answer::Done),
    }
}

/// What is left when a value is done with. Over any type, since that is dropped here: where its type is known, each kind
/// of what is asked would be a path of its own.
pub fn without<T: Drop, U>(_done_with: T, left: U) -> U
    ensures { result ≡ left }
{
    left
}
