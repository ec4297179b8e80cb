//! What comes of a command.
ghost use Rattle.std.specs.Prelude.{◌≡◌, option_map};
ghost use Rattle.std.specs.Option.{option_copied};
ghost use Rattle.adr_queries.specs.declared.answer.Object.TheVariants as object;
ghost use Rattle.adr_machine.specs.Steps.{answered_by};

use adr_objects::{Number, ReportBody, ReportObject, Stamps};
use adr_queries::{Answer, Object, told};
use adr_state::ViewKey;
use adr_text::{Refusal, Table};
use adr_view::row_at;

/// What comes of a command. The answer is told where the changes of what is shown are known.
#[derive(Drop)]
pub enum Outcome {
    /// This answer.
    Told(Answer),
    /// The number of changes.
    Counted,
    /// A report, with its number, told with its stamps after the command.
    ReportKept(Number, ReportBody),
    /// A report that went, with its number, told with the stamps that it had.
    ReportGone(Number, ReportBody),
}

/// A report with its stamps, where it has some.
fn report_of(number: Number, body: ReportBody, stamps: Option<&Stamps>) -> Option<Object>
    ensures { result ≡ option_map (λ s. object.Report (record { number = number; body = body; stamps = s })) (option_copied stamps.entry) }
{
    match stamps {
        Some(stamps) => Some(Object::Report(ReportObject {
            number,
            body,
            stamps: *stamps,
        })),
        None => None,
    }
}

/// The answer, where the stamps before and after are known, and how many keys of the view changed.
pub fn answered_by(
    outcome: Outcome,
    before: &Table<ViewKey, Stamps>,
    count: usize,
    after: &Table<ViewKey, Stamps>,
) -> Result<Answer, Refusal>
    ensures { result ≡ answered_by outcome before.now (count, after.now) }
{
    match outcome {
        Outcome::Told(answer) => Ok(answer),
        Outcome::Counted => Ok(Answer::Changes(count as u64)),
        Outcome::ReportKept(number, body) => {
            told(report_of(number, body, row_at(after, &ViewKey::Report(number))))
        }
        Outcome::ReportGone(number, body) => {
            told(report_of(number, body, row_at(before, &ViewKey::Report(number))))
        }
    }
}
