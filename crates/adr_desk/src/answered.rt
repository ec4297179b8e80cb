//! The answer to a command, by what came of it and what changed.
ghost use Rattle.std.specs.Prelude.{◌≡◌, List, option_map, IfErr};
ghost use Rattle.adr_objects.specs.declared.shown.Stamps.{Stamps as StampsOf};
ghost use Rattle.adr_queries.specs.declared.answer.Object.TheVariants as object;
ghost use Rattle.adr_machine.specs.Steps.{answered_by};
ghost use Rattle.adr_state.specs.declared.keys.ViewKey.{ViewKey as Key};
ghost use Rattle.adr_sql.specs.Calls.{LeavesLent};
ghost use Rattle.adr_db.specs.Calls.{Finds, IsOfStore};
ghost use Rattle.std.specs.List.{Contains};
ghost use Rattle.adr_machine.specs.declared.command.Command.{Command as CommandOf};
ghost use Rattle.adr_machine.specs.Listed.{listed};
ghost use Rattle.adr_desk.specs.Answered.{stamps_reported};
ghost use Rattle.adr_desk.specs.Decisions.{IsAnswered};

use adr_db_state::read_stamps_of;
use adr_machine::{Answer, Object, Outcome};
use adr_objects::{Number, ReportBody, ReportObject, Stamps};
use adr_queries::told;
use adr_state::ViewKey;
use adr_text::Refusal;
use sqlite::{Alter, Transaction};

/// The stamps of the report that comes of a command, where one does, as the tables keep them.
pub(crate) fn stamps_of<S: Alter>(
    tx: &mut Transaction<'_, S>,
    said: &Outcome,
) -> Result<Option<Stamps>, Refusal>
    ensures lent { LeavesLent S.Store tx.old.conn tx.new.conn result }
    ensures finds { Finds S.Store tx.old.conn.now tx.new.conn.now (λ kept found. found ≡ stamps_reported said.now kept.stamps) result }
    ensures refused { IfErr result IsOfStore }
{
    match said {
        Outcome::ReportKept(number, _) => read_stamps_of(tx, &ViewKey::Report(*number)),
        Outcome::ReportGone(number, _) => read_stamps_of(tx, &ViewKey::Report(*number)),
        Outcome::Told(_) | Outcome::Counted => Ok(None),
    }
}

// A report with its stamps, where it has some.
fn report_of(number: Number, body: ReportBody, stamps: Option<Stamps>) -> Option<Object>
    ensures { result ≡ option_map (λ s. object.Report (record { number = number; body = body; stamps = s })) stamps }
{
    match stamps {
        Some(stamps) => Some(Object::Report(ReportObject {
            number,
            body,
            stamps,
        })),
        None => None,
    }
}

/// The answer, where the stamps of the report before and after are known, and how many keys of the view changed.
pub(crate) fn answered(
    said: Outcome,
    before: Option<Stamps>,
    many: u64,
    after: Option<Stamps>,
) -> Result<Answer, Refusal>
    ensures answers { (old new : List (Key × StampsOf)) → before ≡ stamps_reported said old → after ≡ stamps_reported said new → result ≡ answered_by said old (many, new) }
    ensures listed { (command : CommandOf) → IsAnswered command said → IfErr result (Contains (listed command)) }
{
    match said {
        Outcome::Told(answer) => Ok(answer),
        Outcome::Counted => Ok(Answer::Changes(many)),
        Outcome::ReportKept(number, body) => told(report_of(number, body, after)),
        Outcome::ReportGone(number, body) => told(report_of(number, body, before)),
    }
}
