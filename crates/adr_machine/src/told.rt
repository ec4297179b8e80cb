//! What comes of what was decided, for whoever carries it out.
ghost use Rattle.std.specs.Prelude.{◌≡◌};
ghost use Rattle.adr_queries.specs.declared.answer.Answer.TheVariants as answer;
ghost use Rattle.adr_machine.specs.declared.outcome.Outcome.TheVariants as outcome;
ghost use Rattle.adr_machine.specs.Edits.{ven_outcome, resource_outcome, share_outcome, sub_outcome, report_kept, report_gone, told_by};

use crate::outcome::Outcome;
use adr_objects::{Number, ResourceObject, ShareObject, VenObject};
use adr_queries::{Answer, Object};
use adr_state::{MirrorKey, Report};
use adr_subscription::SubObject;
use adr_text::{Refusal, Rows};

/// What there is already, where what came last went well. Over any type, since what is dropped where it did not is
/// dropped here: in a caller each variant of a wide type would be a path of its own, at each refusal.
pub fn after<T: Drop>(ended: Result<(), Refusal>, value: T) -> Result<T, Refusal>
    ensures { result ≡ told_by (λ _. value) ended }
{
    ended?;
    Ok(value)
}

/// The number of changes.
pub fn counted<T: Drop>(decided: Result<T, Refusal>) -> Result<Outcome, Refusal>
    ensures { result ≡ told_by (λ _. outcome.Counted) decided }
{
    let _ = decided?;
    Ok(Outcome::Counted)
}

/// That it was done.
pub fn done(decided: Result<(), Refusal>) -> Result<Outcome, Refusal>
    ensures { result ≡ told_by (λ _. outcome.Told answer.Done) decided }
{
    decided?;
    Ok(Outcome::Told(Answer::Done))
}

/// The keys that a scan missed.
pub fn of_scan(decided: Result<Rows<MirrorKey>, Refusal>) -> Result<Outcome, Refusal>
    ensures { result ≡ told_by (λ keys. outcome.Told (answer.Probes keys)) decided }
{
    Ok(Outcome::Told(Answer::Probes(decided?)))
}

/// The ven.
pub fn of_ven(decided: Result<VenObject, Refusal>) -> Result<Outcome, Refusal>
    ensures { result ≡ told_by ven_outcome decided }
{
    Ok(Outcome::Told(Answer::Object(Object::Ven(decided?))))
}

/// The resource.
pub fn of_resource(decided: Result<ResourceObject, Refusal>) -> Result<Outcome, Refusal>
    ensures { result ≡ told_by resource_outcome decided }
{
    Ok(Outcome::Told(Answer::Object(Object::Resource(decided?))))
}

/// The share, as it was set.
pub fn of_share(decided: Result<ShareObject, Refusal>) -> Result<Outcome, Refusal>
    ensures { result ≡ told_by share_outcome decided }
{
    Ok(Outcome::Told(Answer::Share(decided?)))
}

/// The subscription.
pub fn of_sub(decided: Result<SubObject, Refusal>) -> Result<Outcome, Refusal>
    ensures { result ≡ told_by sub_outcome decided }
{
    Ok(Outcome::Told(Answer::Object(Object::Sub(decided?))))
}

/// The report, as it is kept.
pub fn of_report(decided: Result<(Number, Report), Refusal>) -> Result<Outcome, Refusal>
    ensures { result ≡ told_by report_kept decided }
{
    let (number, report) = decided?;
    Ok(Outcome::ReportKept(number, report.body))
}

/// The report that went.
pub fn of_report_gone(decided: Result<(Number, Report), Refusal>) -> Result<Outcome, Refusal>
    ensures { result ≡ told_by report_gone decided }
{
    let (number, report) = decided?;
    Ok(Outcome::ReportGone(number, report.body))
}
