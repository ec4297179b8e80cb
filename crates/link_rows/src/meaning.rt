//! What a reply means to who asked.
use crate::asking::job_for;
use crate::question::asked_of;
use adr_link::{Asked, Finding, HttpReply, LinkFault, Outcome, found_of, outcome_of};
use anyhow::Result;
use std::alloc::Global;

fn finding_text(alloc: Global, finding: &Finding) -> Result<String> {
    let text = match finding {
        Finding::Page { found, skipped } => {
            let count = found.len();
            format!(in alloc; "page {count} {skipped}")?
        }
        Finding::Version(found) => {
            let id = found.id.as_id().as_str();
            format!(in alloc; "version {id}")?
        }
        Finding::Gone => String::from_str(alloc, "gone")?,
        Finding::Failure => String::from_str(alloc, "failure")?,
    };
    Ok(text)
}

fn outcome_text(alloc: Global, outcome: &Outcome) -> Result<String> {
    let text = match outcome {
        Outcome::Sent(Some(id)) => {
            let id = id.as_str();
            format!(in alloc; "sent {id}")?
        }
        Outcome::Sent(None) => String::from_str(alloc, "sent")?,
        Outcome::Failed { forget: true } => String::from_str(alloc, "failed forget")?,
        Outcome::Failed { forget: false } => String::from_str(alloc, "failed")?,
    };
    Ok(text)
}

fn found_text(alloc: Global, asked: &Asked, came: &Result<HttpReply, LinkFault>) -> Result<String> {
    let finding = found_of(alloc, asked, came)?;
    finding_text(alloc, &finding)
}

fn sent_text(alloc: Global, question: &str, came: &Result<HttpReply, LinkFault>) -> Result<String> {
    let job = job_for(alloc, question)?;
    let outcome = outcome_of(alloc, &job, came)?;
    outcome_text(alloc, &outcome)
}

/// What it means, in a line's words.
pub fn meaning_of(
    alloc: Global,
    question: &str,
    came: &Result<HttpReply, LinkFault>,
) -> Result<String> {
    match asked_of(alloc, question)? {
        Some(asked) => found_text(alloc, &asked, came),
        None => sent_text(alloc, question, came),
    }
}
