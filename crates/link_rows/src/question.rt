//! What is asked.
use adr_link::Asked;
use adr_objects::Kind;
use adr_text::ObjectId;
use anyhow::{Context, Result, bail};
use std::alloc::Global;

pub fn kind_of(word: &str) -> Result<Kind> {
    match word {
        "programs" => Ok(Kind::Program),
        "events" => Ok(Kind::Event),
        _ => bail!("no such kind"),
    }
}

/// The page or the probe that a question asks for: none, where it is a job's.
pub fn asked_of(alloc: Global, question: &str) -> Result<Option<Asked>> {
    if let Some(kind) = question.strip_prefix("page ") {
        return Ok(Some(Asked::Page(kind_of(kind)?)));
    }
    let Some(rest) = question.strip_prefix("probe ") else {
        return Ok(None);
    };
    let (kind, id) = rest.split_once(' ').context("no id")?;
    Ok(Some(Asked::Probe(kind_of(kind)?, ObjectId::new(alloc, id)?)))
}
