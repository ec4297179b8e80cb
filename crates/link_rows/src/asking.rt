//! Requests that are asked for.
use crate::case::Request;
use crate::question::kind_of;
use adr_delivery::{Job, JobMethod};
use adr_link::Upstream;
use adr_objects::Number;
use adr_subscription::{BearerToken, FreeText};
use adr_text::{ObjectId, Refusal};
use anyhow::{Context, Result, bail};
use std::alloc::Global;
use std::str::from_utf8;

/// What comes of a request that is asked for.
#[derive(Drop)]
pub enum Asking {
    Bytes(Vec<u8>),
    NoUpstream,
    NoJob,
}

/// How a job goes, and where: to the utility, or to the subscription of number 6.
fn way_of(question: &str) -> Result<(JobMethod, u64)> {
    match question {
        "POST upstream" => Ok((JobMethod::Post, 0)),
        "PUT upstream" => Ok((JobMethod::Put, 0)),
        "POST callback" => Ok((JobMethod::Post, 6)),
        _ => bail!("no such question"),
    }
}

/// A job of a question, with nothing in it.
pub fn job_for(alloc: Global, question: &str) -> Result<Job> {
    let (method, destination) = way_of(question)?;
    Ok(Job {
        entry: Number::new(7),
        lease: 1,
        destination: Number::new(destination),
        method,
        target: FreeText::new(alloc, "")?,
        token: None,
        body: FreeText::new(alloc, "")?,
    })
}

fn text_of(alloc: Global, bytes: &[u8]) -> Result<FreeText> {
    Ok(FreeText::new(alloc, from_utf8(bytes)?)?)
}

fn token_of(alloc: Global, shows: Option<&Vec<u8>>) -> Result<Option<BearerToken>> {
    match shows {
        Some(bytes) => Ok(Some(
            BearerToken::new(alloc, from_utf8(bytes)?)
                .ok()
                .context("no token")?,
        )),
        None => Ok(None),
    }
}

/// The job of a request.
fn job_of(alloc: Global, request: &Request) -> Result<Job> {
    let mut job = job_for(alloc, request.question.as_str())?;
    job.target = text_of(alloc, &request.target)?;
    job.token = token_of(alloc, request.shows.as_ref())?;
    job.body = text_of(alloc, &request.sends)?;
    Ok(job)
}

/// The utility of a request, where there is one.
fn upstream_of(alloc: Global, request: &Request) -> Result<Option<Upstream>> {
    let address = from_utf8(&request.address)?;
    let token = match &request.token {
        Some(bytes) => Some(from_utf8(bytes)?),
        None => None,
    };
    match Upstream::new(alloc, address, token) {
        Ok(upstream) => Ok(Some(upstream)),
        Err(Refusal::BadShape) => Ok(None),
        Err(_) => bail!("no memory"),
    }
}

fn page_bytes(alloc: Global, upstream: &Upstream, page: &str) -> Result<Vec<u8>> {
    let (kind, skip) = page.split_once(' ').context("no number behind a page")?;
    let skip: u64 = skip.parse().ok().context("no number of a page")?;
    Ok(upstream.page_request(alloc, kind_of(kind)?, skip)?)
}

fn probe_bytes(alloc: Global, upstream: &Upstream, probe: &str) -> Result<Vec<u8>> {
    let (kind, id) = probe.split_once(' ').context("no id behind a probe")?;
    let id = ObjectId::new(alloc, id)?;
    Ok(upstream.probe_request(alloc, kind_of(kind)?, &id)?)
}

fn job_bytes(alloc: Global, upstream: &Upstream, request: &Request) -> Result<Asking> {
    let job = job_of(alloc, request)?;
    match upstream.job_request(alloc, &job) {
        Ok(bytes) => Ok(Asking::Bytes(bytes)),
        Err(Refusal::BadShape) => Ok(Asking::NoJob),
        Err(_) => bail!("no memory"),
    }
}

fn asking_at(alloc: Global, upstream: &Upstream, request: &Request) -> Result<Asking> {
    let question = request.question.as_str();
    if let Some(page) = question.strip_prefix("page ") {
        return Ok(Asking::Bytes(page_bytes(alloc, upstream, page)?));
    }
    if let Some(probe) = question.strip_prefix("probe ") {
        return Ok(Asking::Bytes(probe_bytes(alloc, upstream, probe)?));
    }
    job_bytes(alloc, upstream, request)
}

/// What comes of a request.
pub fn asking_of(alloc: Global, request: &Request) -> Result<Asking> {
    match upstream_of(alloc, request)? {
        Some(upstream) => asking_at(alloc, &upstream, request),
        None => Ok(Asking::NoUpstream),
    }
}
