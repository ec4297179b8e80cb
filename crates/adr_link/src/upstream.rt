//! The utility, and the requests to it and to those that are notified.
ghost use Rattle.std.specs.Prelude.{◌≡◌, IfOk};
ghost use Rattle.std.specs.Option.{option_copied};
ghost use Rattle.std.specs.String.{string_bytes};
ghost use Rattle.adr_text.specs.Refusals.{Gives};
ghost use Rattle.adr_link.specs.Requests.{request_bytes};
ghost use Rattle.adr_link.specs.Targets.{get_request, report_request, page_request, probe_request, notice_bytes, job_bytes, job_endpoint};
ghost use Rattle.adr_link.specs.Addresses.{endpoint};
ghost use Rattle.adr_link.specs.Upstreams.{token_shown, upstream_of};

use crate::address::{endpoint, own_target, target_below};
use crate::message::request_bytes;
use crate::target::{is_for_utility, method_word, page_target, probe_target};
use adr_delivery::Job;
use adr_objects::Kind;
use adr_subscription::{BearerToken, FreeText, callable_address, callback_address};
use adr_text::{Fault, ObjectId, Refusal};
use std::alloc::{AllocError, Global};
use std::marker::Model;
use url::Url;

/// The utility: its address, which may be called, and the token that it is shown, if any.
#[derive(Drop)]
pub struct Upstream {
    url: Url,
    token: Option<BearerToken>,
}

impl Model for Upstream {
    ghost use Rattle.std.specs.Prelude.{IsTrue};
    ghost use Rattle.adr_subscription.specs.Callbacks.{is_callback};
    ghost use Rattle.adr_link.specs.Upstreams.{UpstreamParts};

    ghost Value = { UpstreamParts };

    ghost view = { λ u. record { url = u.url; token = u.token } };

    ghost invariant = { λ u. IsTrue (is_callback u.url) };
}

/// The token that a text is, where there is one.
fn token_shown(alloc: Global, token: Option<&str>) -> Result<Option<BearerToken>, Refusal>
    ensures { Gives (λ token. token) result (token_shown (option_copied token.entry)) }
{
    let Some(text) = token else {
        return Ok(None);
    };
    match BearerToken::new(alloc, text) {
        Ok(token) => Ok(Some(token)),
        Err(Fault::OutOfMemory) => Err(Refusal::OutOfMemory),
        Err(_) => Err(Refusal::BadShape),
    }
}

/// A notification: a POST of a JSON text to an address, with a token of its own, if any.
fn notice_request(
    alloc: Global,
    address: &FreeText,
    token: &Option<BearerToken>,
    body: &FreeText,
) -> Result<Vec<u8>, Refusal>
    ensures { Gives (λ v. v.items) result (notice_bytes address.now token.now body.now) }
{
    let url = callable_address(alloc, address.as_str())?;
    let target = own_target(alloc, &url)?;
    let body = Some(body.as_str());
    Ok(request_bytes(alloc, b"POST", &target, &url, token, body)?)
}

impl Upstream {
    /// The utility at that address, which is shown that token. `BadShape` where the address is none that a notification
    /// may be sent to (OpenADR 3.0, callbackUrl), or the token is no bearer token: 1 to 1,024 characters from `!` to
    /// `~`.
    pub fn new(alloc: Global, address: &str, token: Option<&str>) -> Result<Upstream, Refusal>
        ensures { Gives (λ upstream. upstream) result (upstream_of address.now (option_copied token.entry)) }
    {
        let url = callback_address(alloc, address)?;
        let token = token_shown(alloc, token)?;
        Ok(Upstream { url, token })
    }

    /// Where a connection to the utility is made: its host as the URL is written, a colon and the port, 80 where the
    /// address names none.
    pub fn endpoint(&self, alloc: Global) -> Result<String, AllocError>
        ensures { IfOk result (λ text. string_bytes text ≡ endpoint self.now.url) }
    {
        endpoint(alloc, &self.url)
    }

    /// Where a connection for a job is made: to the utility for a report, else to the address that is notified.
    /// `BadShape` where that may not be called; one that is kept always may.
    pub fn job_endpoint(&self, alloc: Global, job: &Job) -> Result<String, Refusal>
        ensures { Gives string_bytes result (job_endpoint self.now job.now) }
    {
        if is_for_utility(job) {
            return Ok(self.endpoint(alloc)?);
        }
        let url = callable_address(alloc, job.target.as_str())?;
        Ok(endpoint(alloc, &url)?)
    }

    /// The same utility again.
    pub fn copy(&self) -> Result<Upstream, AllocError>
        ensures { IfOk result (λ upstream. upstream ≡ self.now) }
    {
        let url = self.url.clone()?;
        let token = self.token.clone()?;
        Ok(Upstream { url, token })
    }

    /// A GET of a target below the address.
    fn get_request(&self, alloc: Global, below: &[u8]) -> Result<Vec<u8>, AllocError>
        ensures { IfOk result (λ v. v.items ≡ request_bytes (get_request self.now below.now)) }
    {
        let target = target_below(alloc, &self.url, below)?;
        request_bytes(alloc, b"GET", &target, &self.url, &self.token, None)
    }

    /// The request for a page of the objects of a kind: up to 50 of them, behind the first `skip` (OpenADR 3.0, skip
    /// and limit).
    pub fn page_request(&self, alloc: Global, kind: Kind, skip: u64) -> Result<Vec<u8>, AllocError>
        ensures { IfOk result (λ v. v.items ≡ request_bytes (page_request self.now kind skip)) }
    {
        let target = page_target(alloc, kind, skip)?;
        self.get_request(alloc, &target)
    }

    /// The request for the object of a kind that has that id.
    pub fn probe_request(
        &self,
        alloc: Global,
        kind: Kind,
        id: &ObjectId,
    ) -> Result<Vec<u8>, AllocError>
        ensures { IfOk result (λ v. v.items ≡ request_bytes (probe_request self.now kind id.now)) }
    {
        let target = probe_target(alloc, kind, id)?;
        self.get_request(alloc, &target)
    }

    /// A report, by the job's method, to its target below the address.
    fn report_request(&self, alloc: Global, job: &Job) -> Result<Vec<u8>, AllocError>
        ensures { IfOk result (λ v. v.items ≡ request_bytes (report_request self.now job.now)) }
    {
        let target = target_below(alloc, &self.url, job.target.as_str().as_bytes())?;
        let method = method_word(job.method);
        let body = Some(job.body.as_str());
        request_bytes(alloc, method, &target, &self.url, &self.token, body)
    }

    /// The request that a job is sent by: a report to the utility, with the utility's token, or a notification to the
    /// address that it is for, with the job's own. `BadShape` where the address of a notification may not be called;
    /// one that is kept always may.
    pub fn job_request(&self, alloc: Global, job: &Job) -> Result<Vec<u8>, Refusal>
        ensures { Gives (λ v. v.items) result (job_bytes self.now job.now) }
    {
        if is_for_utility(job) {
            return Ok(self.report_request(alloc, job)?);
        }
        notice_request(alloc, &job.target, &job.token, &job.body)
    }
}
