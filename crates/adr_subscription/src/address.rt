//! Addresses that may be called.
ghost use Rattle.std.specs.Prelude.{◌≡◌, None, IfOk, IsTrue};
ghost use Rattle.url.specs.Parser.{parse_url};
ghost use Rattle.url.specs.Parts.{nonempty_host};
ghost use Rattle.adr_text.specs.Refusals.{Gives};
ghost use Rattle.adr_subscription.specs.Callbacks.{is_near, is_callback, address_as, callable_address, callback_address};

use adr_text::Refusal;
use std::alloc::Global;
use url::{Host, ParseError, Url};

fn is_near(url: &Url) -> bool
    ensures { result ≡ is_near (nonempty_host url.now) }
{
    match url.host() {
        Some(Host::Domain(name)) => name == "localhost",
        Some(_) => true,
        None => false,
    }
}

fn is_callback(url: &Url) -> bool
    ensures { result ≡ is_callback url.now }
{
    if url.scheme() != "http" {
        return false;
    }
    if !url.username().is_empty() {
        return false;
    }
    if url.password().is_some() {
        return false;
    }
    is_near(url)
}

// The URL that a text is. One of 4 GB has no room in memory.
fn parsed(alloc: Global, text: &str) -> Result<Url, Refusal>
    ensures { Gives (λ url. url) result (address_as (parse_url None text.now)) }
{
    match Url::parse(alloc, text) {
        Ok(url) => Ok(url),
        Err(ParseError::OutOfMemory | ParseError::Overflow) => Err(Refusal::OutOfMemory),
        Err(_) => Err(Refusal::BadShape),
    }
}

/// The URL that a text of any length is, where it may be called: by `http`, with no user or password, at an IP address
/// or at `localhost`. Otherwise `BadShape`.
pub fn callable_address(alloc: Global, text: &str) -> Result<Url, Refusal>
    ensures gives { Gives (λ url. url) result (callable_address text.now) }
    ensures may_be_called { IfOk result (λ url. IsTrue (is_callback url)) }
{
    let url = parsed(alloc, text)?;
    if !is_callback(&url) {
        return Err(Refusal::BadShape);
    }
    Ok(url)
}

/// The URL that a text of at most 1,024 bytes is, where it may be called (OpenADR 3.0, callbackUrl). Otherwise
/// `BadShape`.
pub fn callback_address(alloc: Global, text: &str) -> Result<Url, Refusal>
    ensures gives { Gives (λ url. url) result (callback_address text.now) }
    ensures may_be_called { IfOk result (λ url. IsTrue (is_callback url)) }
{
    if text.len() > 1024 {
        return Err(Refusal::BadShape);
    }
    callable_address(alloc, text)
}
