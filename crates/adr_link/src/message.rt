//! The bytes of requests (RFC 9112, section 3).
ghost use Rattle.std.specs.Prelude.{◌≡◌, ◌++◌, Some, IfOk, OnOk};
ghost use Rattle.std.specs.Option.{option_copied};
ghost use Rattle.adr_link.specs.Addresses.{host_field};
ghost use Rattle.adr_link.specs.Requests.{request_line, host_line, token_line, body_lines, body_text, request_bytes};

use crate::address::put_host;
use adr_subscription::BearerToken;
use adr_wire::{put_length, put_line};
use std::alloc::{AllocError, Global};
use url::Url;

/// Puts the request line.
fn put_start(out: &mut Vec<u8>, method: &[u8], target: &[u8]) -> Result<(), AllocError>
    ensures { OnOk result (out.new.items ≡ out.old.items ++ request_line method.now target.now) }
{
    out.extend_from_slice(method)?;
    out.extend_from_slice(b" ")?;
    out.extend_from_slice(target)?;
    out.extend_from_slice(b" HTTP/1.1\r\n")
}

fn put_host_line(alloc: Global, out: &mut Vec<u8>, url: &Url) -> Result<(), AllocError>
    ensures { OnOk result (out.new.items ≡ out.old.items ++ host_line (host_field url.now)) }
{
    let mut host = Vec::new(alloc);
    put_host(&mut host, url)?;
    put_line(out, b"Host", &host)
}

/// Puts a token (RFC 6750, section 2.1).
fn put_bearer(alloc: Global, out: &mut Vec<u8>, token: &BearerToken) -> Result<(), AllocError>
    ensures { OnOk result (out.new.items ≡ out.old.items ++ token_line (Some token.now)) }
{
    let mut value = Vec::from_slice(alloc, b"Bearer ")?;
    value.extend_from_slice(token.as_str().as_bytes())?;
    put_line(out, b"Authorization", &value)
}

/// Puts the token, where there is one.
fn put_token(
    alloc: Global,
    out: &mut Vec<u8>,
    token: &Option<BearerToken>,
) -> Result<(), AllocError>
    ensures { OnOk result (out.new.items ≡ out.old.items ++ token_line token.now) }
{
    match token {
        Some(token) => put_bearer(alloc, out, token),
        None => Ok(()),
    }
}

/// Puts what tells of the body, where there is one.
fn put_body_lines(out: &mut Vec<u8>, body: Option<&str>) -> Result<(), AllocError>
    ensures { OnOk result (out.new.items ≡ out.old.items ++ body_lines (option_copied body.entry)) }
{
    let Some(body) = body else {
        return Ok(());
    };
    put_line(out, b"Content-Type", b"application/json")?;
    put_length(out, body.len())
}

/// Puts the body, where there is one.
fn put_body(out: &mut Vec<u8>, body: Option<&str>) -> Result<(), AllocError>
    ensures { OnOk result (out.new.items ≡ out.old.items ++ body_text (option_copied body.entry)) }
{
    match body {
        Some(body) => out.extend_from_slice(body.as_bytes()),
        None => Ok(()),
    }
}

/// The bytes of a request to the host of an address. A body is JSON.
pub(crate) fn request_bytes(
    alloc: Global,
    method: &[u8],
    target: &[u8],
    url: &Url,
    token: &Option<BearerToken>,
    body: Option<&str>,
) -> Result<Vec<u8>, AllocError>
    ensures { IfOk result (λ v. v.items ≡ request_bytes (record { method = method.now; target = target.now; host = host_field url.now; token = token.now; body = option_copied body.entry })) }
{
    let mut out = Vec::new(alloc);
    put_start(&mut out, method, target)?;
    put_host_line(alloc, &mut out, url)?;
    put_token(alloc, &mut out, token)?;
    put_line(&mut out, b"Accept", b"application/json")?;
    put_body_lines(&mut out, body)?;
    put_line(&mut out, b"Connection", b"close")?;
    out.extend_from_slice(b"\r\n")?;
    put_body(&mut out, body)?;
    Ok(out)
}
