//! What stands of an address in a request (RFC 9112, section 3.2).
ghost use Rattle.std.specs.Prelude.{◌≡◌, ◌++◌, Some, IfOk, OnOk};
ghost use Rattle.std.specs.Option.{option_copied};
ghost use Rattle.std.specs.String.{string_bytes};
ghost use Rattle.adr_link.specs.Addresses.{port_text, host_field, endpoint, without_slash, target_below, query_text, own_target};

use itoa::Buffer;
use std::alloc::{AllocError, Global};
use url::Url;

fn put_port(out: &mut Vec<u8>, port: u16) -> Result<(), AllocError>
    ensures { OnOk result (out.new.items ≡ out.old.items ++ port_text (Some port)) }
{
    if port == 80 {
        return Ok(());
    }
    let mut buffer = Buffer::new();
    out.extend_from_slice(b":")?;
    out.extend_from_slice(buffer.format(port).as_bytes())
}

/// Puts the value of the field `Host`: the host as the URL is written, and the port unless it is 80.
pub(crate) fn put_host(out: &mut Vec<u8>, url: &Url) -> Result<(), AllocError>
    ensures { OnOk result (out.new.items ≡ out.old.items ++ host_field url.now) }
{
    out.extend_from_slice(url.host_str().unwrap_or("").as_bytes())?;
    match url.port() {
        Some(port) => put_port(out, port),
        None => Ok(()),
    }
}

/// Where a connection is made: the host as the URL is written, a colon and the port.
pub(crate) fn endpoint(alloc: Global, url: &Url) -> Result<String, AllocError>
    ensures { IfOk result (λ text. string_bytes text ≡ endpoint url.now) }
{
    let mut buffer = Buffer::new();
    let mut text = String::from_str(alloc, url.host_str().unwrap_or(""))?;
    text.push_str(":")?;
    text.push_str(buffer.format(url.port().unwrap_or(80)))?;
    Ok(text)
}

/// The path without the slash at its end, where it has one.
fn without_slash(path: &[u8]) -> &[u8]
    ensures { result.now ≡ without_slash path.now }
{
    match path.strip_suffix(b"/") {
        Some(front) => front,
        None => path,
    }
}

/// The target that stands below an address. A query and a fragment of the address are passed over.
pub(crate) fn target_below(alloc: Global, url: &Url, below: &[u8]) -> Result<Vec<u8>, AllocError>
    ensures { IfOk result (λ v. v.items ≡ target_below url.now below.now) }
{
    let mut target = Vec::from_slice(alloc, without_slash(url.path().as_bytes()))?;
    target.extend_from_slice(below)?;
    Ok(target)
}

fn put_query(out: &mut Vec<u8>, query: Option<&str>) -> Result<(), AllocError>
    ensures { OnOk result (out.new.items ≡ out.old.items ++ query_text (option_copied query.entry)) }
{
    let Some(query) = query else {
        return Ok(());
    };
    out.extend_from_slice(b"?")?;
    out.extend_from_slice(query.as_bytes())
}

/// The target that is an address itself: its path and its query.
pub(crate) fn own_target(alloc: Global, url: &Url) -> Result<Vec<u8>, AllocError>
    ensures { IfOk result (λ v. v.items ≡ own_target url.now) }
{
    let mut target = Vec::from_slice(alloc, url.path().as_bytes())?;
    put_query(&mut target, url.query())?;
    Ok(target)
}
