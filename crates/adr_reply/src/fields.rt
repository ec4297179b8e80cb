//! The fields of a reply, one after another.
ghost use Rattle.std.specs.Prelude.{◌≡◌, ◌++◌, ◌≤◌, ◌<◌, IfOk, OnOk};
ghost use Rattle.std.specs.List.{flat_map};
ghost use Rattle.adr_wire.specs.Written.{line};
ghost use Rattle.adr_reply.specs.Replies.{phrase, start_line, with_method, allow_text, extra_fields};

use crate::reply::Extra;
use adr_routes::Methods;
use adr_wire::put_line;
use http::StatusCode;
use itoa::Buffer;
use std::alloc::{AllocError, Global};

/// The phrase of a status (RFC 9110, section 15).
#[tactic(auto, using(crate::proofs::RenderedPieces::phrase_is, crate::proofs::RenderedPieces::no_phrase))]
fn phrase_of(status: u16) -> &'static str
    requires { (100 ≤ status) × (status < 1000) }
    ensures { result.now ≡ phrase status }
{
    let Ok(code) = StatusCode::from_u16(status) else {
        return "";
    };
    match code.canonical_reason() {
        Some(text) => text,
        None => "",
    }
}

/// Puts the start line.
pub(crate) fn put_start(out: &mut Vec<u8>, status: u16) -> Result<(), AllocError>
    requires { (100 ≤ status) × (status < 1000) }
    ensures { OnOk result (out.new.items ≡ out.old.items ++ start_line status) }
{
    let mut buffer = Buffer::new();
    out.extend_from_slice(b"HTTP/1.1 ")?;
    out.extend_from_slice(buffer.format(status).as_bytes())?;
    out.extend_from_slice(b" ")?;
    out.extend_from_slice(phrase_of(status).as_bytes())?;
    out.extend_from_slice(b"\r\n")?;
    Ok(())
}

fn put_method(text: &mut Vec<u8>, is_there: bool, word: &[u8]) -> Result<(), AllocError>
    ensures { OnOk result (text.new.items ≡ with_method is_there word.now text.old.items) }
{
    if !is_there {
        return Ok(());
    }
    if !text.is_empty() {
        text.extend_from_slice(b", ")?;
    }
    text.extend_from_slice(word)
}

fn allow_text(alloc: Global, methods: Methods) -> Result<Vec<u8>, AllocError>
    ensures { IfOk result (λ v. v.items ≡ allow_text methods) }
{
    let mut text = Vec::new(alloc);
    put_method(&mut text, methods.get, b"GET")?;
    put_method(&mut text, methods.post, b"POST")?;
    put_method(&mut text, methods.put, b"PUT")?;
    put_method(&mut text, methods.delete, b"DELETE")?;
    Ok(text)
}

/// Puts the field that not all replies have.
pub(crate) fn put_extra(alloc: Global, out: &mut Vec<u8>, extra: Extra) -> Result<(), AllocError>
    ensures { OnOk result (out.new.items ≡ out.old.items ++ flat_map line (extra_fields extra)) }
{
    match extra {
        Extra::Nothing => Ok(()),
        Extra::Challenge => put_line(out, b"WWW-Authenticate", b"Bearer"),
        Extra::Allow(methods) => {
            let text = allow_text(alloc, methods)?;
            put_line(out, b"Allow", &text)
        }
    }
}
