//! The codings of a body (RFC 9112, section 6.1).
ghost use Rattle.std.specs.Prelude.{◌≡◌, ◌++◌, map, reverse, IfOk, OnOk};
ghost use Rattle.std.specs.List.{flat_map};
ghost use Rattle.httparse.specs.Grammar.{is_ows, skip_ows, trim_ows};
ghost use Rattle.adr_wire.specs.Codings.{codings, coding_in_part};

use crate::cuts::parts;
use std::alloc::{AllocError, Global};

fn is_white(byte: u8) -> bool
    ensures { result ≡ is_ows byte }
{
    byte == b' ' || byte == b'\t'
}

/// Without the white space in front.
#[tactic(auto, using(crate::proofs::White::front_ends, crate::proofs::White::front_more, crate::proofs::White::all_front))]
fn without_front(bytes: &[u8]) -> &[u8]
    ensures { result.now ≡ skip_ows bytes.now }
{
    for i in 0..bytes.len() {
        if !is_white(bytes[i]) {
            return &bytes[i..];
        }
    }
    &[]
}

/// Without the white space behind.
#[tactic(auto, using(crate::proofs::White::back_ends, crate::proofs::White::back_more, crate::proofs::White::all_back))]
fn without_back(bytes: &[u8]) -> &[u8]
    ensures { result.now ≡ reverse (skip_ows (reverse bytes.now)) }
{
    for n in 0..bytes.len() {
        let last = bytes.len() - 1 - n;
        if !is_white(bytes[last]) {
            return &bytes[..last + 1];
        }
    }
    &[]
}

/// Without spaces and tabs at the ends.
#[tactic(auto, unfolding(httparse::specs::Grammar::trim_ows))]
fn trimmed(bytes: &[u8]) -> &[u8]
    ensures { result.now ≡ trim_ows bytes.now }
{
    without_back(without_front(bytes))
}

/// Adds the coding that a part names, if it names one.
fn push_coding<'b>(found: &mut Vec<&'b [u8]>, part: &'b [u8]) -> Result<(), AllocError>
    ensures { OnOk result (map (λ s. s.now) found.new.items ≡ map (λ s. s.now) found.old.items ++ coding_in_part part.now) }
{
    let coding = trimmed(part);
    if !coding.is_empty() {
        found.push(coding)?;
    }
    Ok(())
}

/// Adds the codings that the parts name.
fn push_codings<'b>(found: &mut Vec<&'b [u8]>, parts: &[&'b [u8]]) -> Result<(), AllocError>
    ensures { OnOk result (map (λ s. s.now) found.new.items ≡ map (λ s. s.now) found.old.items ++ flat_map coding_in_part (map (λ s. s.now) parts.now)) }
{
    for part in parts {
        push_coding(found, part)?;
    }
    Ok(())
}

/// The codings that the values list, in their order.
pub(crate) fn codings<'b>(alloc: Global, values: &[&'b [u8]]) -> Result<Vec<&'b [u8]>, AllocError>
    ensures { IfOk result (λ v. map (λ s. s.now) v.items ≡ codings (map (λ s. s.now) values.now)) }
{
    let mut found = Vec::new(alloc);
    for value in values {
        push_codings(&mut found, &parts(alloc, b',', value)?)?;
    }
    Ok(found)
}
