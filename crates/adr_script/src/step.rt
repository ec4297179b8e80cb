//! What a step of the node asks of the machine.
ghost use Rattle.std.specs.Prelude.{◌≡◌, IfOk, option_map};
ghost use Rattle.std.specs.Option.{option_copied};
ghost use Rattle.adr_text.specs.Refusals.{Gives};
ghost use Rattle.adr_wire.specs.Cuts.{cut};
ghost use Rattle.adr_script.specs.Steps.{kind_from, page_step, gone_step, scan_step, probes_step, lease_named, sent_step, failed_step, word_step, step_of};

use crate::words::number_from;
use adr_asked::Asked;
use adr_machine::{Command, Query, number_within};
use adr_objects::{Kind, Number};
use adr_routes::id_from;
use adr_schema::read_page;
use adr_text::Refusal;
use adr_wire::cut;
use std::alloc::{AllocError, Global};

fn kind_from(word: &[u8]) -> Option<Kind>
    ensures { result ≡ kind_from word.now }
{
    if word == b"programs".as_slice() {
        Some(Kind::Program)
    } else if word == b"events".as_slice() {
        Some(Kind::Event)
    } else {
        None
    }
}

/// `page programs JSON` and `page events JSON`: a page of objects of a kind, which counts as polled.
fn page_step(alloc: Global, rest: &[u8]) -> Result<Option<Asked>, Refusal>
    ensures { Gives (λ a. a) result (page_step (cut 32 rest.now)) }
{
    let (kind, Some(json)) = cut(b' ', rest) else {
        return Ok(None);
    };
    let Some(kind) = kind_from(kind) else {
        return Ok(None);
    };
    let (found, skipped) = read_page(alloc, kind, json)?;
    let command = Command::Evidence {
        found,
        polled: true,
    };
    Ok(Some(Asked::Page(command, skipped)))
}

/// `gone programs ID` and `gone events ID`.
fn gone_step(alloc: Global, rest: &[u8]) -> Result<Option<Asked>, AllocError>
    ensures { IfOk result (λ a. a ≡ gone_step (cut 32 rest.now)) }
{
    let (kind, Some(id)) = cut(b' ', rest) else {
        return Ok(None);
    };
    let Some(kind) = kind_from(kind) else {
        return Ok(None);
    };
    match id_from(alloc, id)? {
        Some(id) => Ok(Some(Asked::Command(Command::Gone { kind, id }))),
        None => Ok(None),
    }
}

/// `scan begin` and `scan end`.
fn scan_step(word: &[u8]) -> Option<Asked>
    ensures { result ≡ scan_step word.now }
{
    if word == b"begin".as_slice() {
        Some(Asked::Command(Command::ScanBegin))
    } else if word == b"end".as_slice() {
        Some(Asked::Command(Command::ScanEnd))
    } else {
        None
    }
}

/// `probes N`, with a number of 1 to 9 digits.
fn probes_step(digits: &[u8]) -> Option<Asked>
    ensures { result ≡ probes_step digits.now }
{
    if 9 < digits.len() {
        return None;
    }
    let limit = number_within(999_999_999, digits)? as u32;
    Some(Asked::Query(Query::Probes { limit }))
}

/// An entry and a lease by their numbers, and the word behind them, where there is one.
fn lease_named(rest: &[u8]) -> Option<(Number, u64, Option<&[u8]>)>
    ensures { option_map (λ named. (named.0, named.1, option_copied named.2)) result ≡ lease_named (cut 32 rest.now) }
{
    let (entry, Some(rest)) = cut(b' ', rest) else {
        return None;
    };
    let (lease, word) = cut(b' ', rest);
    let entry = number_from(entry)?;
    let lease = number_from(lease)?;
    Some((Number::new(entry), lease, word))
}

/// `sent ENTRY LEASE`, and `sent ENTRY LEASE ID` with the id that the utility gave it.
fn sent_step(alloc: Global, rest: &[u8]) -> Result<Option<Asked>, AllocError>
    ensures { IfOk result (λ a. a ≡ sent_step (cut 32 rest.now)) }
{
    let Some((entry, lease, word)) = lease_named(rest) else {
        return Ok(None);
    };
    let remote = match word {
        None => None,
        Some(word) => match id_from(alloc, word)? {
            Some(id) => Some(id),
            None => return Ok(None),
        },
    };
    Ok(Some(Asked::Command(Command::Sent {
        entry,
        lease,
        remote,
    })))
}

/// `failed ENTRY LEASE`, and `failed ENTRY LEASE forget`.
fn failed_step(rest: &[u8]) -> Option<Asked>
    ensures { result ≡ failed_step (cut 32 rest.now) }
{
    let Some((entry, lease, word)) = lease_named(rest) else {
        return None;
    };
    let forget = match word {
        None => false,
        Some(word) if word == b"forget".as_slice() => true,
        Some(_) => return None,
    };
    Some(Asked::Command(Command::Failed {
        entry,
        lease,
        forget,
    }))
}

/// `lease`, which stands alone.
fn word_step(word: &[u8]) -> Option<Asked>
    ensures { result ≡ word_step word.now }
{
    if word == b"lease".as_slice() {
        Some(Asked::Command(Command::Lease))
    } else {
        None
    }
}

/// What the words of a step ask, or none where they ask for nothing that there is; `BadShape` where a
/// page is no JSON array.
#[tactic(auto, unfolding(crate::specs::Steps::step_of))]
pub(crate) fn step_of(alloc: Global, words: &[u8]) -> Result<Option<Asked>, Refusal>
    ensures { Gives (λ a. a) result (step_of words.now) }
{
    let (verb, rest) = cut(b' ', words);
    let Some(rest) = rest else {
        return Ok(word_step(verb));
    };
    if verb == b"page".as_slice() {
        page_step(alloc, rest)
    } else if verb == b"gone".as_slice() {
        Ok(gone_step(alloc, rest)?)
    } else if verb == b"scan".as_slice() {
        Ok(scan_step(rest))
    } else if verb == b"probes".as_slice() {
        Ok(probes_step(rest))
    } else if verb == b"sent".as_slice() {
        Ok(sent_step(alloc, rest)?)
    } else if verb == b"failed".as_slice() {
        Ok(failed_step(rest))
    } else {
        Ok(None)
    }
}
