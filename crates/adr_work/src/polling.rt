//! A round of polling, over whoever asks and whoever is told.
ghost use Rattle.std.specs.Prelude.{◌≡◌, ◌≤◌, IfOk, IfErr};
ghost use Rattle.adr_text.specs.declared.refusal.Refusal.TheVariants.{OutOfMemory};
ghost use Rattle.adr_lock.specs.Halting.{by_store, EndsByStore};
ghost use Rattle.adr_work.specs.Pages.{most_elements, elements};
ghost use Rattle.adr_work.specs.Rounds.{Asks, Goes, AsksPage, IsPaging, IsListing, IsProbe, IsProbing, IsEnding, IsRound};
ghost use Rattle.adr_work.specs.Refused.{EndsBy};

use crate::gate::Gate;
use crate::page::{PageRead, PollEnd, page_read};
use crate::probe::{keys_in, probe_told};
use crate::request::to_utility;
use crate::teller::Teller;
use crate::watch::Watch;
use adr_link::Upstream;
use adr_machine::Command;
use adr_objects::Kind;
use adr_state::MirrorKey;
use adr_text::Refusal;
use std::alloc::Global;

/// Pages of one kind that are asked for in a round.
pub const MOST_PAGES: u32 = 2_000;

/// Asks for a page of a kind, behind so many elements.
fn ask_page<G: Gate, W: Watch>(
    alloc: Global,
    gate: &mut G,
    upstream: &Upstream,
    kind: Kind,
    skip: u64,
    watch: &mut W,
) -> Result<PageRead, Refusal>
    ensures page { Asks (G.exchanges gate.old) (G.exchanges gate.new) (AsksPage upstream.now kind skip result) }
    ensures few { IfOk result (λ page. elements page ≤ most_elements) }
    ensures memory { IfErr result (λ refusal. refusal ≡ OutOfMemory) }
{
    let request = to_utility(upstream.page_request(alloc, kind, skip)?);
    let came = gate.ask(&request);
    let page = page_read(alloc, kind, &came)?;
    watch.page(kind, skip, gate.account(), &came, &page);
    Ok(page)
}

/// Asks for the pages of a kind, each behind the elements of those before it, until one is empty, and tells of each that
/// has elements. It ends as broken with a page that fails, or where 2,000 pages were not all.
#[tactic(auto, using(crate::proofs::Refusing::ends_memory, crate::proofs::Refusing::ends_refused))]
fn poll_pages<G: Gate, T: Teller, W: Watch>(
    alloc: Global,
    gate: &mut G,
    teller: &mut T,
    upstream: &Upstream,
    kind: Kind,
    watch: &mut W,
) -> Result<PollEnd, Refusal>
    ensures round { Goes (G.exchanges gate.old) (G.exchanges gate.new) (T.memory teller.old) (T.memory teller.new) (IsPaging upstream.now kind result) }
    ensures ends { EndsByStore (by_store result) (T.steps teller.old) (T.steps teller.new) }
    ensures refusal { IfErr result (λ refusal. EndsBy (T.refuses teller.new) refusal) }
{
    let mut skip = 0;
    for _i in 0..MOST_PAGES {
        match ask_page(alloc, gate, upstream, kind, skip, watch)? {
            PageRead::Filled(command, elements) => {
                teller.tell(&command)?;
                skip += elements;
            }
            PageRead::Empty => return Ok(PollEnd::Whole),
            PageRead::Failed => return Ok(PollEnd::Broken),
        }
    }
    Ok(PollEnd::Broken)
}

/// Asks for the pages of programs, and where these are whole for those of events.
fn poll_both<G: Gate, T: Teller, W: Watch>(
    alloc: Global,
    gate: &mut G,
    teller: &mut T,
    upstream: &Upstream,
    watch: &mut W,
) -> Result<PollEnd, Refusal>
    ensures round { Goes (G.exchanges gate.old) (G.exchanges gate.new) (T.memory teller.old) (T.memory teller.new) (IsListing upstream.now result) }
    ensures ends { EndsByStore (by_store result) (T.steps teller.old) (T.steps teller.new) }
    ensures refusal { IfErr result (λ refusal. EndsBy (T.refuses teller.new) refusal) }
{
    match poll_pages(alloc, gate, teller, upstream, Kind::Program, watch)? {
        PollEnd::Whole => poll_pages(alloc, gate, teller, upstream, Kind::Event, watch),
        PollEnd::Broken => Ok(PollEnd::Broken),
    }
}

/// Asks for the object of a key, and tells what came of it. A probe that failed is passed over.
#[tactic(auto, using(crate::proofs::Refusing::ends_memory, crate::proofs::Refusing::ends_refused))]
fn probe<G: Gate, T: Teller, W: Watch>(
    alloc: Global,
    gate: &mut G,
    teller: &mut T,
    upstream: &Upstream,
    key: &MirrorKey,
    watch: &mut W,
) -> Result<(), Refusal>
    ensures round { Goes (G.exchanges gate.old) (G.exchanges gate.new) (T.memory teller.old) (T.memory teller.new) (IsProbe upstream.now key.now result) }
    ensures ends { EndsByStore (by_store result) (T.steps teller.old) (T.steps teller.new) }
    ensures refusal { IfErr result (λ refusal. EndsBy (T.refuses teller.new) refusal) }
{
    let request = to_utility(upstream.probe_request(alloc, key.kind, &key.id)?);
    let came = gate.ask(&request);
    watch.probe(key, gate.account(), &came);
    let Some(command) = probe_told(alloc, key, &came)? else {
        return Ok(());
    };
    teller.tell(&command)?;
    Ok(())
}

/// Probes each of the keys in turn.
fn probe_each<G: Gate, T: Teller, W: Watch>(
    alloc: Global,
    gate: &mut G,
    teller: &mut T,
    upstream: &Upstream,
    keys: &[MirrorKey],
    watch: &mut W,
) -> Result<(), Refusal>
    ensures round { Goes (G.exchanges gate.old) (G.exchanges gate.new) (T.memory teller.old) (T.memory teller.new) (IsProbing upstream.now keys.now result) }
    ensures ends { EndsByStore (by_store result) (T.steps teller.old) (T.steps teller.new) }
    ensures refusal { IfErr result (λ refusal. EndsBy (T.refuses teller.new) refusal) }
{
    for key in keys {
        probe(alloc, gate, teller, upstream, key, watch)?;
    }
    Ok(())
}

/// Ends the scan, and probes the keys that it missed, of which the gate is told how many these are.
#[tactic(auto, using(crate::proofs::Refusing::ends_refused))]
fn end_scan<G: Gate, T: Teller, W: Watch>(
    alloc: Global,
    gate: &mut G,
    teller: &mut T,
    upstream: &Upstream,
    watch: &mut W,
) -> Result<(), Refusal>
    ensures round { Goes (G.exchanges gate.old) (G.exchanges gate.new) (T.memory teller.old) (T.memory teller.new) (IsEnding upstream.now result) }
    ensures ends { EndsByStore (by_store result) (T.steps teller.old) (T.steps teller.new) }
    ensures refusal { IfErr result (λ refusal. EndsBy (T.refuses teller.new) refusal) }
{
    let missed = teller.tell(&Command::ScanEnd)?;
    let keys = keys_in(&missed);
    gate.look_ahead(teller.versions(), keys.len() as u64);
    probe_each(alloc, gate, teller, upstream, keys, watch)
}

/// One round: a scan over all pages of programs and then of events, whose end answers the keys that it missed, and a
/// probe of each of these. Where not all pages are seen, the scan is not ended. A refused command ends the round. Who
/// watches it changes nothing.
#[tactic(auto, using(crate::proofs::Refusing::ends_refused))]
pub fn poll<G: Gate, T: Teller, W: Watch>(
    alloc: Global,
    gate: &mut G,
    teller: &mut T,
    upstream: &Upstream,
    watch: &mut W,
) -> Result<PollEnd, Refusal>
    ensures round { Goes (G.exchanges gate.old) (G.exchanges gate.new) (T.memory teller.old) (T.memory teller.new) (IsRound upstream.now result) }
    ensures ends { EndsByStore (by_store result) (T.steps teller.old) (T.steps teller.new) }
    ensures refusal { IfErr result (λ refusal. EndsBy (T.refuses teller.new) refusal) }
{
    teller.tell(&Command::ScanBegin)?;
    match poll_both(alloc, gate, teller, upstream, watch)? {
        PollEnd::Whole => {
            end_scan(alloc, gate, teller, upstream, watch)?;
            Ok(PollEnd::Whole)
        }
        PollEnd::Broken => Ok(PollEnd::Broken),
    }
}
