//! What the reply to a request for a page tells.
ghost use Rattle.std.specs.Prelude.{◌≡◌, ◌+◌, ◌≤◌, length, IfOk};
ghost use Rattle.adr_work.specs.Pages.{most_elements, elements, page_of_length, page_in, page_read};

use adr_link::{Asked, Finding, HttpReply, LinkFault, found_of};
use adr_machine::Command;
use adr_objects::{Found, Kind};
use adr_text::Rows;
use std::alloc::{AllocError, Global};

/// A body has no more bytes than this, and a page no more elements.
pub const MOST_ELEMENTS: u64 = 8_388_608;

/// What comes of the request for a page.
#[derive(Drop)]
pub enum PageRead {
    /// A page with elements: the command that it stands for, and how many elements it has.
    Filled(Command, u64),
    /// A page with none, which is the last.
    Empty,
    /// No page.
    Failed,
}

/// How the asking for pages ended, or a round.
#[derive(Clone, Copy, Debug, PartialEq, Eq)]
pub enum PollEnd {
    /// All that the utility has was seen.
    Whole,
    /// A page failed, or there were too many.
    Broken,
}

/// A page of these versions, and of so many elements that are none.
fn page_of(found: Rows<Found>, skipped: u64) -> PageRead
    ensures page { result ≡ page_of_length found (length found + skipped) }
    ensures few { elements result ≤ most_elements }
{
    let versions = found.len() as u64;
    if MOST_ELEMENTS < skipped || MOST_ELEMENTS - skipped < versions {
        return PageRead::Failed;
    }
    let elements = versions + skipped;
    if elements == 0 {
        return PageRead::Empty;
    }
    PageRead::Filled(
        Command::Evidence {
            found,
            polled: true,
        },
        elements,
    )
}

/// The page that a finding is.
fn page_in(finding: Finding) -> PageRead
    ensures page { result ≡ page_in finding }
    ensures few { elements result ≤ most_elements }
{
    match finding {
        Finding::Page { found, skipped } => page_of(found, skipped),
        _ => PageRead::Failed,
    }
}

/// What comes of the request for a page of a kind, by the reply that came, or by the fault where none came.
pub fn page_read(
    alloc: Global,
    kind: Kind,
    came: &Result<HttpReply, LinkFault>,
) -> Result<PageRead, AllocError>
    ensures page { IfOk result (λ page. page ≡ page_read kind came.now) }
    ensures few { IfOk result (λ page. elements page ≤ most_elements) }
{
    Ok(page_in(found_of(alloc, &Asked::Page(kind), came)?))
}
