//! The head of a reply at the front of bytes (RFC 9112, sections 2, 4 and 5).
ghost use Rattle.adr_link.specs.ReplyHeads.{HasNoHead, HeadFound};

use adr_wire::{Front, MOST_FIELDS, NeverFound, has_empty_line};
use httparse::Status;
use httparse::spans::{EMPTY_HEADER_SPAN, HeaderSpan, ResponseSpans, Span, parse_response};

/// The head: where its parts are.
#[derive(Clone, Copy)]
pub(crate) struct HeadFront {
    pub(crate) headers: [HeaderSpan; MOST_FIELDS],
    pub(crate) spans: ResponseSpans,
}

impl HeadFront {
    /// None yet.
    pub(crate) fn new() -> HeadFront {
        HeadFront {
            headers: [EMPTY_HEADER_SPAN; MOST_FIELDS],
            spans: ResponseSpans {
                version: 0,
                code: 0,
                reason: Span { start: 0, end: 0 },
                headers: 0,
                len: 0,
            },
        }
    }
}

impl Front for HeadFront {
    ghost found = { λ s bytes. HeadFound bytes s.headers s.spans };

    ghost none = { HasNoHead };

    #[tactic(auto, using(crate::proofs::HeadLemmas::no_head_end, crate::proofs::HeadLemmas::no_head_full, crate::proofs::HeadLemmas::no_head_err))]
    fn find(&mut self, bytes: &[u8]) -> Result<bool, NeverFound> {
        match parse_response(bytes, &mut self.headers) {
            Ok(Status::Complete(spans)) => {
                self.spans = spans;
                Ok(true)
            }
            Ok(Status::Partial) => Ok(false),
            Err(_) => Err(NeverFound),
        }
    }

    fn may_end(&self, bytes: &[u8], from: usize) -> bool {
        has_empty_line(bytes, from)
    }
}
