//! Who sees which request came, what it asks, and what is replied.
use adr_asked::Asked;
use adr_machine::Role;
use adr_reply::Problem;
use adr_request::HttpRequest;
use adr_wire::ReadEnd;

/// Sees a request as it was read, what it asks, and the status of the reply, for the log. No contract says anything of it, and
/// a request is served the same whoever looks on.
pub trait Witness {
    /// This was read, before anything is asked of it.
    fn reads(&mut self, reading: &Result<HttpRequest, ReadEnd>);

    /// This is what a request asks, or why it asks nothing, by the role of its token; `None` where that isn't known.
    fn plans(&mut self, role: Option<&Role>, plan: &Result<Asked, Problem>);

    /// A reply with this status is to be written. Where memory ends for one, 500 follows.
    fn replies(&mut self, status: u16);
}

/// Nobody.
#[derive(Clone, Copy)]
pub struct Unseen;

impl Witness for Unseen {
    fn reads(&mut self, _reading: &Result<HttpRequest, ReadEnd>) {}

    fn plans(&mut self, _role: Option<&Role>, _plan: &Result<Asked, Problem>) {}

    fn replies(&mut self, _status: u16) {}
}
