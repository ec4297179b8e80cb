//! Which vens, resources and subscriptions are wanted.
ghost use Rattle.std.specs.Prelude.{◌≡◌, true};
ghost use Rattle.adr_site_pages.specs.Sites.{wants_sub};

use adr_lent::Wanting;
use adr_objects::Number;
use adr_queries::{ReportFilter, is_about, is_from};
use adr_subscription::Sub;

/// Each is wanted.
#[derive(Drop)]
pub(crate) struct Every;

impl<T> Wanting<T> for Every {
    ghost wanted = { λ every value. true };

    fn is_wanted(&self, _value: &T) -> bool {
        true
    }
}

// Whether a subscription is wanted.
fn wants_sub(filter: &ReportFilter, sub: &Sub) -> bool
    ensures { result ≡ wants_sub filter.now sub.now }
{
    let body = &sub.body;
    is_about(&filter.programs, &body.program) && is_from(&filter.clients, &body.client_name)
}

/// The subscriptions that a filter wants, by the program and the client that they name.
#[derive(Drop)]
pub(crate) struct ByBody<'f> {
    pub filter: &'f ReportFilter,
}

impl Wanting<(Number, Sub)> for ByBody<'_> {
    ghost wanted = { λ by s. wants_sub by.filter.now s.1 };

    fn is_wanted(&self, s: &(Number, Sub)) -> bool {
        wants_sub(self.filter, &s.1)
    }
}
