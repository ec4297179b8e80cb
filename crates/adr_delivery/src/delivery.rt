//! How the delivery of an entry stands.
ghost use Rattle.std.specs.Prelude.{◌≡◌};
ghost use Rattle.adr_delivery.specs.Deliveries.{untried, is_leased, may_leave, leased, has_lease, after_failure};

use crate::failures::Failures;
use adr_text::{Moment, Refusal};

/// How long a lease lasts, in seconds.
const LEASE_SECONDS: u32 = 30;

/// How the delivery of an entry stands.
#[derive(Clone, Copy, PartialEq, Eq)]
pub struct Delivery {
    pub failures: Failures,
    /// How many leases there were. The number of a lease is what this was raised to by it.
    pub leases: u64,
    /// Until when the present lease lasts, where there is one; it may have ended.
    pub lease: Option<Moment>,
    /// From when on it may leave.
    pub due: Moment,
}

// 1970-01-01T00:00:00Z
fn first_moment() -> Moment
    ensures { result ≡ 0 }
{
    let Ok(moment) = Moment::at(0) else {
        unreachable!()
    };
    moment
}

impl Delivery {
    /// It was not tried yet, and is due from the first moment on.
    pub fn untried() -> Delivery
        ensures { result ≡ untried }
    {
        Delivery {
            failures: Failures::none(),
            leases: 0,
            lease: None,
            due: first_moment(),
        }
    }

    /// Whether a lease lasts past the moment.
    fn is_leased(&self, now: Moment) -> bool
        ensures { result ≡ is_leased now self.now }
    {
        match self.lease {
            Some(until) => now < until,
            None => false,
        }
    }

    /// Whether it is due, and no lease of it lasts.
    pub fn may_leave(&self, now: Moment) -> bool
        ensures { result ≡ may_leave now self.now }
    {
        self.due <= now && !self.is_leased(now)
    }

    /// The same with one more lease, of 30 seconds from now. Refused with `Exhausted` where that would be more than `most`.
    pub fn leased(self, most: u64, now: Moment) -> Result<Delivery, Refusal>
        ensures { result ≡ leased most now self }
    {
        if most <= self.leases {
            return Err(Refusal::Exhausted);
        }
        Ok(Delivery {
            leases: self.leases + 1,
            lease: Some(now.plus_seconds(LEASE_SECONDS)),
            ..self
        })
    }

    /// Whether it has the lease of that number, which may have ended.
    pub fn has_lease(&self, number: u64) -> bool
        ensures { result ≡ has_lease number self.now }
    {
        self.lease.is_some() && self.leases == number
    }

    /// The same after a failure now, unless that gives it up: without a lease, and due after a wait.
    pub fn after_failure(self, now: Moment) -> Option<Delivery>
        ensures { result ≡ after_failure now self }
    {
        let failures = self.failures.one_more()?;
        Some(Delivery {
            failures,
            leases: self.leases,
            lease: None,
            due: now.plus_seconds(self.failures.wait()),
        })
    }
}
