//! Where an entry goes.
ghost use Rattle.std.specs.Prelude.{◌≡◌};
ghost use Rattle.std.specs.Option.{option_copied};
ghost use Rattle.adr_delivery.specs.Entries.{destination, event_of};

use adr_objects::Number;
use adr_subscription::{BearerToken, FreeText};
use adr_text::ObjectId;

/// Where an entry of the outbox goes. A destination is the utility, or one subscription.
#[derive(Clone)]
pub enum Addressee {
    /// To the utility: the roll-up of that upstream event, as a report (OpenADR 3.0, REPORT).
    Utility(ObjectId),
    /// To a subscription, at the address and with the token that it had as the entry was made.
    Subscriber {
        subscription: Number,
        address: FreeText,
        token: Option<BearerToken>,
    },
}

impl Drop for Addressee {
    fn drop(self) {
        match self {
            Addressee::Utility(_) => (),
            Addressee::Subscriber {
                subscription: _,
                address: _,
                token: _,
            } => (),
        }
    }
}

impl Addressee {
    /// The number of the subscription, and 0 for the utility.
    pub fn destination(&self) -> Number
        ensures { result ≡ destination self.now }
    {
        match self {
            Addressee::Utility(_) => Number::new(0),
            Addressee::Subscriber { subscription, .. } => *subscription,
        }
    }

    /// The upstream event, where it goes to the utility.
    pub fn event(&self) -> Option<&ObjectId>
        ensures { option_copied result ≡ event_of self.now }
    {
        match self {
            Addressee::Utility(event) => Some(event),
            Addressee::Subscriber { .. } => None,
        }
    }
}
