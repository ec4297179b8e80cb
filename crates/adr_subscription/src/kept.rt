//! The text that is kept of a subscription.
ghost use Rattle.std.specs.Prelude.{◌≡◌, Ok, IfOk, OnOk, string_bytes};
ghost use Rattle.adr_text.specs.Refusals.{Gives};
ghost use Rattle.adr_subscription.specs.Types.{IsSub};
ghost use Rattle.adr_subscription.specs.Kept.{kept_text, kept_of};

use crate::read::read_sub;
use crate::subscription::SubIn;
use adr_text::{Refusal, ToJson};
use std::alloc::{AllocError, Global};

/// The text that is kept of a subscription, with its tokens and with its addresses as they stand: its
/// members in byte order, absent ones left out, no space. It reads back as the subscription.
pub fn kept_text(alloc: Global, sub: &SubIn) -> Result<String, AllocError>
    ensures text { IfOk result (λ s. string_bytes s ≡ kept_text sub.now) }
    ensures reads_back { IfOk result (λ s. kept_of (string_bytes s) ≡ Ok sub.now) }
    ensures kept { OnOk result (IsSub sub.now) }
{
    sub.to_json(alloc)?.to_string(alloc)
}

/// The subscription of which the text is kept; `BadShape` for a text that is none. It is what
/// `read_sub` reads of the text's bytes.
pub fn read_kept(alloc: Global, text: &str) -> Result<SubIn, Refusal>
    ensures { Gives (λ sub. sub) result (kept_of text.now) }
{
    read_sub(alloc, text.as_bytes())
}
