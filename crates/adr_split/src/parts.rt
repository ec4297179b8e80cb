//! Totals, quotas and the parts that come of them.
ghost use Rattle.std.specs.Prelude.{◌≡◌, ◌+◌, ◌*◌, ◌<◌, ◌≤◌, ◌^◌, length, sum, map, IsTrue, IfOk};
ghost use Rattle.std.specs.List.{enumerate_from};
ghost use Rattle.adr_split.specs.Limits.{is_setpoint, max_setpoint, max_share, max_shares, AreShares};
ghost use Rattle.adr_split.specs.Quotas.{quota_of, missing_of, signed_as};
ghost use Rattle.adr_split.specs.Parts.{part_before};

use crate::claims::{Claim, claim_at};
use std::alloc::{AllocError, Global};

/// The shares together.
pub fn total_of(shares: &[u32]) -> u64
    requires { length shares.now ≤ max_shares }
    ensures { result ≡ sum shares.now }
{
    shares.iter().map(|share| u64::from(*share)).sum()
}

/// The share's part of the amount, rounded down.
pub fn quota(amount: u64, total: u64, share: u32) -> u64
    requires amount_in_range { amount ≤ max_setpoint }
    requires share_in_range { share ≤ max_share }
    requires some_total { 0 < total }
    ensures value { result ≡ quota_of amount total share }
    ensures bound { result ≤ max_setpoint * max_share }
{
    amount * u64::from(share) / total
}

/// The units that the quotas leave over.
#[tactic(auto, using(crate::proofs::QuotaLemmas::quotas_so_far, crate::proofs::QuotaLemmas::quotas_up_to))]
pub fn missing(amount: u64, total: u64, shares: &[u32]) -> u64
    requires amount_in_range { amount ≤ max_setpoint }
    requires shares_in_range { AreShares shares.now }
    requires whole { total ≡ sum shares.now }
    requires some_total { 0 < total }
    ensures value { result ≡ missing_of amount total shares.now }
    ensures fewer_than_shares { result < length shares.now }
{
    let mut given = 0;
    for share in shares {
        given += quota(amount, total, *share);
    }
    amount - given
}

/// A magnitude under the setpoint's sign.
fn signed(setpoint: i64, magnitude: u64) -> i64
    requires { magnitude < 2 ^ 63 }
    ensures { result ≡ signed_as setpoint magnitude }
{
    if setpoint < 0 {
        -(magnitude as i64)
    } else {
        magnitude as i64
    }
}

/// The part of the resource at this place, where the claims before the given one are served.
fn part(setpoint: i64, total: u64, place: usize, share: u32, first_unserved: Claim) -> i64
    requires setpoint_in_range { IsTrue (is_setpoint setpoint) }
    requires share_in_range { share ≤ max_share }
    requires some_total { 0 < total }
    ensures { result ≡ part_before setpoint total first_unserved (place, share) }
{
    let amount = setpoint.unsigned_abs();
    let mut magnitude = quota(amount, total, share);
    if claim_at(amount, total, place, share) < first_unserved {
        magnitude += 1;
    }
    signed(setpoint, magnitude)
}

/// All parts, where the claims before the given one are served.
pub fn all_parts(
    alloc: Global,
    setpoint: i64,
    total: u64,
    shares: &[u32],
    first_unserved: Claim,
) -> Result<Vec<i64>, AllocError>
    requires setpoint_in_range { IsTrue (is_setpoint setpoint) }
    requires shares_in_range { AreShares shares.now }
    requires some_total { 0 < total }
    ensures { IfOk result (λ parts. parts.items ≡ map (part_before setpoint total first_unserved) (enumerate_from 0 shares.now)) }
{
    let mut parts = Vec::new(alloc);
    for (place, share) in shares.iter().enumerate() {
        parts.push(part(setpoint, total, place, *share, first_unserved))?;
    }
    Ok(parts)
}
