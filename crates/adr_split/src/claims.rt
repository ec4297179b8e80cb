//! The resources' claims to the units that the quotas leave over, and their order.
ghost use Rattle.std.specs.Prelude.{◌≡◌, ℕ, ◌*◌, ◌<◌, ◌≤◌, ◌==◌, length, vec_len, count_by, IfOk};
ghost use Rattle.std.specs.Cmp.{partial_order_from_own_ties};
ghost use Rattle.std.specs.Cmp.Rules.{comparing};
ghost use Rattle.std.specs.Ordering.{as_partial_cmp};
ghost use Rattle.std.proofs.Common.{rules};
ghost use Rattle.adr_split.specs.Limits.{max_setpoint, max_share, AreShares};
ghost use Rattle.adr_split.specs.Claims.{claim_order, claim_of, claims_of, rank_among};

use std::alloc::{AllocError, Global};
use std::cmp::Ordering;

/// A resource's claim to one of the missing units. The larger remainder goes first, and of equal
/// ones the earlier place.
#[derive(Clone, Copy, PartialEq, Eq)]
pub struct Claim {
    /// What the division that gave the resource its quota left over.
    pub remainder: u64,
    /// The resource's index in the list of shares.
    pub place: usize,
}

impl Ord for Claim {
    ghost cmp = { claim_order };

    ghost total = { Prim.search (comparing, rules) };

    ghost matches_partial_cmp = { Prim.search (comparing, rules) };

    ghost matches_eq = { Prim.search (comparing, rules) };

    fn cmp(&self, other: &Claim) -> Ordering {
        other
            .remainder
            .cmp(&self.remainder)
            .then(self.place.cmp(&other.place))
    }
}

impl PartialOrd for Claim {
    ghost partial_cmp = { as_partial_cmp claim_order };

    ghost laws = { partial_order_from_own_ties (Prim.search (comparing, rules)) (Prim.search (comparing, rules)) };

    fn partial_cmp(&self, other: &Claim) -> Option<Ordering> {
        Some(self.cmp(other))
    }
}

/// The claim of the resource at this place.
pub fn claim_at(amount: u64, total: u64, place: usize, share: u32) -> Claim
    requires amount_in_range { amount ≤ max_setpoint }
    requires share_in_range { share ≤ max_share }
    requires some_total { 0 < total }
    ensures { result ≡ claim_of amount total (place, share) }
{
    Claim {
        remainder: amount * u64::from(share) % total,
        place,
    }
}

/// The claims of all resources, in their order.
pub fn all_claims(
    alloc: Global,
    amount: u64,
    total: u64,
    shares: &[u32],
) -> Result<Vec<Claim>, AllocError>
    requires amount_in_range { amount ≤ max_setpoint }
    requires shares_in_range { AreShares shares.now }
    requires some_total { 0 < total }
    ensures value { IfOk result (λ claims. claims.items ≡ claims_of amount total shares.now) }
    ensures one_each { IfOk result (λ claims. vec_len claims ≡ length shares.now) }
{
    let mut claims = Vec::new(alloc);
    for (place, share) in shares.iter().enumerate() {
        claims.push(claim_at(amount, total, place, *share))?;
    }
    Ok(claims)
}

/// The claim that has this many others before it.
pub fn at_rank(mut claims: Vec<Claim>, rank: usize) -> Claim
    requires rank_in_range { rank < vec_len claims }
    requires one_claim_a_place { (place : ℕ) → count_by (λ c. c.place == place) claims.items ≤ 1 }
    ensures { rank_among claims.items result ≡ rank }
{
    claims.sort_unstable();
    claims[rank]
}
