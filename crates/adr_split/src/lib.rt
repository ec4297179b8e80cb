//! Splits one setpoint over resources by their shares: the method of the largest remainder.
#![tactic(auto)]

ghost use Rattle.std.specs.Prelude.{◌≡◌, ◌≤◌, length, IsTrue, IfOk};
ghost use Rattle.adr_split.specs.Limits.{is_setpoint, max_shares, AreShares};
ghost use Rattle.adr_split.specs.FairSplit.{IsFairSplit};
ghost use Rattle.adr_split.specs.Parts.{fair_split};

mod claims;
pub mod laws;
mod parts;

use std::alloc::{AllocError, Global};

/// Splits the setpoint over resources with these shares, part by part in the order of the shares.
///
/// A part's magnitude is the setpoint's times the share by the total of the shares, rounded down.
/// The units that are then missing go, one each, to the resources with the largest remainders of
/// that division; of equal ones the earlier in the list goes first. Each part has the setpoint's sign.
///
/// Setpoint and parts are in one unit, whichever it is. The magnitude of the setpoint is at most
/// 1,000,000,000,000; there are 1 to 10,000 shares, each from 1 to 1,000,000. The one error is want
/// of memory.
pub fn split(alloc: Global, setpoint: i64, shares: &[u32]) -> Result<Vec<i64>, AllocError>
    requires setpoint_in_range { IsTrue (is_setpoint setpoint) }
    requires at_least_one_share { 1 ≤ length shares.now }
    requires not_too_many_shares { length shares.now ≤ max_shares }
    requires shares_in_range { AreShares shares.now }
    ensures fair { IfOk result (λ parts. IsFairSplit setpoint shares.now parts.items) }
    ensures computed { IfOk result (λ parts. parts.items ≡ fair_split setpoint shares.now) }
    ensures one_part_each { IfOk result (λ parts. length parts.items ≡ length shares.now) }
{
    let amount = setpoint.unsigned_abs();
    let total = parts::total_of(shares);
    let missing = parts::missing(amount, total, shares);
    let claims = claims::all_claims(alloc, amount, total, shares)?;
    let first_unserved = claims::at_rank(claims, missing as usize);
    parts::all_parts(alloc, setpoint, total, shares, first_unserved)
}
