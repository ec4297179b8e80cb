//! The setpoints of an event, split over its participants.
ghost use Rattle.std.specs.Prelude.{◌≡◌, ◌≤◌, length, map, IfOk};
ghost use Rattle.adr_split.specs.Limits.{AreShares, max_shares};
ghost use Rattle.adr_view.specs.Views.{weights_of, split_interval};

use adr_objects::{Interval, Period};
use adr_split::split;
use adr_state::Participant;
use adr_text::Rows;
use std::alloc::{AllocError, Global};

/// An interval of an event, with a part for each participant where it carries a setpoint.
#[derive(Drop)]
pub struct SplitInterval {
    pub id: i32,
    pub period: Option<Period>,
    pub parts: Option<Rows<i64>>,
}

/// The weights of the participants.
pub(crate) fn weights_of(alloc: Global, ps: &[Participant]) -> Result<Vec<u32>, AllocError>
    ensures value { IfOk result (λ weights. weights.items ≡ weights_of ps.now) }
    ensures shares { IfOk result (λ weights. AreShares weights.items) }
{
    let mut weights = Vec::new(alloc);
    for p in ps {
        weights.push(p.weight.get())?;
    }
    Ok(weights)
}

fn split_interval(
    alloc: Global,
    weights: &[u32],
    interval: &Interval,
) -> Result<SplitInterval, AllocError>
    requires some { 1 ≤ length weights.now }
    requires few { length weights.now ≤ max_shares }
    requires shares { AreShares weights.now }
    ensures { IfOk result (λ i. i ≡ split_interval weights.now interval.now) }
{
    let parts = match interval.setpoint {
        None => None,
        Some(setpoint) => Some(Rows::from_vec(split(alloc, setpoint.get(), weights)?)),
    };
    Ok(SplitInterval {
        id: interval.id,
        period: interval.period.clone()?,
        parts,
    })
}

/// Each interval, split over the weights.
pub(crate) fn split_intervals(
    alloc: Global,
    weights: &[u32],
    intervals: &[Interval],
) -> Result<Vec<SplitInterval>, AllocError>
    requires some { 1 ≤ length weights.now }
    requires few { length weights.now ≤ max_shares }
    requires shares { AreShares weights.now }
    ensures { IfOk result (λ all. all.items ≡ map (split_interval weights.now) intervals.now) }
{
    let mut all = Vec::new(alloc);
    for interval in intervals {
        all.push(split_interval(alloc, weights, interval)?)?;
    }
    Ok(all)
}
