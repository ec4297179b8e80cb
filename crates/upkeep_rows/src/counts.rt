//! What happened while edits were played.
use crate::edit::KINDS;
use crate::held::Held;
use crate::refreshed::Told;
use adr_state::ViewKey;
use adr_view::{Operation, row_at};

/// How often something was told by each operation.
#[derive(Clone, Copy)]
pub struct Operations {
    pub posted: u64,
    pub put: u64,
    pub deleted: u64,
}

impl Operations {
    fn none() -> Operations {
        Operations {
            posted: 0,
            put: 0,
            deleted: 0,
        }
    }

    fn count(&mut self, operation: Operation) {
        let counter = match operation {
            Operation::Post => &mut self.posted,
            Operation::Put => &mut self.put,
            Operation::Delete => &mut self.deleted,
        };
        *counter = counter.wrapping_add(1);
    }
}

/// What happened.
#[derive(Clone, Copy)]
pub struct Counts {
    pub steps: u64,
    /// The edits that were made, by their kinds.
    pub made: [u64; 13],
    /// The edits that were refused.
    pub refused: u64,
    pub shown: Operations,
    pub rollups: Operations,
    /// The roll-ups that went, of which nothing is told.
    pub gone: u64,
}

// Whether what stands at a key of one view is no longer there.
fn is_gone_rollup(key: &ViewKey, after: &Held) -> bool {
    matches!(key, ViewKey::Rollup(_)) && row_at(&after.view, key).is_none()
}

impl Counts {
    /// Nothing yet.
    pub fn none() -> Counts {
        Counts {
            steps: 0,
            made: [0; 13],
            refused: 0,
            shown: Operations::none(),
            rollups: Operations::none(),
            gone: 0,
        }
    }

    /// A step is done.
    pub fn count_step(&mut self) {
        self.steps = self.steps.wrapping_add(1);
    }

    /// An edit was refused, or there was nothing to edit.
    pub fn count_refused(&mut self) {
        self.refused = self.refused.wrapping_add(1);
    }

    /// An edit of that kind was made.
    pub fn count_made(&mut self, kind: usize) {
        if let Some(count) = self.made.get_mut(kind) {
            *count = count.wrapping_add(1);
        }
    }

    /// Something was told.
    pub fn count_told(&mut self, told: &Told) {
        for (_, change) in &told.shown {
            self.shown.count(change.operation);
        }
        for (_, change) in &told.rollups {
            self.rollups.count(change.operation);
        }
    }

    /// Roll-ups went.
    pub fn count_gone(&mut self, before: &Held, after: &Held) {
        let gone = before
            .view
            .iter()
            .filter(|(key, _)| is_gone_rollup(key, after))
            .count();
        self.gone = self.gone.wrapping_add(gone as u64);
    }

    /// What else happened is added.
    pub fn add_made(&mut self, other: &Counts) {
        for (sum, count) in self.made.iter_mut().zip(&other.made) {
            *sum = sum.wrapping_add(*count);
        }
    }
}

/// Prints what happened with the edits of a seed.
pub fn print_counts<R: Print>(rt: &R, seed: u64, counts: &Counts) -> std::io::Result<()> {
    let Counts {
        steps,
        refused,
        shown,
        rollups,
        gone,
        made: _,
    } = counts;
    println!(rt;
        "seed {seed}: {steps} steps, {refused} refused; shown {} posted, {} put, {} deleted; roll-ups {} posted, {} put, {gone} gone",
        shown.posted, shown.put, shown.deleted, rollups.posted, rollups.put
    )
}

/// Prints how many edits of each kind were made.
pub fn print_made<R: Print>(rt: &R, counts: &Counts) -> std::io::Result<()> {
    for (kind, count) in KINDS.iter().zip(&counts.made) {
        println!(rt; "{kind}: {count}")?;
    }
    Ok(())
}
