//! What the log is told of a call under the lock. No contract says anything of it.
use adr_machine::Answer;
use adr_text::Refusal;
use log::{Log, warn};

// Whether a refusal is a trouble of the node itself, and not of who asked: memory, the store, the outbox, numbers, the
// trail, and as many objects as there may be.
fn is_trouble(refusal: Refusal) -> bool {
    matches!(
        refusal,
        Refusal::OutOfMemory
            | Refusal::Store
            | Refusal::OutboxFull
            | Refusal::Exhausted
            | Refusal::TrailFull
            | Refusal::LimitReached
    )
}

/// Tells of a refusal that is a trouble of the node itself.
pub(crate) fn tell<R: Log>(rt: &R, outcome: &Result<Answer, Refusal>) {
    match outcome {
        Err(refusal) if is_trouble(*refusal) => {
            warn!(rt; target: "book", "refused {} {}: {}", refusal.number(), refusal.title(), refusal)
        }
        _ => (),
    }
}
