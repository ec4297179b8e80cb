//! What ends a thread that works over a store: that the store refused. What a commit that was refused left in a file is not
//! known, so nobody is to go on behind it.
ghost use Rattle.std.specs.Prelude.{◌≡◌, is_some};
ghost use Rattle.adr_lock.specs.Halting.{is_stores, by_store, halts_by};

use adr_text::Refusal;
use std::sync::atomic::{AtomicBool, Ordering};

/// Whether a refusal is the store's.
fn is_stores(refusal: Refusal) -> bool
    ensures { result ≡ is_stores refusal }
{
    match refusal {
        Refusal::Store => true,
        _ => false,
    }
}

/// Whether the store refused.
fn by_store<T>(outcome: &Result<T, Refusal>) -> bool
    ensures { result ≡ by_store outcome.now }
{
    match outcome {
        Ok(_) => false,
        Err(refusal) => is_stores(*refusal),
    }
}

/// Whether who was answered so has to end, and if so sets the flag, for all others to see: where there is one, the store's
/// refusal ends. It does not where there is none, as over a store in memory.
pub fn halts<T>(halt: Option<&AtomicBool>, outcome: &Result<T, Refusal>) -> bool
    ensures { result ≡ halts_by (is_some halt.entry) outcome.now }
{
    let Some(flag) = halt else {
        return false;
    };
    let ends = by_store(outcome);
    if ends {
        flag.store(true, Ordering::SeqCst);
    }
    ends
}
