//! What the tables store as a desk is made is kept, for contracts alone.
ghost use Rattle.std.specs.Prelude.{◌≡◌};
ghost use Rattle.sqlite.specs.Held.{state};
ghost use Rattle.adr_desk.specs.Since.{Stored, stored_in, nothing_stored, HoldsSince};

use adr_keepsake::Keepsake;
use sqlite::{Alter, Connection};
use std::marker::Brand;

/// What is to be kept, which the proof of a caller picks.
trait Kept {
    ghost kept: { Stored };
}

impl Kept for Brand {
    ghost kept = { nothing_stored };
}

/// A keepsake of what is picked.
fn made<K: Kept, S: Alter>(_conn: &Connection<S>) -> Keepsake
    ensures { result.kept ≡ K.kept }
{
    Keepsake::new()
}

/// A keepsake of what the tables store now. Where that is a state, they hold the one that they read back as.
pub(crate) fn keep<S: Alter>(conn: &Connection<S>) -> Keepsake
    ensures kept { result.kept ≡ stored_in (state S.Store conn.now) }
    ensures holds { HoldsSince S.Store result.kept conn.now }
{
    // The schema of an open store is what its trees list.
    let _ = conn.schema();
    made::<Brand, S>(conn)
}
